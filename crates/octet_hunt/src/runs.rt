//! One run of a script by a schedule.
ghost use Rattle.std.specs.Prelude.{◌≡◌, ◌≤◌, length, IfOk, IfSome};
ghost use Rattle.octet_model.specs.declared.limits.TheConstants.{MAX_THREADS};
ghost use Rattle.octet_hunt.specs.Hunts.{IsAimAt, Meets};

use crate::aim::{Aim, Met};
use octet_machine::{Machine, Rooms, go};
use octet_model::{MAX_THREADS, OutOfMemory, Script};
use octet_schedule::Schedule;
use std::alloc::Global;

/// A thread that makes no access in so many turns lets the others go on.
pub(crate) const MOST_TURNS: u32 = 64;

/// What is kept from run to run: the room of journals, and the picks of the last run, a thread for
/// each access. A thread that makes no access in so many turns lets the others go on.
#[derive(Drop)]
pub(crate) struct Course {
    rooms: Rooms,
    picks: Vec<u8>,
    turns: u32,
}

/// In which order the threads of a run made their accesses: the thread that was picked for each, and
/// how often one was stopped that could have gone on.
#[derive(Drop)]
pub(crate) struct Interleaving {
    pub(crate) picks: Vec<u8>,
    pub(crate) preemptions: u32,
}

/// A run that is looked for, and what was recorded of it.
#[derive(Drop)]
pub(crate) struct Hit {
    pub(crate) interleaving: Interleaving,
    pub(crate) met: Met,
}

// Which of these threads have not ended.
fn running(machine: &Machine, threads: usize) -> [bool; MAX_THREADS]
    requires few { threads ≤ MAX_THREADS }
    requires there { threads ≤ length machine.now.runners }
{
    let mut running = [false; MAX_THREADS];
    for thread in 0..threads {
        running[thread] = !machine.has_ended(thread as u8);
    }
    running
}

// Whether the thread before could have gone on.
fn preempts(ready: &[bool], at_work: Option<u8>, thread: u8) -> bool {
    match at_work {
        Some(before) if before != thread => ready.get(before as usize).copied().unwrap_or(false),
        _ => false,
    }
}

impl Course {
    pub(crate) fn new(alloc: Global, turns: u32) -> Course {
        Course {
            rooms: Rooms::new(alloc),
            picks: Vec::new(alloc),
            turns,
        }
    }

    /// Runs the machine by the schedule until all threads have ended, or have been picked as often as
    /// their fuel allows. Counts how often a thread was stopped that could have gone on.
    pub(crate) fn play(
        &mut self,
        machine: &mut Machine,
        schedule: &mut Schedule,
        fuel: u32,
    ) -> Result<u32, OutOfMemory>
        ensures { IfOk result (λ _. machine.new.script ≡ machine.old.script) }
    {
        self.picks.clear();
        let mut preemptions: u32 = 0;
        let threads = (machine.threads() as usize).min(MAX_THREADS);
        let mut ready = running(machine, threads);
        let mut at_work = None;
        for _made in 0..(u64::from(fuel) + 2) * MAX_THREADS as u64 {
            let Some(thread) = schedule.pick(&ready[..threads]) else {
                break;
            };
            if preempts(&ready, at_work, thread) {
                preemptions = preemptions.saturating_add(1);
            }
            go(machine, thread, self.turns);
            self.picks.push(thread)?;
            ready[thread as usize] = !machine.has_ended(thread);
            at_work = Some(thread);
        }
        Ok(preemptions)
    }

    /// Runs the script by the schedule. What comes of it, if that is looked for.
    pub(crate) fn run(
        &mut self,
        alloc: Global,
        script: &Script,
        aim: Aim,
        schedule: &mut Schedule,
    ) -> Result<Option<Hit>, OutOfMemory>
        requires object { IsAimAt (length script.now.objects) aim }
        ensures { IfOk result (λ found. IfSome found (λ hit. Meets script.now aim hit.met.recorded hit.met.hops)) }
    {
        let mut machine = Machine::in_rooms(alloc, script, &mut self.rooms)?;
        let preemptions = self.play(&mut machine, schedule, script.fuel)?;
        if !machine.ended() {
            machine.vacate(&mut self.rooms)?;
            return Ok(None);
        }
        let Some(met) = aim.judge(alloc, script, machine, &mut self.rooms)? else {
            return Ok(None);
        };
        let picks = Vec::from_slice(alloc, &self.picks)?;
        let interleaving = Interleaving { picks, preemptions };
        Ok(Some(Hit { interleaving, met }))
    }

    /// The interleaving of the run by the schedule, if that run is looked for. What was recorded of it
    /// is not kept, so that a search holds one run's memory at a time.
    pub(crate) fn interleaving(
        &mut self,
        alloc: Global,
        script: &Script,
        aim: Aim,
        schedule: &mut Schedule,
    ) -> Result<Option<Interleaving>, OutOfMemory>
        requires { IsAimAt (length script.now.objects) aim }
    {
        Ok(
            self.run(alloc, script, aim, schedule)?
                .map(|hit| hit.interleaving),
        )
    }
}
