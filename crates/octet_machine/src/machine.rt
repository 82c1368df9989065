//! The machine: one step of one thread at a time.
ghost use Rattle.std.specs.Prelude.{◌≡◌, ◌<◌, ◌↔◌, true, length, get_or, IfOk, None};
ghost use Rattle.std.specs.List.{list_all};
ghost use Rattle.std.specs.Option.{is_some};
ghost use Rattle.octet_model.specs.Journals.{access_count, log_of};
ghost use Rattle.octet_model.specs.Machine.{journal_of};
ghost use Rattle.octet_model.specs.Orders.{outcome_of, IsFaithful};
ghost use Rattle.octet_state.specs.Steps.{May};
ghost use Rattle.octet_machine.specs.Machine.{after_rest, after_turn, have_ended, next_kind, opening_machine, plain_state, runner_of, turned, turned_by, wanted};
ghost use Rattle.octet_machine.specs.Running.{IsRunning};

use crate::results::recorded;
use crate::rooms::Rooms;
use crate::run::{Run, Runner};
use crate::same::are_same_scripts;
use crate::turned::Turned;
use octet_model::{OutOfMemory, Recorded, Script};
use octet_state::Why;
use std::alloc::Global;
use std::marker::Model;

/// The threads of a script, which take their steps in turns.
#[derive(Debug, Drop)]
pub struct Machine {
    run: Run,
}

impl Model for Machine {
    ghost use Rattle.octet_machine.specs.Machine.{MachineState};

    ghost Value = { MachineState };

    ghost use Rattle.octet_machine.specs.Run.{machine_in, IsHeld};

    ghost view = { λ m. machine_in m.run };

    ghost invariant = { λ m. IsHeld m.run };
}

fn turned_by(why: Option<Why>) -> Turned
    ensures { result ≡ turned_by why }
{
    match why {
        Some(why) => Turned::Waits { why },
        None => Turned::Moved,
    }
}

fn have_ended(runners: &[Runner]) -> bool
    ensures { result ≡ list_all (λ runner. is_some runner.end) runners.now }
{
    for runner in runners {
        if runner.end.is_none() {
            return false;
        }
    }
    true
}

impl Machine {
    /// Before the first step. Reserves all the room that the run needs.
    pub fn new(alloc: Global, script: &Script) -> Result<Machine, OutOfMemory>
        ensures state { IfOk result (λ machine. machine ≡ opening_machine script.now) }
        ensures threads { IfOk result (λ machine. length machine.runners ≡ length script.now.threads) }
    {
        Machine::in_rooms(alloc, script, &mut Rooms::new(alloc))
    }

    /// The same, in the room that earlier machines gave back, as far as there is enough.
    pub fn in_rooms(
        alloc: Global,
        script: &Script,
        rooms: &mut Rooms,
    ) -> Result<Machine, OutOfMemory>
        ensures state { IfOk result (λ machine. machine ≡ opening_machine script.now) }
        ensures threads { IfOk result (λ machine. length machine.runners ≡ length script.now.threads) }
    {
        Ok(Machine {
            run: Run::new(alloc, script, rooms)?,
        })
    }

    /// Gives the room of its journals back.
    pub fn vacate(self, rooms: &mut Rooms) -> Result<(), OutOfMemory> {
        let run = self.run;
        let memory = run.memory;
        for journal in memory.journals {
            rooms.keep(journal)?;
        }
        Ok(())
    }

    /// Takes the one step that is next for the thread. A thread that has ended changes nothing.
    pub fn turn(&mut self, thread: u8) -> Turned
        requires { thread < length self.old.runners }
        ensures answer { result ≡ turned self.old thread }
        ensures state { self.new ≡ after_turn self.old thread }
        ensures step { (runner_of self.old thread).end ≡ None → May (next_kind self.old thread) thread self.old.protocol }
        ensures running { IsRunning self.new }
        ensures threads { length self.new.runners ≡ length self.old.runners }
        ensures script { self.new.script ≡ self.old.script }
    {
        if self.run.runners[thread as usize].end.is_some() {
            return Turned::Ended;
        }
        turned_by(self.run.step(thread))
    }

    /// Marks a thread blocked for a while, between two demands, as a pause does: where it is idle and
    /// owes nothing, and else changes nothing. Its next turn unblocks it.
    pub fn rest(&mut self, thread: u8)
        requires { thread < length self.old.runners }
        ensures state { self.new ≡ after_rest self.old thread }
        ensures running { IsRunning self.new }
        ensures threads { length self.new.runners ≡ length self.old.runners }
        ensures script { self.new.script ≡ self.old.script }
    {
        self.run.rest(thread);
    }

    /// How many accesses a thread has made.
    pub fn accesses(&self, thread: u8) -> u64
        requires { thread < length self.now.runners }
        ensures { result ≡ access_count (journal_of self.now.protocol.journals thread) }
    {
        self.run.memory.journals[thread as usize].accesses
    }

    /// Whether a thread has ended.
    pub fn has_ended(&self, thread: u8) -> bool
        requires { thread < length self.now.runners }
        ensures { result ≡ is_some (runner_of self.now thread).end }
    {
        self.run.runners[thread as usize].end.is_some()
    }

    /// The value of an object.
    pub fn value(&self, object: u16) -> u64
        requires { object < length self.now.script.objects }
        ensures { result ≡ get_or self.now.protocol.cells object 0 }
    {
        self.run.memory.cells[object as usize]
    }

    /// How many threads its script has.
    pub fn threads(&self) -> u8
        ensures runners { result ≡ length self.now.runners }
        ensures script { result ≡ length self.now.script.threads }
        ensures some { 0 < result }
    {
        self.run.runners.len() as u8
    }

    /// How many accesses the thread has made, where it is idle, owes nothing, and is to make an
    /// access next.
    pub fn wants(&self, thread: u8) -> Option<u32>
        requires { thread < length self.now.runners }
        ensures { result ≡ wanted self.now thread }
    {
        self.run.wants(thread)
    }

    /// Whether it is a machine of this script.
    pub fn is_of(&self, script: &Script) -> bool
        ensures { (result ≡ true) ↔ (self.now.script ≡ script.now) }
    {
        are_same_scripts(&self.run.script, script)
    }

    /// Whether all threads have ended.
    pub fn ended(&self) -> bool
        ensures all { result ≡ have_ended self.now }
        ensures running { IsRunning self.now }
    {
        have_ended(&self.run.runners)
    }

    /// The log and the outcome of the run, once all threads have ended.
    pub fn finish(self, alloc: Global) -> Result<Recorded, OutOfMemory>
        requires { have_ended self ≡ true }
        ensures faithful { IfOk result (λ r. IsFaithful self.script r.log.threads r.outcome) }
        ensures log { IfOk result (λ r. r.log.threads ≡ log_of self.protocol.journals) }
        ensures outcome { IfOk result (λ r. r.outcome ≡ outcome_of self.script (plain_state self.protocol)) }
    {
        recorded(alloc, self.run)
    }
}
