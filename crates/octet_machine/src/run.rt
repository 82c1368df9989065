//! The threads of a script on the memory that they share, and whose step is next.
ghost use Rattle.std.specs.Prelude.{◌≡◌, ◌<◌, length, Some, None, IfOk};
ghost use Rattle.octet_state.specs.declared.phase.Phase.TheVariants.{Idle, Want, Pass, Claimed};
ghost use Rattle.octet_machine.specs.Machine.{after_rest, is_access, is_at_rest, next_waits, opening_machine, starting_runners, wanted};
ghost use Rattle.octet_machine.specs.Memory.{shape, thread_in};
ghost use Rattle.octet_machine.specs.Run.{machine_in, IsHeld, IsNext, StandsIn, Steps};

use crate::memory::{Memory, ProtocolThread};
use crate::rooms::Rooms;
use octet_interp::{Config, Demand};
use octet_model::{End, MAX_MARKS_BEFORE_ACCESS, OutOfMemory, Script};
use octet_state::{Act, Due, Mode, Phase, StateWord, Why, decide};
use std::alloc::Global;

/// A thread as its script runs.
#[derive(Debug, Drop)]
pub(crate) struct Runner {
    pub(crate) config: Config,
    /// What it is to write or to add, while it wants to write or to update.
    pub(crate) value: u64,
    /// How it ended, if it has.
    pub(crate) end: Option<End>,
}

/// A script, its threads, and the memory that they share.
#[derive(Debug, Drop)]
pub(crate) struct Run {
    pub(crate) script: Script,
    pub(crate) memory: Memory,
    pub(crate) runners: Vec<Runner>,
}

fn is_access(demand: Demand) -> bool
    ensures { result ≡ is_access demand }
{
    match demand {
        Demand::Read { .. } | Demand::Write { .. } | Demand::Bump { .. } => true,
        _ => false,
    }
}

// Whether the thread is idle, and owes nothing.
fn is_at_rest(thread: ProtocolThread) -> bool
    ensures { result ≡ is_at_rest (thread_in thread) }
{
    match (thread.phase, thread.due) {
        (Phase::Idle, Due::Nothing) => true,
        _ => false,
    }
}

fn starting_runners(alloc: Global, script: &Script) -> Result<Vec<Runner>, OutOfMemory>
    ensures { IfOk result (λ runners. runners.items ≡ starting_runners script.now (length script.now.threads)) }
{
    let mut runners = Vec::new(alloc);
    for thread in 0..script.thread_count() {
        let config = Config::new(alloc, script, thread)?;
        let value = 0;
        let end = None;
        runners.push(Runner { config, value, end })?;
    }
    Ok(runners)
}

impl Run {
    /// Before the first step. Room is reserved for sixteen events for each command that a thread
    /// may run: an access, and up to fifteen marks before it. It is taken from these rooms, as far as
    /// they have it.
    pub(crate) fn new(alloc: Global, script: &Script, rooms: &mut Rooms) -> Result<Run, OutOfMemory>
        ensures is_held { IfOk result (λ run. IsHeld run) }
        ensures machine { IfOk result (λ run. machine_in run ≡ opening_machine script.now) }
    {
        let room = script.fuel as usize * (MAX_MARKS_BEFORE_ACCESS + 1);
        let heap = script.starting_heap(alloc)?;
        let memory = Memory::new(alloc, script.thread_count(), room, heap, rooms)?;
        let runners = starting_runners(alloc, script)?;
        Ok(Run {
            script: script.try_clone(alloc)?,
            memory,
            runners,
        })
    }

    /// How many accesses a thread has made that is idle, owes nothing, and is to make an access
    /// next.
    pub(crate) fn wants(&self, me: u8) -> Option<u32>
        requires held { IsHeld self.now }
        requires there { me < length self.now.runners.items }
        ensures { result ≡ wanted (machine_in self.now) me }
    {
        if !is_at_rest(self.memory.thread(me))
            || !is_access(self.runners[me as usize].config.peek())
        {
            return None;
        }
        Some(self.memory.journals[me as usize].accesses as u32)
    }

    /// Marks a thread blocked for a while, if it is idle and owes nothing.
    pub(crate) fn rest(&mut self, me: u8)
        requires held { IsHeld self.old }
        requires there { me < length self.old.runners.items }
        ensures machine { machine_in self.new ≡ after_rest (machine_in self.old) me }
        ensures shape { shape self.new.memory ≡ shape self.old.memory }
    {
        if is_at_rest(self.memory.thread(me)) {
            self.memory.block(me, false);
        }
    }

    /// The next step of a thread that has not ended.
    pub(crate) fn step(&mut self, me: u8) -> Option<Why>
        requires { IsNext self.old me }
        ensures steps { Steps me self.old self.new }
        ensures waits { result ≡ next_waits (machine_in self.old) me }
    {
        let thread = self.memory.thread(me);
        match thread.due {
            Due::Glance => {
                self.memory.glance(me);
                None
            }
            Due::Answer => {
                self.memory.answer(me);
                None
            }
            Due::Nothing => self.go_on(me, thread.phase),
        }
    }

    // The next step of a thread that owes nothing.
    fn go_on(&mut self, me: u8, phase: Phase) -> Option<Why>
        requires { StandsIn self.old me phase }
        ensures steps { Steps me self.old self.new }
        ensures waits { result ≡ next_waits (machine_in self.old) me }
    {
        match phase {
            Phase::Off | Phase::Blocked => {
                self.memory.unblock(me);
                None
            }
            Phase::Idle => self.take_up(me),
            Phase::Want {
                object,
                mode,
                seen: None,
            } => self.memory.load(me, object, mode),
            Phase::Want {
                object,
                mode,
                seen: Some(seen),
            } => self.exchange(me, object, mode, seen),
            Phase::Pass { object, mode } => {
                self.access(me, object, mode);
                None
            }
            Phase::FenceDue { object, .. } => {
                self.memory.fence(me, object);
                None
            }
            Phase::Claimed {
                object,
                mode,
                prior,
                done,
                asked,
            } => self.pursue(me, object, mode, prior, done, asked),
            Phase::Sharing {
                object,
                drawn: None,
            } => {
                self.memory.draw(me, object);
                None
            }
            Phase::Sharing {
                object,
                drawn: Some(number),
            } => {
                self.memory.settle_share(me, object, number);
                None
            }
        }
    }

    // The first step of what the thread's script demands next.
    fn take_up(&mut self, me: u8) -> Option<Why>
        requires { StandsIn self.old me Idle }
        ensures steps { Steps me self.old self.new }
        ensures waits { result ≡ next_waits (machine_in self.old) me }
    {
        let runner = &mut self.runners[me as usize];
        match runner.config.next() {
            Demand::Read { object } => self.memory.load(me, object, Mode::Read),
            Demand::Write { object, value } => {
                runner.value = value;
                self.memory.load(me, object, Mode::Write)
            }
            Demand::Bump { object, amount } => {
                runner.value = amount;
                self.memory.load(me, object, Mode::Update)
            }
            Demand::Safe => {
                self.memory.glance(me);
                None
            }
            Demand::Pause => {
                self.memory.block(me, false);
                None
            }
            Demand::Ended { end } => {
                runner.end = Some(end);
                self.memory.block(me, true);
                None
            }
        }
    }

    // The exchange of a state that the thread has loaded, as the table says.
    fn exchange(&mut self, me: u8, object: u16, mode: Mode, seen: StateWord) -> Option<Why>
        requires { StandsIn self.old me (Want object mode (Some seen)) }
        ensures steps { Steps me self.old self.new }
        ensures waits { result ≡ next_waits (machine_in self.old) me }
    {
        let count = self.memory.thread(me).count;
        match decide(&seen, me, &mode, count) {
            Act::Raise => self.memory.raise(me, object, mode, seen),
            Act::Share { from, upto } => self.memory.share(me, object, mode, from, upto),
            _ => self.memory.claim(me, object, mode, seen),
        }
    }

    // The access that the object's state allows.
    fn access(&mut self, me: u8, object: u16, mode: Mode)
        requires { StandsIn self.old me (Pass object mode) }
        ensures steps { Steps me self.old self.new }
        ensures waits { next_waits (machine_in self.old) me ≡ None }
    {
        match mode {
            Mode::Read => {
                let value = self.memory.read(me, object);
                self.runners[me as usize].config.give(value);
            }
            Mode::Write => {
                let value = self.runners[me as usize].value;
                self.memory.write(me, object, value);
            }
            Mode::Update => {
                let amount = self.runners[me as usize].value;
                self.memory.bump(me, object, amount);
            }
        }
    }

    // The next step of a claim: to ask the next thread, or to look at it, or to settle.
    fn pursue(
        &mut self,
        me: u8,
        object: u16,
        mode: Mode,
        prior: StateWord,
        done: u8,
        asked: bool,
    ) -> Option<Why>
        requires { StandsIn self.old me (Claimed object mode prior done asked) }
        ensures steps { Steps me self.old self.new }
        ensures waits { result ≡ next_waits (machine_in self.old) me }
    {
        let whom = prior.whom_to_ask();
        if done == whom.count(self.memory.thread_count()) {
            self.memory.settle_claim(me, object, mode);
            return None;
        }
        let next = whom.next(me, done);
        if asked {
            self.memory.look(me, next)
        } else {
            self.memory.ask(me, next)
        }
    }
}
