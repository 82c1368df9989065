//! A replay that is stepped by its caller.
ghost use Rattle.std.specs.Prelude.{◌≡◌, ◌<◌, ◌≤◌, length, Some, IfErr, IfOk, IfSome, IsNone};
ghost use Rattle.octet_model.specs.declared.limits.TheConstants.{MAX_FUEL};
ghost use Rattle.octet_model.specs.Orders.{execution, lowest_order};
ghost use Rattle.octet_replay.specs.Judged.{HasCause, IsLawful};
ghost use Rattle.octet_replay.specs.ReplayState.{regions_of, HasHalted, IsLowestStep, IsNextThread, IsNotBegun, StepsTo, plain_state};
ghost use Rattle.octet_replay.specs.NextSteps.{as_next};
ghost use Rattle.octet_replay.specs.Threads.{next_event};
ghost use Rattle.octet_replay.specs.declared.stepped.Stepped.TheVariants.{Made};

pub(crate) mod replay;

use crate::ending::end;
use crate::replayer::replay::Replay;
use crate::{LowestStep, ReplayFault, Stepped};
use octet_model::{Event, Log, Outcome, Script};
use std::alloc::Global;
use std::marker::Model;

/// A replay of a log in the lowest order, step by step: always the lowest thread steps that may.
/// Seen as the script, the log, which its caller lends, and how many steps were made.
#[derive(Drop)]
pub struct Replayer<'a> {
    replay: Replay,
    log: &'a Log,
}

impl<'a> Model for Replayer<'a> {
    ghost use Rattle.octet_replay.specs.ReplayState.{ReplayState};

    ghost Value = { ReplayState };

    ghost use Rattle.std.specs.Prelude.{◌≡◌};
    ghost use Rattle.octet_replay.specs.Replayed.{state_of, IsAt};

    ghost view = { λ r. state_of r.replay };

    ghost invariant = { λ r. IsAt r.replay × (r.log.now ≡ r.replay.log.value) };
}

impl<'a> Replayer<'a> {
    /// Before the first step. Copies what it needs of the script, and takes the room for all values
    /// that can be read. Refuses a log that has not as many threads as the script.
    pub fn new(alloc: Global, script: &Script, log: &'a Log) -> Result<Replayer<'a>, ReplayFault>
        ensures opens { IfOk result (λ replayer. replayer ≡ record { script = script.now; log = log.now; steps = 0 }) }
        ensures agree { IfOk result (λ _. length script.now.threads ≡ length log.now.threads) }
        ensures refused { IfErr result (IsNotBegun script.now log.now.threads) }
    {
        Ok(Replayer {
            replay: Replay::new(alloc, script, log)?,
            log,
        })
    }

    /// Makes the next step of the lowest order, and gives its event. Where no thread may step
    /// nothing changes. Takes no memory.
    #[inline(always)]
    pub fn step(&mut self) -> Stepped
        ensures { StepsTo self.old result self.new }
    {
        self.replay.step(self.log)
    }

    /// The next step of the lowest order, if a thread may step. Takes no memory.
    #[inline(always)]
    pub fn lowest_step(&self) -> Option<LowestStep>
        ensures some { IfSome result (IsLowestStep self.now) }
        ensures none { IsNone result → HasHalted self.now }
    {
        self.replay.lowest_step(self.log)
    }

    /// Makes the next step of the lowest order, and gives its event and the step after it. Who makes
    /// all steps is quicker with this than with `step`, since what is next for a thread is found
    /// once. Takes no memory.
    #[inline(always)]
    pub fn make(&mut self, step: LowestStep) -> (Event, Option<LowestStep>)
        requires { IsLowestStep self.old step }
        ensures steps { StepsTo self.old (Made step.thread result.0) self.new }
        ensures event { next_event (as_next step.next) (plain_state self.old).heap ≡ Some result.0 }
        ensures some { IfSome result.1 (IsLowestStep self.new) }
        ensures none { IsNone result.1 → HasHalted self.new }
    {
        self.replay.make_lowest(step, self.log)
    }

    /// The thread that makes the next step of the lowest order. Takes no memory.
    #[inline(always)]
    pub fn next_thread(&self) -> Option<u8>
        ensures some { IfSome result (IsNextThread self.now) }
        ensures none { IsNone result → HasHalted self.now }
    {
        self.replay.next_thread()
    }

    /// How many `region` commands a thread runs before its next access, or before its end where it
    /// makes none more. Takes no memory.
    #[inline(always)]
    pub fn regions(&self, thread: u8) -> u32
        requires { thread < length self.now.script.threads }
        ensures regions { result ≡ regions_of self.now thread }
        ensures few { result ≤ MAX_FUEL }
    {
        self.replay.regions(thread)
    }

    /// Steps on until no thread may step. Takes no memory.
    pub fn run(&mut self)
        ensures halted { HasHalted self.new }
        ensures script { self.new.script ≡ self.old.script }
        ensures log { self.new.log ≡ self.old.log }
    {
        self.replay.run(self.log);
    }

    /// What the lowest order comes to, at its end: the outcome where it is lawful, else why not.
    pub fn end(self, alloc: Global) -> Result<Outcome, ReplayFault>
        requires { HasHalted self }
        ensures lawful { IfOk result (λ _. IsLawful self.entry.script self.entry.log.threads) }
        ensures outcome { IfOk result (λ outcome. outcome ≡ execution self.entry.script self.entry.log.threads (lowest_order self.entry.script self.entry.log.threads)) }
        ensures refused { IfErr result (HasCause self.entry.script self.entry.log.threads) }
    {
        end(alloc, self.replay, self.log)
    }
}
