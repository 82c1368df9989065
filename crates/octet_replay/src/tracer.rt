//! A replay that tells each event with its place.
ghost use Rattle.std.specs.Prelude.{◌≡◌, length, IfOk, IfErr};
ghost use Rattle.octet_model.specs.Orders.{execution, lowest_order};
ghost use Rattle.octet_replay.specs.Judged.{HasCause, IsLawful};
ghost use Rattle.octet_replay.specs.ReplayState.{IsNotBegun};
ghost use Rattle.octet_replay.specs.TracerState.{TellsNext};

use crate::{ReplayFault, Replayer, Stepped};
use octet_model::{Event, Log, MAX_THREADS, Outcome, Place, Script};
use std::alloc::Global;
use std::marker::Model;

/// A replay in the lowest order that tells its trace: each event as it is made, with its place.
/// Seen as the script, the log, which its caller lends, and how many events of the trace were told.
#[derive(Drop)]
pub struct Tracer<'a> {
    replayer: Replayer<'a>,
    made: [u32; MAX_THREADS],
}

impl<'a> Model for Tracer<'a> {
    ghost use Rattle.octet_replay.specs.TracerState.{TracerState, IsTracedTo};

    ghost Value = { TracerState };

    ghost view = { λ t. record { script = t.replayer.script; log = t.replayer.log; told = t.replayer.steps } };

    ghost invariant = { λ t. IsTracedTo t.replayer t.made };
}

impl<'a> Tracer<'a> {
    /// Before the first event. Copies what it needs of the script, and takes the room for all values
    /// that can be read. Refuses a log that has not as many threads as the script.
    pub fn new(alloc: Global, script: &Script, log: &'a Log) -> Result<Tracer<'a>, ReplayFault>
        ensures begins { IfOk result (λ tracer. tracer ≡ record { script = script.now; log = log.now; told = 0 }) }
        ensures agree { IfOk result (λ _. length script.now.threads ≡ length log.now.threads) }
        ensures refused { IfErr result (IsNotBegun script.now log.now.threads) }
    {
        let replayer = Replayer::new(alloc, script, log)?;
        Ok(Tracer {
            replayer,
            made: [0; MAX_THREADS],
        })
    }

    /// Makes the next step of the lowest order, and tells its event with its place among the events
    /// of its thread. None where no thread may step: then nothing changes. Takes no memory.
    pub fn next(&mut self) -> Option<(Place, Event)>
        ensures { TellsNext self.old result self.new }
    {
        let Stepped::Made { thread, event } = self.replayer.step() else {
            return None;
        };
        let made = self.made[thread as usize];
        self.made[thread as usize] = made + 1;
        let place = Place {
            thread,
            event: made,
        };
        Some((place, event))
    }

    /// Steps on to the end of the lowest order, and answers what it comes to: the outcome where
    /// it is lawful, else why not.
    pub fn end(mut self, alloc: Global) -> Result<Outcome, ReplayFault>
        ensures lawful { IfOk result (λ _. IsLawful self.entry.script self.entry.log.threads) }
        ensures outcome { IfOk result (λ outcome. outcome ≡ execution self.entry.script self.entry.log.threads (lowest_order self.entry.script self.entry.log.threads)) }
        ensures refused { IfErr result (HasCause self.entry.script self.entry.log.threads) }
    {
        self.replayer.run();
        self.replayer.end(alloc)
    }
}
