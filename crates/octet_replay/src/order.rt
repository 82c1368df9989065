//! Replay in the lowest order.
ghost use Rattle.std.specs.Prelude.{◌≡◌, [], replicate, length, IfOk, IfErr, OnOk};
ghost use Rattle.octet_model.specs.Orders.{execution, journals_after, lowest_order};
ghost use Rattle.octet_replay.specs.Judged.{HasCause, IsLawful};
ghost use Rattle.octet_replay.specs.Places.{FitInPlaces};
ghost use Rattle.octet_replay.specs.ReplayState.{HasHalted, plain_state};

use crate::ending::end;
use crate::replayer::replay::Replay;
use crate::{ReplayFault, Replayer, Stepped};
use octet_model::{Event, List, Log, OutOfMemory, Outcome, Script};
use std::alloc::Global;

/// Replays a log in the lowest order, and answers what it comes to where that order is lawful:
/// each thread's end, the values that it read, and the objects' final values. Takes time in
/// proportion to the script, the commands that are run and the log's events.
pub fn replay(alloc: Global, script: &Script, log: &Log) -> Result<Outcome, ReplayFault>
    ensures lawful { IfOk result (λ _. IsLawful script.now log.now.threads) }
    ensures outcome { IfOk result (λ outcome. outcome ≡ execution script.now log.now.threads (lowest_order script.now log.now.threads)) }
    ensures refused { IfErr result (HasCause script.now log.now.threads) }
{
    let mut replay = Replay::new(alloc, script, log)?;
    replay.run(log);
    end(alloc, replay, log)
}

// An empty journal for each thread.
fn empty_journals(alloc: Global, threads: usize) -> Result<Vec<List<Event>>, OutOfMemory>
    ensures { IfOk result (λ journals. journals.items ≡ replicate threads []) }
{
    let mut journals = Vec::new(alloc);
    for _ in 0..threads {
        journals.push(List::new(alloc))?;
    }
    Ok(journals)
}

// Steps to the end of the lowest order, and keeps the events.
fn collect(
    alloc: Global,
    replayer: &mut Replayer<'_>,
    threads: usize,
) -> Result<List<List<Event>>, OutOfMemory>
    requires begins { replayer.old.steps ≡ 0 }
    requires threads { threads ≡ length replayer.old.script.threads }
    ensures halted { OnOk result (HasHalted replayer.new) }
    ensures same { OnOk result ((replayer.new.script ≡ replayer.old.script) × (replayer.new.log ≡ replayer.old.log)) }
    ensures journals { IfOk result (λ journals. journals ≡ (plain_state replayer.new).journals) }
{
    let mut journals = empty_journals(alloc, threads)?;
    while let Stepped::Made { thread, event } = replayer.step() {
        journals[thread as usize].push(event)?;
    }
    Ok(List::from_vec(journals))
}

/// Replays a log in the lowest order, and answers the threads' journals where that order is
/// lawful, with the values that were read. Refuses as `replay` does.
pub fn journals(alloc: Global, script: &Script, log: &Log) -> Result<List<List<Event>>, ReplayFault>
    ensures lawful { IfOk result (λ _. IsLawful script.now log.now.threads) }
    ensures journals { IfOk result (λ journals. journals ≡ journals_after script.now log.now.threads (lowest_order script.now log.now.threads)) }
    ensures places { IfOk result FitInPlaces }
    ensures refused { IfErr result (HasCause script.now log.now.threads) }
{
    let mut replayer = Replayer::new(alloc, script, log)?;
    let journals = collect(alloc, &mut replayer, script.threads.len())?;
    replayer.end(alloc)?;
    Ok(journals)
}
