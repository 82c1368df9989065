//! What a replay comes to at the end of the lowest order.
ghost use Rattle.std.specs.Prelude.{◌≡◌, length, map, IfOk, IfErr};
ghost use Rattle.octet_model.specs.Orders.{execution, lowest_order};
ghost use Rattle.octet_replay.specs.Judged.{HasCause, IsLawful};
ghost use Rattle.octet_replay.specs.Replayed.{state_of, IsAt};
ghost use Rattle.octet_replay.specs.ReplayState.{HasHalted};
ghost use Rattle.octet_replay.specs.Threads.{end_told, values_of};

use crate::ReplayFault;
use crate::judge::{are_finished, lowest_misfit, positions_of};
use crate::replayer::replay::Replay;
use crate::thread::ThreadReplay;
use octet_model::{End, List, Log, OutOfMemory, Outcome};
use std::alloc::Global;

fn ends_of(alloc: Global, threads: &[ThreadReplay]) -> Result<List<End>, OutOfMemory>
    ensures { IfOk result (λ ends. ends ≡ map end_told threads.now) }
{
    let mut ends = List::new(alloc);
    for thread in threads {
        ends.push(thread.end())?;
    }
    Ok(ends)
}

// The values that each thread read.
fn reads_of(alloc: Global, threads: Vec<ThreadReplay>) -> Result<List<List<u64>>, OutOfMemory>
    ensures { IfOk result (λ reads. reads ≡ map values_of threads.items) }
{
    let mut reads = List::new(alloc);
    for thread in threads {
        reads.push(List::from_vec(thread.into_reads()))?;
    }
    Ok(reads)
}

// Why the lowest order is not lawful, if it is not.
fn refusal(alloc: Global, replay: &Replay, log: &Log) -> Result<(), ReplayFault>
    requires at { IsAt replay.now }
    requires of_log { log.now ≡ replay.now.log.value }
    requires halted { HasHalted (state_of replay.now) }
    ensures lawful { IfOk result (λ _. IsLawful replay.now.script.value replay.now.log.value.threads) }
    ensures refused { IfErr result (HasCause replay.now.script.value replay.now.log.value.threads) }
{
    let threads = replay.threads.as_slice();
    let logs = log.threads.as_slice();
    if let Some(fault) = lowest_misfit(threads, logs) {
        return Err(fault);
    }
    if !are_finished(threads, logs) {
        let positions = positions_of(alloc, threads)?;
        return Err(ReplayFault::Stuck { positions });
    }
    Ok(())
}

/// The outcome of a lawful lowest order, or why it is not lawful.
pub(crate) fn end(alloc: Global, replay: Replay, log: &Log) -> Result<Outcome, ReplayFault>
    requires at { IsAt replay }
    requires of_log { log.now ≡ replay.log.value }
    requires halted { HasHalted (state_of replay) }
    ensures lawful { IfOk result (λ _. IsLawful replay.script.value replay.log.value.threads) }
    ensures outcome { IfOk result (λ outcome. outcome ≡ execution replay.script.value replay.log.value.threads (lowest_order replay.script.value replay.log.value.threads)) }
    ensures refused { IfErr result (HasCause replay.script.value replay.log.value.threads) }
{
    refusal(alloc, &replay, log)?;
    let ends = ends_of(alloc, replay.threads.as_slice())?;
    Ok(Outcome {
        ends,
        reads: reads_of(alloc, replay.threads)?,
        heap: List::from_vec(replay.heap),
    })
}
