//! A log that is replayed on threads, and judged by what they made.
ghost use Rattle.std.specs.Prelude.{◌≡◌, ◌≢◌, None, length, IfOk, IfSome, IfNone};
ghost use Rattle.octet_replay.specs.declared.fault.ReplayFault.TheVariants.{OutOfMemory as NoMemory};
ghost use Rattle.octet_clock.specs.declared.verdict.Verdict.TheVariants.{Ordered};
ghost use Rattle.octet_clock.specs.Untied.{IsUntied};
ghost use Rattle.octet_parallel.specs.Apart.{AreApart};
ghost use Rattle.octet_parallel.specs.Judging.{IsJudged};
ghost use Rattle.octet_parallel.specs.Calls.{IsFinishedReplay};

use crate::alone::{are_through, outcome_of, play_alone};
use crate::apart::are_apart;
use crate::crew::Crew;
use crate::field::Field;
use crate::finished::Finished;
use crate::pace::waits_mostly;
use crate::worker::play_all;
use octet_base::Gate;
use octet_clock::{Verdict, Verified, ordered, verify_and_replay};
use octet_model::{List, Log, OutOfMemory, Outcome, Script};
use octet_replay::ReplayFault;
use std::alloc::Global;
use std::sync::Wait;
use std::thread::Threads;

/// Replays a log by a player per thread of the script, and judges it by the journals that these
/// make: the outcome of the lowest order, where that is lawful and has ordered journals, and None
/// where it is not or has not. Each player has a thread of its own while threads are to be had and
/// are of use; some rounds, or all that is left, may be played on one thread. A player that has to
/// wait for another looks again for a while, and then sleeps. Where no thread of the script writes
/// what another one names, each is replayed by itself. Either way each thread passes the gate before
/// each access. Where the gate is open, and most players would wait most of the time, there are none:
/// the log is verified on this thread. May wait: nothing says that the players come to an end.
pub fn parallel<R: Threads + Wait + Sync, G: Gate>(
    rt: &R,
    alloc: Global,
    script: &Script,
    log: &Log,
    gate: &G,
) -> Result<Option<Outcome>, OutOfMemory>
    requires threads { length script.now.threads ≡ length log.now.threads }
    requires untied { IsUntied log.now.threads }
    ensures { IfOk result (λ outcome. IsJudged script.now log.now.threads outcome) }
{
    if are_apart(alloc, script)? {
        return replay_apart(rt, alloc, script, log, gate);
    }
    if gate.is_open() && waits_mostly(alloc, log)? {
        return replay_here(alloc, script, log);
    }
    replay_together(rt, alloc, script, log, gate)
}

// Each thread by itself.
fn replay_apart<R: Threads + Wait + Sync, G: Gate>(
    rt: &R,
    alloc: Global,
    script: &Script,
    log: &Log,
    gate: &G,
) -> Result<Option<Outcome>, OutOfMemory>
    requires threads { length script.now.threads ≡ length log.now.threads }
    requires untied { IsUntied log.now.threads }
    requires apart { AreApart script.now }
    ensures { IfOk result (λ outcome. IsJudged script.now log.now.threads outcome) }
{
    let threads = play_alone(rt, alloc, script, log, gate)?;
    if !are_through(&threads) {
        return Ok(None);
    }
    let outcome = outcome_of(alloc, script, threads)?;
    Ok(Some(outcome))
}

// On this thread, in the lowest order.
fn replay_here(alloc: Global, script: &Script, log: &Log) -> Result<Option<Outcome>, OutOfMemory>
    ensures { IfOk result (λ outcome. IsJudged script.now log.now.threads outcome) }
{
    match verify_and_replay(alloc, script, log) {
        Ok(verified) => Ok(outcome_if_ordered(verified)),
        Err(fault) => none_unless_no_memory(&fault),
    }
}

fn outcome_if_ordered(verified: Verified) -> Option<Outcome>
    ensures some { IfSome result (λ outcome. (verified.verdict ≡ Ordered) × (outcome ≡ verified.outcome)) }
    ensures none { IfNone result (verified.verdict ≢ Ordered) }
{
    match verified.verdict {
        Verdict::Ordered => Some(verified.outcome),
        Verdict::Unordered { .. } => None,
    }
}

fn none_unless_no_memory(fault: &ReplayFault) -> Result<Option<Outcome>, OutOfMemory>
    ensures { IfOk result (λ outcome. (outcome ≡ None) × (fault.now ≢ NoMemory)) }
{
    match fault {
        ReplayFault::OutOfMemory => Err(OutOfMemory),
        _ => Ok(None),
    }
}

// By players that wait for each other.
fn replay_together<R: Threads + Wait + Sync, G: Gate>(
    rt: &R,
    alloc: Global,
    script: &Script,
    log: &Log,
    gate: &G,
) -> Result<Option<Outcome>, OutOfMemory>
    requires threads { length script.now.threads ≡ length log.now.threads }
    requires untied { IsUntied log.now.threads }
    ensures { IfOk result (λ outcome. IsJudged script.now log.now.threads outcome) }
{
    let (field, players) = Field::new(alloc, script, log)?;
    let mut players = players.into_vec();
    let crew = Crew::new(alloc, players.len())?;
    play_all(rt, &field, gate, &crew, players.as_mut_slice());
    match field.close(alloc, List::from_vec(players))? {
        None => Ok(None),
        Some(finished) => judged(alloc, script, log, finished),
    }
}

// The outcome of a finished replay, where its journals are ordered.
fn judged(
    alloc: Global,
    script: &Script,
    log: &Log,
    finished: Finished,
) -> Result<Option<Outcome>, OutOfMemory>
    requires { IsFinishedReplay script.now log.now.threads finished }
    ensures { IfOk result (λ outcome. IsJudged script.now log.now.threads outcome) }
{
    let is_ordered = ordered(alloc, &finished.journals)?;
    if is_ordered {
        return Ok(Some(finished.outcome));
    }
    Ok(None)
}
