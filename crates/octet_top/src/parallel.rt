//! `parallel SCRIPT LOG`: a replay on threads, judged by the journals that they make.
ghost use Rattle.std.specs.Prelude.{◌≡◌, IfOk, IfSome, None, Some};
ghost use Rattle.octet_model.specs.Orders.{execution, lowest_order};
ghost use Rattle.octet_clock.specs.Fronts.{OrdersConflicts};
ghost use Rattle.octet_commands.specs.declared.request.Request.TheVariants.{Parallel};
ghost use Rattle.octet_commands.specs.Commands.{ParallelReplays};
ghost use Rattle.octet_commands.specs.Replies.{Replies};
ghost use Rattle.octet_commands.specs.Answer.{IsAnswered, given_reply};

use octet_base::{Desk, Gate};
use octet_clock::untied;
use octet_commands::{Pair, Refused, Reply, Status, read_fitting, replay_ordered};
use octet_model::{OutOfMemory, Outcome, outcome_text};
use octet_parallel::parallel;
use std::alloc::Global;
use std::sync::Wait;
use std::thread::Threads;

/// Takes and reads a script and a log, replays them on threads, and says the outcome, where the log
/// orders all conflicts.
pub(crate) fn replay_on_threads<R: Threads + Wait + Sync, D: Desk, G: Gate>(
    rt: &R,
    alloc: Global,
    desk: &mut D,
    gate: &G,
    script: &str,
    log: &str,
) -> Result<Reply, Refused>
    ensures { Replies (Some (Parallel script.now log.now)) (D.state desk.old) (given_reply result) (D.state desk.new) }
{
    let pair = read_fitting(alloc, desk, script, log, None)?;
    play_pair(rt, alloc, gate, &pair)
}

/// Where the threads give no outcome, one thread finds out why.
#[tactic(auto, using(octet_commands::proofs::lemmas::Checking::ordered_verified))]
fn play_pair<R: Threads + Wait + Sync, G: Gate>(
    rt: &R,
    alloc: Global,
    gate: &G,
    pair: &Pair,
) -> Result<Reply, Refused>
    ensures { IsAnswered (ParallelReplays pair.now) result }
{
    match outcome_on_threads(rt, alloc, gate, pair)? {
        Some(outcome) => {
            let text = outcome_text(alloc, &pair.source.script, &outcome)?;
            Ok(Reply::saying(alloc, Status::Done, text))
        }
        None => replay_ordered(alloc, pair),
    }
}

/// The outcome of the log's lowest order, where the threads can be started and find that the log
/// orders all conflicts.
fn outcome_on_threads<R: Threads + Wait + Sync, G: Gate>(
    rt: &R,
    alloc: Global,
    gate: &G,
    pair: &Pair,
) -> Result<Option<Outcome>, OutOfMemory>
    ensures ordered { IfOk result (λ outcome. IfSome outcome (λ _. OrdersConflicts pair.now.source.script pair.now.loaded.log.threads)) }
    ensures outcome { IfOk result (λ outcome. IfSome outcome (λ found. found ≡ execution pair.now.source.script pair.now.loaded.log.threads (lowest_order pair.now.source.script pair.now.loaded.log.threads))) }
{
    let script = &pair.source.script;
    let log = &pair.loaded.log;
    if script.threads.len() != log.threads.len() {
        return Ok(None);
    }
    if !untied(alloc, log)? {
        return Ok(None);
    }
    parallel(rt, alloc, script, log, gate)
}
