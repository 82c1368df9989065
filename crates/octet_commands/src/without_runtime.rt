//! Requests that need no runtime: from the files to a reply, before any of it is written or said.
ghost use Rattle.std.specs.Prelude.{◌≡◌, None, Some};
ghost use Rattle.std.specs.Option.{option_map};
ghost use Rattle.octet_commands.specs.Request.{texts, shown, if_alone, shown_claim, shown_quarry, alone_in, name_in, reading_in};
ghost use Rattle.octet_commands.specs.declared.request.Request.TheVariants.{Tidy, Show, OfPair, Convert, Hunt, Outcomes, Always};
ghost use Rattle.octet_commands.specs.Commands.{PairReplays};
ghost use Rattle.octet_commands.specs.Replies.{Replies};
ghost use Rattle.octet_commands.specs.Answer.{IsAnswered, given_reply};
ghost use Rattle.octet_commands.specs.Serving.{IsReplied};

use crate::always::always;
use crate::commands::{replay, show, tidy, verify};
use crate::convert::convert;
use crate::giving::deliver;
use crate::hunt::hunt;
use crate::inputs::{Pair, read_chosen, read_fitting, read_log, read_script};
use crate::outcomes::outcomes;
use crate::profile::profile;
use crate::refusal::{Refused, not_a_command};
use crate::regions::regions;
use crate::reply::Reply;
use crate::request::{Claim, PairTask, Quarry, Request, request_of};
use crate::slice::slice;
use crate::stop::stop;
use crate::trace::trace;
use octet_base::Desk;
use std::alloc::Global;

fn replay_pair(alloc: Global, task: PairTask, pair: &Pair) -> Result<Reply, Refused>
    ensures { IsAnswered (PairReplays task pair.now) result }
{
    match task {
        PairTask::Replay => replay(alloc, pair),
        PairTask::Verify => verify(alloc, pair),
        PairTask::Regions => regions(alloc, pair),
        PairTask::Slice { thread, event } => slice(alloc, pair, thread, event),
        PairTask::Stop { value } => stop(alloc, pair, value),
        PairTask::Trace => trace(alloc, pair),
        PairTask::Profile => profile(alloc, pair),
    }
}

#[tactic(auto, using(crate::proofs::lemmas::Found::script_stops))]
fn of_script<D: Desk>(alloc: Global, desk: &mut D, script: &str) -> Result<Reply, Refused>
    ensures { Replies (Some (Tidy script.now)) (D.state desk.old) (given_reply result) (D.state desk.new) }
{
    let source = read_script(alloc, desk, script)?;
    Ok(tidy(alloc, &source)?)
}

#[tactic(auto, using(crate::proofs::lemmas::Found::log_stops))]
fn of_log<D: Desk>(alloc: Global, desk: &mut D, log: &str) -> Result<Reply, Refused>
    ensures { Replies (Some (Show log.now)) (D.state desk.old) (given_reply result) (D.state desk.new) }
{
    let loaded = read_log(alloc, desk, log)?;
    Ok(show(alloc, &loaded)?)
}

fn of_pair<D: Desk>(
    alloc: Global,
    desk: &mut D,
    task: PairTask,
    script: &str,
    log: &str,
    object: Option<&str>,
) -> Result<Reply, Refused>
    ensures { Replies (Some (OfPair task script.now log.now (name_in object.entry))) (D.state desk.old) (given_reply result) (D.state desk.new) }
{
    let pair = read_fitting(alloc, desk, script, log, object)?;
    replay_pair(alloc, task, &pair)
}

fn of_conversion<D: Desk>(
    alloc: Global,
    desk: &mut D,
    script: &str,
    log: &str,
    out: &str,
) -> Result<Reply, Refused>
    ensures { Replies (Some (Convert script.now log.now out.now)) (D.state desk.old) (given_reply result) (D.state desk.new) }
{
    let pair = read_fitting(alloc, desk, script, log, None)?;
    convert(alloc, &pair, out)
}

#[tactic(auto, using(crate::proofs::lemmas::Found::hunt_stops))]
fn of_hunt<D: Desk>(
    alloc: Global,
    desk: &mut D,
    quarry: Quarry<&str>,
    script: &str,
    log: &str,
    tries: u32,
) -> Result<Reply, Refused>
    ensures { Replies (Some (Hunt (shown_quarry quarry.entry) script.now log.now tries)) (D.state desk.old) (given_reply result) (D.state desk.new) }
{
    let (source, wanted) = read_chosen(alloc, desk, script, quarry.name())?;
    Ok(hunt(alloc, &source, wanted, quarry, tries, log)?)
}

#[tactic(auto, using(crate::proofs::lemmas::Found::outcomes_stop))]
fn of_outcomes<D: Desk>(
    alloc: Global,
    desk: &mut D,
    script: &str,
    most: u64,
) -> Result<Reply, Refused>
    ensures { Replies (Some (Outcomes script.now most)) (D.state desk.old) (given_reply result) (D.state desk.new) }
{
    let source = read_script(alloc, desk, script)?;
    Ok(outcomes(alloc, &source.script, most)?)
}

#[tactic(auto, using(crate::proofs::lemmas::Found::always_stops))]
fn of_always<D: Desk>(
    alloc: Global,
    desk: &mut D,
    claim: Claim<&str>,
    script: &str,
    log: &str,
    most: u64,
) -> Result<Reply, Refused>
    ensures { Replies (Some (Always (shown_claim claim.entry) script.now log.now most)) (D.state desk.old) (given_reply result) (D.state desk.new) }
{
    let (source, wanted) = read_chosen(alloc, desk, script, claim.name())?;
    Ok(always(alloc, &source, wanted, claim, most, log)?)
}

/// The reply to a request that needs no runtime; to another, that it is no command.
fn reply_to<D: Desk>(alloc: Global, desk: &mut D, request: Request<&str>) -> Result<Reply, Refused>
    ensures { Replies (if_alone (shown request.entry)) (D.state desk.old) (given_reply result) (D.state desk.new) }
{
    match request {
        Request::Tidy { script } => of_script(alloc, desk, script),
        Request::Show { log } => of_log(alloc, desk, log),
        Request::OfPair {
            task,
            script,
            log,
            object,
        } => of_pair(alloc, desk, task, script, log, object),
        Request::Convert { script, log, out } => of_conversion(alloc, desk, script, log, out),
        Request::Hunt {
            quarry,
            script,
            log,
            tries,
        } => of_hunt(alloc, desk, quarry, script, log, tries),
        Request::Outcomes { script, most } => of_outcomes(alloc, desk, script, most),
        Request::Always {
            claim,
            script,
            log,
            most,
        } => of_always(alloc, desk, claim, script, log, most),
        _ => Err(Refused::Because(not_a_command(alloc)?)),
    }
}

/// The reply to what words ask for, where that needs no runtime: its files are taken, and nothing is
/// written or said yet. To all other words it is that they are no command.
pub fn reply_alone<D: Desk>(
    alloc: Global,
    desk: &mut D,
    request: Option<Request<&str>>,
) -> Result<Reply, Refused>
    ensures { Replies (alone_in (option_map shown request.entry)) (D.state desk.old) (given_reply result) (D.state desk.new) }
{
    match request {
        Some(request) => reply_to(alloc, desk, request),
        None => Err(Refused::Because(not_a_command(alloc)?)),
    }
}

/// Serves words that run no script, on the calling thread alone: it waits for nobody, and so it
/// returns. To all other words it says that they are no command.
pub fn serve_alone<D: Desk>(alloc: Global, words: &[String], desk: &mut D) -> u8
    requires { (D.state desk.old).begun ≡ None }
    ensures { IsReplied (reading_in (texts words.now)) (D.state desk.old) (D.state desk.new) result }
{
    let reply = reply_alone(alloc, desk, request_of(words));
    deliver(alloc, desk, reply)
}
