//! The commands `always SCRIPT LOG NAME NUMBER [MOST]` and `always SCRIPT LOG [MOST]`.
ghost use Rattle.std.specs.Prelude.{ℕ, true, false, ◌≡◌, ◌<◌, Ok, get_or, length, IfOk, IfSome};
ghost use Rattle.std.specs.List.{All};
ghost use Rattle.octet_hunt.specs.Hunts.{EndsOtherwise};
ghost use Rattle.octet_commands.specs.Answer.{answer_of, says};
ghost use Rattle.octet_commands.specs.Commands.{AlwaysAnswers, IsWitness};
ghost use Rattle.octet_commands.specs.Inputs.{IsChosen};
ghost use Rattle.octet_commands.specs.Judging.{IsJudged, IsJudgedBy, OneLeavesOther};
ghost use Rattle.octet_commands.specs.Outcomes.{otherwise_text, AlwaysLeaves, CanAlwaysEnd, IsUnfinished, LeavesOther, Refutes, SomeIsStuck};
ghost use Rattle.octet_commands.specs.Request.{claimed_of, shown_claim};

use crate::convert::write_log;
use crate::inputs::Source;
use crate::outcomes::cut_line;
use crate::reply::{Reply, Status};
use crate::request::Claim;
use octet_hunt::{Aim, Find, are_done, find_by, record_by};
use octet_model::{OutOfMemory, Script, outcome_text};
use octet_outcomes::{Ending, Seen, explore};
use std::alloc::Global;

/// What is known of a claim about every run.
#[derive(Drop)]
pub(crate) enum Judged {
    /// It holds of each.
    Always,
    /// There is a run of which it does not hold; with what was recorded of one, if the script's fuel is
    /// enough.
    Otherwise { find: Option<Find> },
    /// Not all was seen.
    Unsure { seen: Seen },
}

/// Whether the claim holds of every run of the script is said, where all was seen. Else the log of a
/// run of which it does not hold is written in version 2, and its outcome is said.
pub(crate) fn always(
    alloc: Global,
    source: &Source,
    wanted: Option<usize>,
    claim: Claim<&str>,
    most: u64,
    log_name: &str,
) -> Result<Reply, OutOfMemory>
    requires { IsChosen source.now.script (claimed_of (shown_claim claim)) (Ok wanted) }
    ensures { IfOk result (λ reply. AlwaysAnswers (shown_claim claim.entry) log_name.now (source.now, wanted) (answer_of reply)) }
{
    match judge(alloc, &source.script, wanted, claim, most)? {
        Judged::Always => say(alloc, Status::Done, b"always\n"),
        Judged::Unsure { seen } => say(alloc, Status::NotAll, cut_line(seen)),
        Judged::Otherwise { find: None } => {
            say(alloc, Status::Otherwise, b"otherwise past the fuel\n")
        }
        Judged::Otherwise { find: Some(find) } => {
            say_otherwise(alloc, source, wanted, claim, &find, log_name)
        }
    }
}

#[tactic(auto, using(crate::proofs::answering::Hunted::wanted_is_there, crate::proofs::answering::Hunted::few_objects))]
fn judge(
    alloc: Global,
    script: &Script,
    wanted: Option<usize>,
    claim: Claim<&str>,
    most: u64,
) -> Result<Judged, OutOfMemory>
    requires { IsChosen script.now (claimed_of (shown_claim claim)) (Ok wanted) }
    ensures { IfOk result (IsJudged script.now (shown_claim claim.entry) wanted) }
{
    match (claim, wanted) {
        (Claim::Leaves { number, .. }, Some(place)) => {
            judge_leaves(alloc, script, place as u16, number, most)
        }
        (Claim::Leaves { .. }, None) => unreachable!(),
        (Claim::CanEnd, _) => judge_can_end(alloc, script, most),
    }
}

// Whether every run whose threads are all done leaves the number in the object.
fn judge_leaves(
    alloc: Global,
    script: &Script,
    object: u16,
    number: u64,
    most: u64,
) -> Result<Judged, OutOfMemory>
    requires { object < length script.now.objects }
    ensures { IfOk result (IsJudgedBy (AlwaysLeaves script.now object number) ((value : ℕ) × LeavesOther script.now object number value) (EndsOtherwise script.now object number)) }
{
    let found = explore(alloc, script, most as usize)?;
    let endings = found.endings.as_slice();
    if has_other(endings, object, number) {
        let find = find_run(alloc, script, object, number, endings)?;
        return Ok(Judged::Otherwise { find });
    }
    match found.seen {
        Seen::Whole => Ok(Judged::Always),
        seen => Ok(Judged::Unsure { seen }),
    }
}

// Whether every run can go on until all its threads are done.
fn judge_can_end(alloc: Global, script: &Script, most: u64) -> Result<Judged, OutOfMemory>
    ensures { IfOk result (IsJudgedBy (CanAlwaysEnd script.now) (SomeIsStuck script.now) (IsUnfinished script.now)) }
{
    let found = explore(alloc, script, most as usize)?;
    if found.stuck > 0 {
        let find = unfinished_run(alloc, script, found.way.as_slice())?;
        return Ok(Judged::Otherwise { find });
    }
    match found.seen {
        Seen::Whole => Ok(Judged::Always),
        seen => Ok(Judged::Unsure { seen }),
    }
}

fn value_at(heap: &[u64], object: u16) -> u64
    ensures { result ≡ get_or heap.now object 0 }
{
    heap.get(object as usize).copied().unwrap_or(0)
}

// Whether some ending has another value than the number at the object.
fn has_other(endings: &[Ending], object: u16, number: u64) -> bool
    ensures none { result ≡ false → All (λ ending. get_or ending.heap object 0 ≡ number) endings.now }
    ensures some { result ≡ true → OneLeavesOther endings.now object number }
{
    for ending in endings {
        if value_at(ending.heap.as_slice(), object) != number {
            return true;
        }
    }
    false
}

// A run by the way to one of the endings that leaves another value in the object.
fn find_run(
    alloc: Global,
    script: &Script,
    object: u16,
    number: u64,
    endings: &[Ending],
) -> Result<Option<Find>, OutOfMemory>
    requires { object < length script.now.objects }
    ensures { IfOk result (λ found. IfSome found (λ find. EndsOtherwise script.now object number find.recorded)) }
{
    let aim = Aim::OtherValue { object, number };
    for ending in endings {
        if value_at(ending.heap.as_slice(), object) == number {
            continue;
        }
        if let Some(find) = find_by(alloc, script, aim, ending.picks.as_slice())? {
            return Ok(Some(find));
        }
    }
    Ok(None)
}

// The run by this way, if it ends before all its threads are done.
fn unfinished_run(alloc: Global, script: &Script, way: &[u8]) -> Result<Option<Find>, OutOfMemory>
    ensures { IfOk result (λ found. IfSome found (λ find. IsUnfinished script.now find.recorded)) }
{
    let Some(find) = record_by(alloc, script, way)? else {
        return Ok(None);
    };
    if are_done(find.recorded.outcome.ends.as_slice()) {
        return Ok(None);
    }
    Ok(Some(find))
}

fn say(alloc: Global, status: Status, line: &[u8]) -> Result<Reply, OutOfMemory>
    ensures { IfOk result (λ reply. answer_of reply ≡ says status line.now) }
{
    let line = Vec::from_slice(alloc, line)?;
    Ok(Reply::saying(alloc, status, line))
}

fn say_otherwise(
    alloc: Global,
    source: &Source,
    wanted: Option<usize>,
    claim: Claim<&str>,
    find: &Find,
    log_name: &str,
) -> Result<Reply, OutOfMemory>
    requires { Refutes source.now.script (shown_claim claim) wanted find.now.recorded }
    ensures { IfOk result (λ reply. IsWitness (shown_claim claim.entry) log_name.now source.now wanted (answer_of reply)) }
{
    let text = otherwise_text(alloc, source, wanted, claim, find)?;
    let log = &find.recorded.log;
    write_log(alloc, source, log, Status::Otherwise, log_name, text)
}

fn otherwise_text(
    alloc: Global,
    source: &Source,
    wanted: Option<usize>,
    claim: Claim<&str>,
    find: &Find,
) -> Result<Vec<u8>, OutOfMemory>
    requires { Refutes source.now.script (shown_claim claim) wanted find.now.recorded }
    ensures { IfOk result (λ text. text.items ≡ otherwise_text source.now.script find.now.preemptions find.now.recorded.outcome) }
{
    let line = format!(in alloc; "otherwise\npreemptions {}\n", find.preemptions)?;
    let outcome = outcome_text(alloc, &source.script, &find.recorded.outcome)?;
    let mut text = line.into_bytes();
    text.extend_from_slice(outcome.as_slice())?;
    Ok(text)
}
