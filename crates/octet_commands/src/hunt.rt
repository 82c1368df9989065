//! The commands `hunt SCRIPT LOG NAME NUMBER TRIES` and `hunt SCRIPT LOG TRIES`.
ghost use Rattle.std.specs.Prelude.{◌≡◌, ◌<◌, ◌≤◌, ◌++◌, Ok, length, IfOk, IfSome};
ghost use Rattle.octet_hunt.specs.Hunts.{IsAimAt, Meets};
ghost use Rattle.octet_commands.specs.Answer.{answer_of, try_text};
ghost use Rattle.octet_commands.specs.Commands.{aim_of, found_said, none_found, HuntAnswers, IsFind};
ghost use Rattle.octet_commands.specs.Inputs.{IsChosen};
ghost use Rattle.octet_commands.specs.Request.{named_by, shown_quarry};

use crate::convert::write_log;
use crate::inputs::Source;
use crate::regions::cycle_text;
use crate::reply::{Reply, Status};
use crate::request::Quarry;
use octet_hunt::{Aim, Find};
use octet_model::{OutOfMemory, outcome_text};
use std::alloc::Global;

// What is looked for, at the object that is wanted.
#[tactic(auto, using(crate::proofs::answering::Hunted::wanted_is_there, crate::proofs::answering::Hunted::few_objects))]
fn aim_of(source: &Source, wanted: Option<usize>, quarry: Quarry<&str>) -> Aim
    requires { IsChosen source.now.script (named_by (shown_quarry quarry)) (Ok wanted) }
    ensures aim { result ≡ aim_of (shown_quarry quarry.entry) wanted }
    ensures object { IsAimAt (length source.now.script.objects) result }
{
    match (quarry, wanted) {
        (Quarry::OtherEnd { number, .. }, Some(place)) => Aim::OtherValue {
            object: place as u16,
            number,
        },
        _ => Aim::Cycle,
    }
}

/// Runs the script by many schedules. The log of a run that is looked for is written in version 2,
/// and at which try it was found, how often a thread is stopped in it, and its outcome or its cycle
/// are said.
pub(crate) fn hunt(
    alloc: Global,
    source: &Source,
    wanted: Option<usize>,
    quarry: Quarry<&str>,
    tries: u32,
    log_name: &str,
) -> Result<Reply, OutOfMemory>
    requires { IsChosen source.now.script (named_by (shown_quarry quarry)) (Ok wanted) }
    ensures { IfOk result (λ reply. HuntAnswers (shown_quarry quarry.entry) log_name.now tries (source.now, wanted) (answer_of reply)) }
{
    let aim = aim_of(source, wanted, quarry);
    match octet_hunt::hunt(alloc, &source.script, aim, tries)? {
        Some(find) => say_find(alloc, source, wanted, quarry, tries, &find, log_name),
        None => say_none(alloc, quarry, tries),
    }
}

fn say_find(
    alloc: Global,
    source: &Source,
    wanted: Option<usize>,
    quarry: Quarry<&str>,
    tries: u32,
    find: &Find,
    log_name: &str,
) -> Result<Reply, OutOfMemory>
    requires meets { Meets source.now.script (aim_of (shown_quarry quarry) wanted) find.now.recorded find.now.hops }
    requires first { 0 < find.now.attempt }
    requires last { find.now.attempt ≤ tries }
    ensures { IfOk result (λ reply. IsFind (shown_quarry quarry.entry) log_name.now tries source.now wanted (answer_of reply)) }
{
    let text = find_text(alloc, source, wanted, quarry, find)?;
    let log = &find.recorded.log;
    write_log(alloc, source, log, Status::Done, log_name, text)
}

fn find_text(
    alloc: Global,
    source: &Source,
    wanted: Option<usize>,
    quarry: Quarry<&str>,
    find: &Find,
) -> Result<Vec<u8>, OutOfMemory>
    requires meets { Meets source.now.script (aim_of (shown_quarry quarry) wanted) find.now.recorded find.now.hops }
    ensures { IfOk result (λ text. text.items ≡ try_text find.now.attempt find.now.preemptions ++ found_said (shown_quarry quarry.entry) source.now.script find.now.recorded.outcome find.now.hops) }
{
    let line = format!(in alloc; "try {}\npreemptions {}\n", find.attempt, find.preemptions)?;
    let found = found_text(alloc, source, wanted, quarry, find)?;
    let mut text = line.into_bytes();
    text.extend_from_slice(found.as_slice())?;
    Ok(text)
}

// The outcome of the run that was found, or its cycle.
fn found_text(
    alloc: Global,
    source: &Source,
    wanted: Option<usize>,
    quarry: Quarry<&str>,
    find: &Find,
) -> Result<Vec<u8>, OutOfMemory>
    requires meets { Meets source.now.script (aim_of (shown_quarry quarry) wanted) find.now.recorded find.now.hops }
    ensures { IfOk result (λ text. text.items ≡ found_said (shown_quarry quarry.entry) source.now.script find.now.recorded.outcome find.now.hops) }
{
    match quarry {
        Quarry::OtherEnd { .. } => outcome_text(alloc, &source.script, &find.recorded.outcome),
        Quarry::AnyCycle => cycle_text(alloc, find.hops.as_slice()),
    }
}

fn say_none(alloc: Global, quarry: Quarry<&str>, tries: u32) -> Result<Reply, OutOfMemory>
    ensures { IfOk result (λ reply. answer_of reply ≡ none_found (shown_quarry quarry.entry) tries) }
{
    let line = match quarry {
        Quarry::OtherEnd { .. } => format!(in alloc; "no other end in {tries} tries\n")?,
        Quarry::AnyCycle => format!(in alloc; "serial in {tries} tries\n")?,
    };
    Ok(Reply::saying(alloc, Status::NotFound, line.into_bytes()))
}
