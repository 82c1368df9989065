//! `trace SCRIPT LOG`: the events of the log's lowest order, each with its place, and with the
//! script's line whose command made it.
ghost use Rattle.std.specs.Prelude.{◌≡◌, ◌++◌, ℕ, List, IfOk, OnOk};
ghost use Rattle.octet_model.specs.Machine.{no_events};
ghost use Rattle.octet_model.specs.Traces.{trace_of};
ghost use Rattle.octet_replay.specs.Line.{fit_line};
ghost use Rattle.octet_commands.specs.declared.reply.Status.TheVariants.{Misfit};
ghost use Rattle.octet_commands.specs.declared.request.PairTask.TheVariants.{Trace};
ghost use Rattle.octet_commands.specs.Answer.{answer_of, says, IsAnswered};
ghost use Rattle.octet_commands.specs.Commands.{PairReplays};
ghost use Rattle.octet_commands.specs.TraceTexts.{line_in, line_words, made_by, trace_text};
ghost use Rattle.octet_commands.specs.Tracing.{AreFollowers, FitsNext, TellsEvent, TellsRegions};

use crate::event_text::{push_event, push_place};
use crate::inputs::{Pair, Source};
use crate::refusal::{Refused, does_not_fit};
use crate::reply::{Reply, Status};
use octet_interp::Follower;
use octet_model::{Event, List, OutOfMemory, Place, Script, push_number};
use octet_replay::{ReplayFault, Tracer, fit_line};
use octet_script::command_lines;
use std::alloc::Global;

/// Each event of the log's lowest order is said, as far as that goes; and then, where the log does
/// not fit, why.
#[tactic(auto, using(crate::proofs::answering::Tracing::not_begun, crate::proofs::answering::Tracing::made_first))]
pub(crate) fn trace(alloc: Global, pair: &Pair) -> Result<Reply, Refused>
    ensures { IsAnswered (PairReplays Trace pair.now) result }
{
    let source = &pair.source;
    let mut tracer = match Tracer::new(alloc, &source.script, &pair.loaded.log) {
        Ok(tracer) => tracer,
        Err(ReplayFault::OutOfMemory) => return Err(Refused::OutOfMemory),
        Err(fault) => return Err(Refused::Because(does_not_fit(alloc, &fault)?)),
    };
    let text = trace_text(alloc, source, &mut tracer)?;
    match tracer.end(alloc) {
        Ok(_) => Ok(Reply::saying(alloc, Status::Done, text)),
        Err(ReplayFault::OutOfMemory) => Err(Refused::OutOfMemory),
        Err(fault) => Err(Refused::Because(say_misfit(alloc, text, &fault)?)),
    }
}

// Tells all events that are left.
fn trace_text(
    alloc: Global,
    source: &Source,
    tracer: &mut Tracer<'_>,
) -> Result<Vec<u8>, OutOfMemory>
    requires begins { tracer.old.told ≡ 0 }
    requires of_script { tracer.old.script ≡ source.now.script }
    ensures text { IfOk result (λ text. text.items ≡ trace_text source.now.text source.now.script (trace_of tracer.old.script tracer.old.log.threads)) }
    ensures script { tracer.new.script ≡ tracer.old.script }
    ensures log { tracer.new.log ≡ tracer.old.log }
{
    let script = &source.script;
    let lines = command_lines(alloc, source.text.as_slice())?;
    let mut followers = followers(alloc, script)?;
    let mut text = Vec::new(alloc);
    while let Some((place, event)) = tracer.next() {
        let follower = &mut followers[place.thread as usize];
        push_lines(&mut text, script, lines.as_slice(), follower, place, event)?;
    }
    Ok(text)
}

// A follower of each thread, at its start.
fn followers(alloc: Global, script: &Script) -> Result<Vec<Follower<'_>>, OutOfMemory>
    ensures { IfOk result (λ followers. AreFollowers script.now (no_events script.now.threads) followers.items) }
{
    let mut followers = Vec::new(alloc);
    for thread in 0..script.threads.len() {
        followers.push(Follower::new(alloc, script, thread as u8)?)?;
    }
    Ok(followers)
}

// Tells an event, and before it the `region` commands that its thread ran since its last access.
fn push_lines(
    out: &mut Vec<u8>,
    script: &Script,
    lines: &[List<usize>],
    follower: &mut Follower<'_>,
    place: Place,
    event: Event,
) -> Result<(), OutOfMemory>
    requires { FitsNext event follower.old }
    ensures told { OnOk result ((told : List ℕ) × (out.new.items ≡ out.old.items ++ told) × TellsEvent lines.now script.now (place, event) follower.old told follower.new) }
    ensures commands { OnOk result (follower.new.commands ≡ follower.old.commands) }
{
    push_regions(out, lines, follower, place)?;
    push_place(out, u64::from(place.thread), u64::from(place.event))?;
    out.extend_from_slice(b" ")?;
    push_event(out, script, event)?;
    let line = line_in(lines, place.thread, follower.place());
    push_made_by(out, line, event)?;
    out.extend_from_slice(b"\n")?;
    follower.follow(event);
    Ok(())
}

// Tells the `region` commands that a thread runs before its next access.
fn push_regions(
    out: &mut Vec<u8>,
    lines: &[List<usize>],
    follower: &mut Follower<'_>,
    place: Place,
) -> Result<(), OutOfMemory>
    ensures { OnOk result ((told : List ℕ) × (out.new.items ≡ out.old.items ++ told) × TellsRegions lines.now place follower.old told follower.new) }
{
    while let Some(command) = follower.next_region() {
        push_place(out, u64::from(place.thread), u64::from(place.event))?;
        out.extend_from_slice(b" region ")?;
        push_number(out, u64::from(follower.regions()))?;
        push_line(out, line_in(lines, place.thread, command))?;
        out.extend_from_slice(b"\n")?;
    }
    Ok(())
}

// The script's line of a thread's command.
fn line_in(lines: &[List<usize>], thread: u8, command: usize) -> usize
    ensures { result ≡ line_in lines.now thread command }
{
    match lines.get(thread as usize) {
        Some(of_thread) => match of_thread.get(command) {
            Some(line) => *line,
            None => 0,
        },
        None => 0,
    }
}

fn push_line(out: &mut Vec<u8>, line: usize) -> Result<(), OutOfMemory>
    ensures { OnOk result (out.new.items ≡ out.old.items ++ line_words line) }
{
    out.extend_from_slice(b" line ")?;
    push_number(out, line as u64)
}

fn push_made_by(out: &mut Vec<u8>, line: usize, event: Event) -> Result<(), OutOfMemory>
    ensures { OnOk result (out.new.items ≡ out.old.items ++ made_by line event) }
{
    if event.is_access() {
        push_line(out, line)?;
    }
    Ok(())
}

fn say_misfit(alloc: Global, told: Vec<u8>, fault: &ReplayFault) -> Result<Reply, OutOfMemory>
    ensures { IfOk result (λ reply. answer_of reply ≡ says Misfit (told.items ++ fit_line fault.now)) }
{
    let mut text = told;
    let line = fit_line(alloc, fault)?;
    text.extend_from_slice(line.as_slice())?;
    Ok(Reply::saying(alloc, Status::Misfit, text))
}
