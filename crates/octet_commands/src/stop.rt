//! The command `stop SCRIPT LOG NAME NUMBER`.
ghost use Rattle.std.specs.Prelude.{◌≡◌, ℕ, Bool, IfOk, IfErr};
ghost use Rattle.octet_model.specs.Traces.{trace_of};
ghost use Rattle.octet_replay.specs.Judged.{HasCause, IsLawful};
ghost use Rattle.octet_slice.specs.FirstMatch.{IsFound};
ghost use Rattle.octet_commands.specs.declared.request.PairTask.TheVariants as task;
ghost use Rattle.octet_commands.specs.Answer.{IsAnswered};
ghost use Rattle.octet_commands.specs.Commands.{PairReplays};
ghost use Rattle.octet_commands.specs.Slices.{is_match, stop_text};

use crate::event_text::{push_event, push_place};
use crate::inputs::Pair;
use crate::refusal::{Refused, does_not_fit};
use crate::reply::{Reply, Status};
use octet_model::{Event, OutOfMemory, Script};
use octet_replay::ReplayFault;
use octet_slice::{Found, first};
use octet_watch::{Stop, Test};
use std::alloc::Global;

/// The first event is said that reads or writes the value of the object that is wanted, or updates
/// it to that value.
pub(crate) fn stop(alloc: Global, pair: &Pair, value: u64) -> Result<Reply, Refused>
    ensures { IsAnswered (PairReplays (task.Stop value) pair.now) result }
{
    let found = match find(alloc, pair, value) {
        Ok(found) => found,
        Err(ReplayFault::OutOfMemory) => return Err(Refused::OutOfMemory),
        Err(fault) => return Err(Refused::Because(does_not_fit(alloc, &fault)?)),
    };
    let text = stop_text(alloc, &pair.source.script, found)?;
    Ok(Reply::saying(alloc, Status::Done, text))
}

fn is_match(wanted: Option<usize>, value: u64, event: &Event) -> bool
    ensures { result ≡ is_match wanted value event.now }
{
    let Some(wanted) = wanted else {
        return false;
    };
    match *event {
        Event::Read {
            object,
            value: read,
        } => usize::from(object) == wanted && read == value,
        Event::Write {
            object,
            value: written,
        } => usize::from(object) == wanted && written == value,
        Event::Update { object, after, .. } => usize::from(object) == wanted && after == value,
        Event::Marked { .. } => false,
    }
}

fn find(alloc: Global, pair: &Pair, value: u64) -> Result<Found, ReplayFault>
    ensures lawful { IfOk result (λ _. IsLawful pair.now.source.script pair.now.loaded.log.threads) }
    ensures found { IfOk result (IsFound (λ event answer. answer ≡ is_match pair.now.wanted value event) (trace_of pair.now.source.script pair.now.loaded.log.threads)) }
    ensures refused { IfErr result (HasCause pair.now.source.script pair.now.loaded.log.threads) }
{
    let wanted = pair.wanted;
    let test: Test = Box::new(alloc, move |event: &Event| is_match(wanted, value, event))?;
    find_with(alloc, pair, value, test)
}

fn find_with(alloc: Global, pair: &Pair, value: u64, test: Test) -> Result<Found, ReplayFault>
    requires callable { Test.IsAlwaysCallable test }
    requires computes { (event : _) (answer : Bool) → Test.post test event answer → answer ≡ is_match pair.now.wanted value event.now }
    ensures lawful { IfOk result (λ _. IsLawful pair.now.source.script pair.now.loaded.log.threads) }
    ensures found { IfOk result (IsFound (λ event answer. answer ≡ is_match pair.now.wanted value event) (trace_of pair.now.source.script pair.now.loaded.log.threads)) }
    ensures refused { IfErr result (HasCause pair.now.source.script pair.now.loaded.log.threads) }
{
    let kept = Stop::new(test);
    first(alloc, &pair.source.script, &pair.loaded.log, &kept)
}

fn stop_text(alloc: Global, script: &Script, found: Found) -> Result<Vec<u8>, OutOfMemory>
    ensures { IfOk result (λ text. text.items ≡ stop_text script.now found) }
{
    let mut out = Vec::new(alloc);
    match found {
        Found::At { place, event } => {
            out.extend_from_slice(b"stop ")?;
            push_place(&mut out, u64::from(place.thread), u64::from(place.event))?;
            out.extend_from_slice(b" ")?;
            push_event(&mut out, script, event)?;
            out.extend_from_slice(b"\n")?;
        }
        Found::Nowhere => out.extend_from_slice(b"no stop\n")?,
    }
    Ok(out)
}
