//! The command `slice SCRIPT LOG T E`.
ghost use Rattle.std.specs.Prelude.{◌≡◌, IfOk};
ghost use Rattle.octet_model.specs.HappensBefore.{IsOrdered};
ghost use Rattle.octet_replay.specs.Judged.{IsLawful};
ghost use Rattle.octet_model.specs.Orders.{journals_after, lowest_order};
ghost use Rattle.octet_slice.specs.declared.slicing.SliceFault.TheVariants as fault;
ghost use Rattle.octet_commands.specs.declared.reply.Status.TheVariants.{NoEvent};
ghost use Rattle.octet_commands.specs.declared.request.PairTask.TheVariants.{Slice};
ghost use Rattle.octet_commands.specs.Answer.{answer_of, says, IsAnswered};
ghost use Rattle.octet_commands.specs.Commands.{PairReplays};
ghost use Rattle.octet_commands.specs.Slices.{SliceSays, slice_line, slice_text};

use crate::commands::check_order;
use crate::event_text::{push_event, push_place};
use crate::inputs::Pair;
use crate::refusal::Refused;
use crate::reply::{Reply, Status};
use octet_model::{OutOfMemory, Script, push_number};
use octet_slice::{SliceFault, Sliced};
use std::alloc::Global;

/// The event at a place is said, and how many events lie in its past, where the log orders all
/// conflicts.
#[tactic(auto, using(crate::proofs::lemmas::Checking::check_refused, crate::proofs::lemmas::Checking::check_passed))]
pub(crate) fn slice(alloc: Global, pair: &Pair, thread: u64, event: u64) -> Result<Reply, Refused>
    ensures { IsAnswered (PairReplays (Slice thread event) pair.now) result }
{
    check_order(alloc, pair)?;
    slice_ordered(alloc, pair, thread, event)
}

fn slice_ordered(alloc: Global, pair: &Pair, thread: u64, event: u64) -> Result<Reply, Refused>
    requires lawful { IsLawful pair.now.source.script pair.now.loaded.log.threads }
    requires ordered { IsOrdered (journals_after pair.now.source.script pair.now.loaded.log.threads (lowest_order pair.now.source.script pair.now.loaded.log.threads)) }
    ensures { IsAnswered (SliceSays pair.now.source.script pair.now.loaded.log.threads thread event) result }
{
    let script = &pair.source.script;
    let sliced = match octet_slice::slice(alloc, script, &pair.loaded.log, thread, event) {
        Ok(sliced) => sliced,
        Err(SliceFault::OutOfMemory) => return Err(Refused::OutOfMemory),
        Err(SliceFault::NoThread { threads }) => {
            return Err(Refused::Because(no_thread(alloc, threads)?));
        }
        Err(SliceFault::NoEvent { events }) => {
            return Err(Refused::Because(no_event(alloc, events)?));
        }
    };
    let text = slice_text(alloc, script, thread, event, sliced)?;
    Ok(Reply::saying(alloc, Status::Done, text))
}

fn no_thread(alloc: Global, threads: u32) -> Result<Reply, OutOfMemory>
    ensures { IfOk result (λ reply. answer_of reply ≡ says NoEvent (slice_line (fault.NoThread threads))) }
{
    let line = format!(in alloc; "slice: threads {threads}\n")?;
    Ok(Reply::saying(alloc, Status::NoEvent, line.into_bytes()))
}

fn no_event(alloc: Global, events: u64) -> Result<Reply, OutOfMemory>
    ensures { IfOk result (λ reply. answer_of reply ≡ says NoEvent (slice_line (fault.NoEvent events))) }
{
    let line = format!(in alloc; "slice: events {events}\n")?;
    Ok(Reply::saying(alloc, Status::NoEvent, line.into_bytes()))
}

fn slice_text(
    alloc: Global,
    script: &Script,
    thread: u64,
    event: u64,
    sliced: Sliced,
) -> Result<Vec<u8>, OutOfMemory>
    ensures { IfOk result (λ text. text.items ≡ slice_text script.now (record { thread = thread; event = event }) sliced) }
{
    let mut out = Vec::new(alloc);
    out.extend_from_slice(b"slice ")?;
    push_place(&mut out, thread, event)?;
    out.extend_from_slice(b" ")?;
    push_event(&mut out, script, sliced.event)?;
    out.extend_from_slice(b"\nevents ")?;
    push_number(&mut out, sliced.made)?;
    out.extend_from_slice(b" of ")?;
    push_number(&mut out, sliced.all)?;
    out.extend_from_slice(b"\n")?;
    Ok(out)
}
