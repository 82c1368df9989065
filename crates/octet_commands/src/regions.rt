//! `regions SCRIPT LOG`: the regions of an ordered log in a serial order, or a cycle of them.
ghost use Rattle.std.specs.Prelude.{◌≡◌, ◌++◌, IfOk, OnOk, codes, length};
ghost use Rattle.std.specs.List.{flat_map};
ghost use Rattle.octet_commands.specs.declared.request.PairTask.TheVariants.{Regions};
ghost use Rattle.octet_commands.specs.Answer.{answer_of, cycle_text, does_not_fit, hop_line, region_line, region_text, serial_said, IsAnswered};
ghost use Rattle.octet_commands.specs.Commands.{Fitting, PairReplays, SerialSays};

use crate::commands::check_order;
use crate::inputs::Pair;
use crate::refusal::{Refused, does_not_fit};
use crate::reply::{Reply, Status};
use octet_model::{OutOfMemory, Script, outcome_text, push_number};
use octet_regions::{Hop, Region, Serial, Serialized, serialize};
use octet_replay::ReplayFault;
use std::alloc::Global;

/// Of a log that orders all conflicts, the regions in a serial order and the outcome are said, or a
/// cycle of hops; of another, why it does not.
#[tactic(auto, using(crate::proofs::lemmas::Checking::check_refused, crate::proofs::lemmas::Checking::check_passed))]
pub(crate) fn regions(alloc: Global, pair: &Pair) -> Result<Reply, Refused>
    ensures { IsAnswered (PairReplays Regions pair.now) result }
{
    check_order(alloc, pair)?;
    say_regions(alloc, pair)
}

fn say_regions(alloc: Global, pair: &Pair) -> Result<Reply, Refused>
    ensures { IsAnswered (Fitting does_not_fit (SerialSays pair.now) pair.now.source.script pair.now.loaded.log.threads) result }
{
    let script = &pair.source.script;
    let found = match serialize(alloc, script, &pair.loaded.log) {
        Ok(found) => found,
        Err(ReplayFault::OutOfMemory) => return Err(Refused::OutOfMemory),
        Err(fault) => return Err(Refused::Because(does_not_fit(alloc, &fault)?)),
    };
    Ok(say_serial(alloc, script, &found)?)
}

fn say_serial(alloc: Global, script: &Script, found: &Serialized) -> Result<Reply, OutOfMemory>
    requires ends { length found.now.outcome.ends ≡ length script.now.threads }
    requires reads { length found.now.outcome.reads ≡ length script.now.threads }
    requires heap { length found.now.outcome.heap ≡ length script.now.objects }
    ensures { IfOk result (λ reply. answer_of reply ≡ serial_said script.now found.now.outcome found.now.serial) }
{
    match &found.serial {
        Serial::Order { regions } => {
            let mut text = order_text(alloc, regions.as_slice())?;
            let said = outcome_text(alloc, script, &found.outcome)?;
            text.extend_from_slice(said.as_slice())?;
            Ok(Reply::saying(alloc, Status::Done, text))
        }
        Serial::Cycle { hops } => {
            let text = cycle_text(alloc, hops.as_slice())?;
            Ok(Reply::saying(alloc, Status::Cycle, text))
        }
    }
}

fn push_region(text: &mut Vec<u8>, region: Region) -> Result<(), OutOfMemory>
    ensures { OnOk result (text.new.items ≡ text.old.items ++ region_text region) }
{
    push_number(text, u64::from(region.thread))?;
    text.extend_from_slice(b":")?;
    push_number(text, u64::from(region.number))
}

fn order_text(alloc: Global, regions: &[Region]) -> Result<Vec<u8>, OutOfMemory>
    ensures { IfOk result (λ text. text.items ≡ codes "serial\n" ++ flat_map region_line regions.now) }
{
    let mut text = Vec::from_slice(alloc, b"serial\n")?;
    for region in regions {
        text.extend_from_slice(b"region ")?;
        push_region(&mut text, *region)?;
        text.extend_from_slice(b"\n")?;
    }
    Ok(text)
}

/// The hops of a cycle, a line each.
pub(crate) fn cycle_text(alloc: Global, hops: &[Hop]) -> Result<Vec<u8>, OutOfMemory>
    ensures { IfOk result (λ text. text.items ≡ cycle_text hops.now) }
{
    let mut text = Vec::from_slice(alloc, b"cycle\n")?;
    for hop in hops {
        text.extend_from_slice(b"hop ")?;
        push_region(&mut text, hop.before)?;
        text.extend_from_slice(b" ")?;
        push_region(&mut text, hop.after)?;
        text.extend_from_slice(b"\n")?;
    }
    Ok(text)
}
