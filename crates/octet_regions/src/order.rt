//! The regions of a script and a log in a serial order, or a cycle of them.
ghost use Rattle.std.specs.Prelude.{◌≡◌, ◌<◌, length, IfOk, IfErr};
ghost use Rattle.octet_model.specs.Orders.{execution, lowest_order};
ghost use Rattle.octet_replay.specs.Judged.{HasCause, IsLawful};
ghost use Rattle.octet_regions.specs.Accesses.{accesses_of};
ghost use Rattle.octet_regions.specs.Choice.{IsSerial};
ghost use Rattle.octet_regions.specs.code.Chooser.{AreQueuesOf, FitQueues};
ghost use Rattle.octet_replay.specs.ReplayState.{IsNotBegun};
ghost use Rattle.octet_regions.specs.Runs.{Shows};

use crate::chooser::{Chooser, queues_of};
use crate::gather::gather;
use crate::queue::RegionQueue;
use crate::{Serial, Serialized};
use octet_model::{List, Log, Script};
use octet_replay::{ReplayFault, Replayer};
use std::alloc::Global;

// The serial choice among the regions of a script and a log, or the cycle to which it leads. The walk
// looks at all accesses, so that they are gathered where there is one.
fn serial_of(
    alloc: Global,
    script: &Script,
    log: &Log,
    queues: Vec<RegionQueue>,
) -> Result<Serial, ReplayFault>
    requires fit { FitQueues (length script.now.threads) (accesses_of script.now log.now.threads) }
    requires queues { AreQueuesOf (length script.now.threads) (accesses_of script.now log.now.threads) queues.items }
    ensures serial { IfOk result (IsSerial (accesses_of script.now log.now.threads)) }
    ensures refused { IfErr result (IsNotBegun script.now log.now.threads) }
{
    let mut chooser = Chooser::new(alloc, queues);
    chooser.choose()?;
    let Some(start) = chooser.lowest_behind() else {
        return Ok(Serial::Order {
            regions: List::from_vec(chooser.order),
        });
    };
    let accesses = gather(alloc, script, log)?;
    Ok(Serial::Cycle {
        hops: chooser.cycle(alloc, &accesses, start)?,
    })
}

/// An order in which the regions of a script's threads can run one after another, or a cycle of
/// hops, and the outcome of the log's lowest order, which is that of the regions in their order,
/// too. One replay tells all where there is
/// an order, and a cycle takes a second one. Refuses what a replay refuses.
pub fn serialize(alloc: Global, script: &Script, log: &Log) -> Result<Serialized, ReplayFault>
    ensures lawful { IfOk result (λ _. IsLawful script.now log.now.threads) }
    ensures serial { IfOk result (λ found. IsSerial (accesses_of script.now log.now.threads) found.serial) }
    ensures shows { IfOk result (λ found. Shows script.now log.now.threads found.serial) }
    ensures outcome { IfOk result (λ found. found.outcome ≡ execution script.now log.now.threads (lowest_order script.now log.now.threads)) }
    ensures refused { IfErr result (HasCause script.now log.now.threads) }
{
    let mut replayer = Replayer::new(alloc, script, log)?;
    let queues = queues_of(alloc, script.threads.len(), &mut replayer)?;
    let outcome = replayer.end(alloc)?;
    let serial = serial_of(alloc, script, log, queues)?;
    Ok(Serialized { serial, outcome })
}

/// An order in which the regions of a script's threads can run one after another: of the threads
/// whose next region has no region left before it, always the lowest one's comes next. Where that
/// ends with regions left, a cycle of hops: of each hop the first region is before the second, and
/// stands in its thread at or after the second region of the next hop, the last hop's next being the
/// first. Refuses what a replay refuses.
pub fn regions(alloc: Global, script: &Script, log: &Log) -> Result<Serial, ReplayFault>
    ensures lawful { IfOk result (λ _. IsLawful script.now log.now.threads) }
    ensures serial { IfOk result (IsSerial (accesses_of script.now log.now.threads)) }
    ensures shows { IfOk result (Shows script.now log.now.threads) }
    ensures refused { IfErr result (HasCause script.now log.now.threads) }
{
    Ok(serialize(alloc, script, log)?.serial)
}
