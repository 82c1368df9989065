//! The accesses of a script and a log in the lowest order, each with its region.
ghost use Rattle.std.specs.Prelude.{◌≡◌, IfErr, IfOk};
ghost use Rattle.octet_replay.specs.ReplayState.{IsNotBegun};
ghost use Rattle.octet_regions.specs.Accesses.{accesses_of};
ghost use Rattle.octet_regions.specs.code.Gather.{AddsAccess};

use crate::Region;
use crate::access::Access;
use octet_model::{Log, Script};
use octet_replay::{ReplayFault, Replayer, Stepped};
use std::alloc::Global;

/// Steps a replay on to the next access, which is told with its region, or to the end.
#[inline(always)]
pub(crate) fn next_access(replayer: &mut Replayer<'_>) -> Option<Access>
    ensures script { replayer.new.script ≡ replayer.old.script }
    ensures log { replayer.new.log ≡ replayer.old.log }
    ensures adds { AddsAccess replayer.old result replayer.new }
{
    while let Some(thread) = replayer.next_thread() {
        let number = replayer.regions(thread);
        let Stepped::Made { event, .. } = replayer.step() else {
            unreachable!()
        };
        if event.is_access() {
            let region = Region { thread, number };
            return Some(Access { region, event });
        }
    }
    None
}

/// All accesses of a script and a log in the lowest order.
pub(crate) fn gather(alloc: Global, script: &Script, log: &Log) -> Result<Vec<Access>, ReplayFault>
    ensures gathered { IfOk result (λ accesses. accesses.items ≡ accesses_of script.now log.now.threads) }
    ensures refused { IfErr result (IsNotBegun script.now log.now.threads) }
{
    let mut replayer = Replayer::new(alloc, script, log)?;
    let mut accesses = Vec::new(alloc);
    while let Some(access) = next_access(&mut replayer) {
        accesses.push(access)?;
    }
    Ok(accesses)
}
