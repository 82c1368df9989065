//! Why a recording is not run again.
ghost use Rattle.std.specs.Prelude.{◌≡◌};
ghost use Rattle.octet_replay.specs.declared.fault.ReplayFault.TheVariants.{OutOfMemory as MemoryRefused};
ghost use Rattle.octet_rerun.specs.declared.fault.RerunFault.TheVariants.{Replay as ByReplay};

use octet_model::{OutOfMemory, Place};
use octet_replay::ReplayFault;
use thiserror::Error;

/// Why a script and a log are not run again.
#[derive(Debug, Drop, Error)]
pub enum RerunFault {
    /// The log does not fit the script, or memory was refused.
    #[error("{0}")]
    Replay(ReplayFault),
    /// The log leaves two conflicting accesses unordered: it tells no single run.
    #[error("two conflicting accesses are not ordered")]
    Unordered { first: Place, second: Place },
}

impl From<ReplayFault> for RerunFault {
    ghost from_gives = { λ fault e. e ≡ ByReplay fault };

    fn from(fault: ReplayFault) -> Self {
        RerunFault::Replay(fault)
    }
}

impl From<OutOfMemory> for RerunFault {
    ghost from_gives = { λ _ e. e ≡ ByReplay MemoryRefused };

    fn from(_: OutOfMemory) -> Self {
        RerunFault::Replay(ReplayFault::OutOfMemory)
    }
}
