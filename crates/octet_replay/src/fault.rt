//! Why a replay is refused.
ghost use Rattle.std.specs.Prelude.{◌≡◌};
ghost use Rattle.octet_replay.specs.declared.fault.ReplayFault.TheVariants.{OutOfMemory as MemoryRefused};

use octet_model::{List, OutOfMemory};
use std::alloc::{AllocError, AllocFailed};
use thiserror::Error;

/// Why a log is not replayed. Out of memory alone may come at any time; the others say why the
/// log does not fit the script.
#[derive(Debug, Drop, Error)]
pub enum ReplayFault {
    /// The script and the log have these numbers of threads, which differ.
    #[error("{script} threads in the script, {log} in the log")]
    ThreadsDiffer { script: u32, log: u32 },
    /// No thread may step and some thread has not finished. `positions` are how many events each
    /// thread has made.
    #[error("stuck")]
    Stuck { positions: List<u64> },
    /// When no thread may step, this is the lowest thread that ended with fewer accesses than
    /// the log says, or, with no mark left, demands one more. `wanted` is the log's number; `found`
    /// is how many the thread made, or one more than `wanted`.
    #[error("thread {thread} wants {wanted} accesses, found {found}")]
    Misfit { thread: u8, wanted: u32, found: u32 },
    #[error("out of memory")]
    OutOfMemory,
}

impl From<OutOfMemory> for ReplayFault {
    ghost from_gives = { λ _ e. e ≡ MemoryRefused };

    fn from(_: OutOfMemory) -> Self {
        ReplayFault::OutOfMemory
    }
}

impl From<AllocError> for ReplayFault {
    ghost from_gives = { λ _ e. e ≡ MemoryRefused };

    fn from(_: AllocError) -> Self {
        ReplayFault::OutOfMemory
    }
}

impl<T: Drop> From<AllocFailed<T>> for ReplayFault {
    ghost from_gives = { λ _ e. e ≡ MemoryRefused };

    fn from(_: AllocFailed<T>) -> Self {
        ReplayFault::OutOfMemory
    }
}
