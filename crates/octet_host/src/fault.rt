//! Why a run is not ended.
ghost use Rattle.std.specs.Prelude.{◌≡◌};
ghost use Rattle.octet_host.specs.declared.fault.CloseFault.TheVariants as fault;

use octet_model::OutOfMemory;
use std::alloc::AllocFailed;

/// Why a run is not ended.
#[derive(Clone, Copy, Debug, PartialEq, Eq)]
pub enum CloseFault {
    OutOfMemory,
    /// The threads are not as many as the run has.
    OtherSessions,
    /// A thread is not in the place of its number.
    OutOfOrder,
    /// A thread runs.
    StillRunning,
    /// A thread that was run again has not made all of its recording.
    NotWhole,
    /// The log is too long for its format.
    TooLong,
    /// They are as many as a run has, in order, and yet of two runs.
    TwoRuns,
}

impl From<OutOfMemory> for CloseFault {
    ghost from_gives = { λ _ e. e ≡ fault.OutOfMemory };

    fn from(_: OutOfMemory) -> CloseFault {
        CloseFault::OutOfMemory
    }
}

impl<T: Drop> From<AllocFailed<T>> for CloseFault {
    ghost from_gives = { λ _ e. e ≡ fault.OutOfMemory };

    fn from(_: AllocFailed<T>) -> CloseFault {
        CloseFault::OutOfMemory
    }
}
