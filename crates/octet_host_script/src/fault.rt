//! Why no threads are opened.
ghost use Rattle.std.specs.Prelude.{◌≡◌};
ghost use Rattle.octet_host_script.specs.Faults.{declared_fault, text_fault, log_fault, rerun_fault};
ghost use Rattle.octet_host_script.specs.declared.fault.OpenFault.TheVariants as opening;
ghost use Rattle.octet_host_script.specs.declared.fault.FollowFault.TheVariants as following;

use octet_log::LogFault;
use octet_model::OutOfMemory;
use octet_replay::ReplayFault;
use octet_rerun::RerunFault;
use octet_script::ScriptFault;

/// Why no heap is opened as a text declares it.
#[derive(Clone, Copy, Debug, PartialEq, Eq)]
pub enum OpenFault {
    OutOfMemory,
    /// The text is no script.
    BadText,
}

/// Why a recording is not followed.
#[derive(Clone, Copy, Debug, PartialEq, Eq)]
pub enum FollowFault {
    OutOfMemory,
    /// A text or a log that is so long is none.
    TooLong,
    /// The text is no script.
    BadText,
    /// The bytes are no log.
    BadLog,
    /// The log does not fit the script, or is another's.
    Misfit,
    /// The log leaves conflicts of the script unordered.
    Unordered,
}

impl From<OutOfMemory> for OpenFault {
    ghost from_gives = { λ _ e. e ≡ opening.OutOfMemory };

    fn from(_: OutOfMemory) -> OpenFault {
        OpenFault::OutOfMemory
    }
}

impl From<ScriptFault> for OpenFault {
    ghost from_gives = { λ fault e. e ≡ declared_fault fault };

    fn from(fault: ScriptFault) -> OpenFault {
        match fault {
            ScriptFault::OutOfMemory => OpenFault::OutOfMemory,
            ScriptFault::Refused { .. } => OpenFault::BadText,
        }
    }
}

impl From<OutOfMemory> for FollowFault {
    ghost from_gives = { λ _ e. e ≡ following.OutOfMemory };

    fn from(_: OutOfMemory) -> FollowFault {
        FollowFault::OutOfMemory
    }
}

impl From<ScriptFault> for FollowFault {
    ghost from_gives = { λ fault e. e ≡ text_fault fault };

    fn from(fault: ScriptFault) -> FollowFault {
        match fault {
            ScriptFault::OutOfMemory => FollowFault::OutOfMemory,
            ScriptFault::Refused { .. } => FollowFault::BadText,
        }
    }
}

impl From<LogFault> for FollowFault {
    ghost from_gives = { λ fault e. e ≡ log_fault fault };

    fn from(fault: LogFault) -> FollowFault {
        match fault {
            LogFault::OutOfMemory => FollowFault::OutOfMemory,
            LogFault::Refused { .. } => FollowFault::BadLog,
        }
    }
}

impl From<RerunFault> for FollowFault {
    ghost from_gives = { λ fault e. e ≡ rerun_fault fault };

    fn from(fault: RerunFault) -> FollowFault {
        match fault {
            RerunFault::Replay(ReplayFault::OutOfMemory) => FollowFault::OutOfMemory,
            RerunFault::Replay(_) => FollowFault::Misfit,
            RerunFault::Unordered { .. } => FollowFault::Unordered,
        }
    }
}
