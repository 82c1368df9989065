//! What may be wrong with a call.
ghost use Rattle.std.specs.Prelude.{◌≡◌, ◌≢◌};
ghost use Rattle.octet_c.specs.declared.status.TheConstants.{READY};
ghost use Rattle.octet_c.specs.declared.status.Fault.TheVariants.{OutOfMemory as MemoryRefused};
ghost use Rattle.octet_c.specs.Faults.{open_fault, follow_fault, fault_status, close_status};
ghost use Rattle.octet_c.specs.Statuses.{status_of};
ghost use Rattle.octet_c.specs.Windows.{window_fault};

use octet_host::{CloseFault, Misuse};
use octet_host_script::{FollowFault, OpenFault};
use octet_model::OutOfMemory;
use octet_tail::WindowFault;
use octet_window::Refusal;
use std::alloc::{AllocError, AllocFailed};

/// Why no heap was opened, or no window was made.
#[derive(Clone, Copy, Debug, PartialEq, Eq)]
pub enum Fault {
    OutOfMemory,
    /// The text is no script.
    BadText,
    /// Not as many sessions as streams.
    OtherSessions,
    /// A text or a log is too long for its format, or a window for a script.
    TooLong,
    /// The bytes are no log.
    BadLog,
    /// The log does not fit the script, or is another's.
    Misfit,
    /// The log leaves conflicts of the script unordered.
    Unordered,
    /// A run of any length has 1 to 16 threads and 1 to 65,535 objects.
    BadSize,
    /// The handle has something else than what the call takes.
    OtherKind,
    /// The record has no accesses that were noted.
    NoNotes,
    /// What was fed is not the marks file of the run.
    OtherRun,
}

impl From<AllocError> for Fault {
    ghost from_gives = { λ _ e. e ≡ MemoryRefused };

    fn from(_: AllocError) -> Fault {
        Fault::OutOfMemory
    }
}

impl From<OutOfMemory> for Fault {
    ghost from_gives = { λ _ e. e ≡ MemoryRefused };

    fn from(_: OutOfMemory) -> Fault {
        Fault::OutOfMemory
    }
}

impl<T: Drop> From<AllocFailed<T>> for Fault {
    ghost from_gives = { λ _ e. e ≡ MemoryRefused };

    fn from(_: AllocFailed<T>) -> Fault {
        Fault::OutOfMemory
    }
}

impl From<OpenFault> for Fault {
    ghost from_gives = { λ fault e. e ≡ open_fault fault };

    fn from(fault: OpenFault) -> Fault {
        match fault {
            OpenFault::OutOfMemory => Fault::OutOfMemory,
            OpenFault::BadText => Fault::BadText,
        }
    }
}

impl From<FollowFault> for Fault {
    ghost from_gives = { λ fault e. e ≡ follow_fault fault };

    fn from(fault: FollowFault) -> Fault {
        match fault {
            FollowFault::OutOfMemory => Fault::OutOfMemory,
            FollowFault::TooLong => Fault::TooLong,
            FollowFault::BadText => Fault::BadText,
            FollowFault::BadLog => Fault::BadLog,
            FollowFault::Misfit => Fault::Misfit,
            FollowFault::Unordered => Fault::Unordered,
        }
    }
}

impl From<WindowFault> for Fault {
    ghost from_gives = { λ fault e. e ≡ window_fault fault };

    fn from(fault: WindowFault) -> Fault {
        match fault {
            WindowFault::OutOfMemory => Fault::OutOfMemory,
            WindowFault::TooLong => Fault::TooLong,
            WindowFault::Refused { refusal } => match refusal {
                Refusal::ManyObjects { .. } | Refusal::ManyLines { .. } => Fault::TooLong,
                Refusal::OutOfMemory => Fault::OutOfMemory,
                Refusal::NoHistory => Fault::OtherRun,
            },
        }
    }
}

/// The statuses that the calls answer. They stand in `include/octet.h` too.
pub const READY: i32 = 0;

pub const PENDING: i32 = 1;

/// Of a safe point: a thread had asked this one.
pub const ANSWERED: i32 = 1;

/// Of a run of any length: the thread or its recording has no more.
pub const OVER: i32 = 2;

pub const NO_SESSION: i32 = -1;

pub const RESTING: i32 = -2;

pub const RUNNING: i32 = -3;

pub const BEGUN: i32 = -4;

pub const NOT_BEGUN: i32 = -5;

pub const NO_OBJECT: i32 = -6;

pub const SPENT: i32 = -7;

pub const NO_MODE: i32 = -8;

pub const NO_MEMORY: i32 = -9;

pub const BAD_TEXT: i32 = -10;

pub const OTHER_SESSIONS: i32 = -11;

pub const OUT_OF_ORDER: i32 = -32;

/// The handle has something else than what the call takes.
pub const OTHER_KIND: i32 = -33;

pub const STILL_RUNNING: i32 = -12;

pub const TOO_LONG: i32 = -13;

pub const NO_RECORD: i32 = -14;

pub const DIVERGED: i32 = -15;

pub const HALTED: i32 = -16;

pub const MISFIT: i32 = -17;

pub const UNORDERED: i32 = -18;

pub const NOT_WHOLE: i32 = -19;

pub const BAD_LOG: i32 = -20;

pub const NO_CHANGE: i32 = -21;

pub const BAD_SIZE: i32 = -22;

pub const NO_STREAM: i32 = -23;

pub const NO_ROOM: i32 = -24;

pub const BAD_MARKS: i32 = -25;

pub const OTHER_RUN: i32 = -26;

pub const NO_WAY: i32 = -27;

pub const NO_SCHEDULE: i32 = -28;

pub const TWO_RUNS: i32 = -29;

pub const NO_NOTES: i32 = -30;

/// The status of a call that the state of its thread does not allow.
pub(crate) fn status_of(misuse: Misuse) -> i32
    ensures { result ≡ status_of misuse }
{
    match misuse {
        Misuse::Resting => RESTING,
        Misuse::Running => RUNNING,
        Misuse::Begun => BEGUN,
        Misuse::NotBegun => NOT_BEGUN,
        Misuse::NoSuchObject => NO_OBJECT,
        Misuse::Spent => SPENT,
    }
}

impl Fault {
    pub(crate) fn status(self) -> i32
        ensures is { result ≡ fault_status self }
        ensures fault { result ≢ READY }
    {
        match self {
            Fault::OutOfMemory => NO_MEMORY,
            Fault::BadText => BAD_TEXT,
            Fault::OtherSessions => OTHER_SESSIONS,
            Fault::TooLong => TOO_LONG,
            Fault::BadLog => BAD_LOG,
            Fault::Misfit => MISFIT,
            Fault::Unordered => UNORDERED,
            Fault::BadSize => BAD_SIZE,
            Fault::OtherKind => OTHER_KIND,
            Fault::NoNotes => NO_NOTES,
            Fault::OtherRun => OTHER_RUN,
        }
    }
}

/// The status of a run that is not ended.
pub(crate) fn close_status(fault: CloseFault) -> i32
    ensures is { result ≡ close_status fault }
    ensures fault { result ≢ READY }
{
    match fault {
        CloseFault::OutOfMemory => NO_MEMORY,
        CloseFault::OtherSessions => OTHER_SESSIONS,
        CloseFault::OutOfOrder => OUT_OF_ORDER,
        CloseFault::StillRunning => STILL_RUNNING,
        CloseFault::NotWhole => NOT_WHOLE,
        CloseFault::TooLong => TOO_LONG,
        CloseFault::TwoRuns => TWO_RUNS,
    }
}
