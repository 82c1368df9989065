//! Why bytes are refused as a log.
ghost use Rattle.std.specs.Prelude.{◌≡◌};
ghost use Rattle.octet_log.specs.declared.cause.LogFault.TheVariants.{OutOfMemory};

use octet_model::OutOfMemory;
use std::alloc::{AllocError, AllocFailed};
use thiserror::Error;

/// What is wrong with the bytes: the first refusal from the front. A place counts bytes from 0.
#[derive(Clone, Copy, Debug, PartialEq, Eq, Error)]
pub enum LogCause {
    /// The first four bytes are not `OCTL`, or there are fewer.
    #[error("no magic")]
    NoMagic,
    /// The version is neither 1 nor 2.
    #[error("bad version")]
    BadVersion,
    /// The number of threads is 0 or above 16.
    #[error("bad threads")]
    BadThreads,
    /// A field or a mark goes past the end, which is at this place.
    #[error("cut short at {at}")]
    CutShort { at: u64 },
    /// The mark at this place is none of its thread, or its gap is too long.
    #[error("bad mark at {at}")]
    BadMark { at: u64 },
    /// The accesses sum to more than 262,144.
    #[error("too many accesses")]
    TooManyAccesses,
    /// A byte stands after the last thread, or the tail, at this place.
    #[error("trailing at {at}")]
    Trailing { at: u64 },
    /// The short number at this place is not shortest, or is above 2^64 - 1.
    #[error("bad number at {at}")]
    BadNumber { at: u64 },
    /// The piece at this place is of no thread of the log, or has no mark.
    #[error("bad piece at {at}")]
    BadPiece { at: u64 },
    /// The gaps of this thread's marks sum to more than its accesses.
    #[error("gaps over accesses of thread {thread}")]
    GapsOver { thread: u8 },
    /// The pieces have more than 4,793,490 marks.
    #[error("too many marks")]
    TooManyMarks,
}

/// Why bytes were not read as a log.
#[derive(Clone, Copy, Debug, PartialEq, Eq, Error)]
pub enum LogFault {
    #[error("{cause}")]
    Refused { cause: LogCause },
    #[error("out of memory")]
    OutOfMemory,
}

impl From<AllocError> for LogFault {
    ghost from_gives = { λ _ e. e ≡ OutOfMemory };

    fn from(_: AllocError) -> Self {
        LogFault::OutOfMemory
    }
}

impl<T: Drop> From<AllocFailed<T>> for LogFault {
    ghost from_gives = { λ _ e. e ≡ OutOfMemory };

    fn from(_: AllocFailed<T>) -> Self {
        LogFault::OutOfMemory
    }
}

impl From<OutOfMemory> for LogFault {
    ghost from_gives = { λ _ e. e ≡ OutOfMemory };

    fn from(_: OutOfMemory) -> Self {
        LogFault::OutOfMemory
    }
}

impl From<LogCause> for LogFault {
    ghost use Rattle.octet_log.specs.declared.cause.LogFault.TheVariants.{Refused};

    ghost from_gives = { λ cause e. e ≡ Refused cause };

    fn from(cause: LogCause) -> Self {
        LogFault::Refused { cause }
    }
}
