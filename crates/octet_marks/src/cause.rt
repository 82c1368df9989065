//! Why bytes are refused as a marks file.
ghost use Rattle.std.specs.Prelude.{◌≡◌};
ghost use Rattle.octet_marks.specs.declared.cause.ReadFault.TheVariants.{OutOfMemory};

use octet_model::OutOfMemory;
use std::alloc::{AllocError, AllocFailed};
use thiserror::Error;

/// What is wrong with the head, or with the block or the end, that comes next in a marks file.
#[derive(Clone, Copy, Debug, PartialEq, Eq, Error)]
pub enum MarksCause {
    /// The first four bytes are not `OCTM`.
    #[error("no magic")]
    NoMagic,
    /// The version is not 1.
    #[error("bad version")]
    BadVersion,
    /// The two lengths of the body differ, or are above 1,048,576.
    #[error("bad length")]
    BadLength,
    /// The checksum is not that of the bytes before it.
    #[error("bad checksum")]
    BadChecksum,
    /// The file begins with no head; or what stands behind the head is neither a block nor an end.
    #[error("bad kind")]
    BadKind,
    /// The body spells no head, no block or no end.
    #[error("bad body")]
    BadBody,
    /// The thread is none of the file.
    #[error("bad thread")]
    BadThread,
    /// The thread has ended before.
    #[error("after the end")]
    AfterEnd,
    /// The number of events is not that of the thread's blocks so far.
    #[error("out of order")]
    OutOfOrder,
    /// A mark of the block is none of its thread.
    #[error("bad mark")]
    BadMark,
    /// The thread has more than 2^42 accesses, or 2^64 events or more.
    #[error("too long")]
    TooLong,
}

/// Why the next piece was not read, without its place.
#[derive(Clone, Copy, Debug, PartialEq, Eq, Error)]
pub(crate) enum ReadFault {
    #[error("{cause}")]
    Refused { cause: MarksCause },
    #[error("out of memory")]
    OutOfMemory,
}

/// Why the next piece was not read.
#[derive(Clone, Copy, Debug, PartialEq, Eq, Error)]
pub enum MarksFault {
    /// The head, the block or the end that begins at this place of the file is refused.
    #[error("{cause} at {at}")]
    Refused { cause: MarksCause, at: u64 },
    #[error("out of memory")]
    OutOfMemory,
}

impl From<AllocError> for ReadFault {
    ghost from_gives = { λ _ e. e ≡ OutOfMemory };

    fn from(_: AllocError) -> Self {
        ReadFault::OutOfMemory
    }
}

impl<T: Drop> From<AllocFailed<T>> for ReadFault {
    ghost from_gives = { λ _ e. e ≡ OutOfMemory };

    fn from(_: AllocFailed<T>) -> Self {
        ReadFault::OutOfMemory
    }
}

impl From<OutOfMemory> for ReadFault {
    ghost from_gives = { λ _ e. e ≡ OutOfMemory };

    fn from(_: OutOfMemory) -> Self {
        ReadFault::OutOfMemory
    }
}

impl From<MarksCause> for ReadFault {
    ghost use Rattle.octet_marks.specs.declared.cause.ReadFault.TheVariants.{Refused};

    ghost from_gives = { λ cause e. e ≡ Refused cause };

    fn from(cause: MarksCause) -> Self {
        ReadFault::Refused { cause }
    }
}
