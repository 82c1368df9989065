//! Why a block is not made, or bytes are not taken.
ghost use Rattle.std.specs.Prelude.{◌≡◌};
ghost use Rattle.octet_blocks.specs.declared.fault.GatherFault.TheVariants as gather;
ghost use Rattle.octet_blocks.specs.Reading.{unread_fault};

use octet_marks::{MarksCause, MarksFault};
use octet_model::OutOfMemory;
use thiserror::Error;

/// Why no block is made of what a thread has handed on.
#[derive(Clone, Copy, Debug, PartialEq, Eq, Error)]
pub enum GatherFault {
    #[error("out of memory")]
    OutOfMemory,
    /// What has come next is no part of a block. No track hands such a thing on.
    #[error("no part of a block")]
    Broken,
}

/// Why no bytes of a marks file are taken.
#[derive(Clone, Copy, Debug, PartialEq, Eq, Error)]
pub enum FeedFault {
    #[error("out of memory")]
    OutOfMemory,
    /// The head, the block or the end that begins at this place of the file is refused.
    #[error("{cause} at {at}")]
    Refused { cause: MarksCause, at: u64 },
    /// The file is the recording of another run: its head is another one.
    #[error("another run")]
    OtherRun,
    /// The thread was told that the file has no more.
    #[error("the file has ended")]
    Over,
}

impl From<OutOfMemory> for GatherFault {
    ghost from_gives = { λ _ e. e ≡ gather.OutOfMemory };

    fn from(_: OutOfMemory) -> Self {
        GatherFault::OutOfMemory
    }
}

/// The same fault, of bytes that are fed.
pub(crate) fn unread(fault: MarksFault) -> FeedFault
    ensures { result ≡ unread_fault fault }
{
    match fault {
        MarksFault::Refused { cause, at } => FeedFault::Refused { cause, at },
        MarksFault::OutOfMemory => FeedFault::OutOfMemory,
    }
}
