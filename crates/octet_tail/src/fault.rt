//! Why a thread has no part in a window, or a search does not go on.
ghost use Rattle.std.specs.Prelude.{◌≡◌};
ghost use Rattle.octet_tail.specs.declared.fault.PartFault.TheVariants as part;
ghost use Rattle.octet_tail.specs.declared.fault.SearchFault.TheVariants as search;
ghost use Rattle.octet_tail.specs.Faults.{search_fault_of_marks, search_fault_of_part, search_fault_of_untaken};

use crate::finder::Untaken;
use octet_marks::{MarksCause, MarksFault};
use octet_model::OutOfMemory;
use thiserror::Error;

/// Why a thread has no part in a window.
#[derive(Clone, Copy, Debug, PartialEq, Eq, Error)]
pub enum PartFault {
    #[error("out of memory")]
    OutOfMemory,
    /// The front lies behind all that the thread has made, or more accesses come after it than are wanted, or than are kept.
    #[error("the front is not where the last accesses are")]
    Apart,
}

/// Why a search does not go on, or finds nothing.
#[derive(Clone, Copy, Debug, PartialEq, Eq, Error)]
pub enum SearchFault {
    #[error("out of memory")]
    OutOfMemory,
    /// The head, the block or the end that begins at this place of the file is refused.
    #[error("{cause} at {at}")]
    Refused { cause: MarksCause, at: u64 },
    /// With what it has made a thread of the file has 2^64 events or more.
    #[error("too many events")]
    ManyEvents,
    /// The last accesses of a thread were not noted.
    #[error("no last accesses were noted")]
    NotNoted,
    /// A thread has no part between the fronts: the file is not the one by which the threads were made again.
    #[error("the front is not where the last accesses are")]
    Apart,
}

impl From<OutOfMemory> for PartFault {
    ghost from_gives = { λ _ e. e ≡ part.OutOfMemory };

    fn from(_: OutOfMemory) -> Self {
        PartFault::OutOfMemory
    }
}

impl From<OutOfMemory> for SearchFault {
    ghost from_gives = { λ _ e. e ≡ search.OutOfMemory };

    fn from(_: OutOfMemory) -> Self {
        SearchFault::OutOfMemory
    }
}

impl From<MarksFault> for SearchFault {
    ghost from_gives = { λ fault e. e ≡ search_fault_of_marks fault };

    fn from(fault: MarksFault) -> Self {
        match fault {
            MarksFault::Refused { cause, at } => SearchFault::Refused { cause, at },
            MarksFault::OutOfMemory => SearchFault::OutOfMemory,
        }
    }
}

impl From<Untaken> for SearchFault {
    ghost from_gives = { λ untaken e. e ≡ search_fault_of_untaken untaken };

    fn from(untaken: Untaken) -> Self {
        match untaken {
            Untaken::ManyEvents => SearchFault::ManyEvents,
            Untaken::OutOfMemory => SearchFault::OutOfMemory,
        }
    }
}

impl From<PartFault> for SearchFault {
    ghost from_gives = { λ fault e. e ≡ search_fault_of_part fault };

    fn from(fault: PartFault) -> Self {
        match fault {
            PartFault::Apart => SearchFault::Apart,
            PartFault::OutOfMemory => SearchFault::OutOfMemory,
        }
    }
}
