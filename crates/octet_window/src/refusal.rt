//! Why there is no window.
ghost use Rattle.std.specs.Prelude.{◌≡◌};
ghost use Rattle.octet_window.specs.declared.refusal.Refusal.TheVariants.{OutOfMemory as MemoryRefused};

use octet_model::OutOfMemory;
use std::alloc::{AllocError, AllocFailed};
use thiserror::Error;

/// Why there is no window. Out of memory alone may come at any time.
#[derive(Debug, Drop, Error)]
pub enum Refusal {
    /// The threads access more objects than a script may have.
    #[error("{objects} objects")]
    ManyObjects { objects: usize },
    /// A thread needs so many lines, which is more than all threads of a script may have together.
    #[error("{lines} lines of a thread")]
    ManyLines { lines: usize },
    /// What is noted has no one history by its marks, whatever values the objects have at first: no order of it has its
    /// values, or two accesses that conflict are not ordered by the marks.
    #[error("the threads do not make what is noted")]
    NoHistory,
    #[error("out of memory")]
    OutOfMemory,
}

impl From<OutOfMemory> for Refusal {
    ghost from_gives = { λ _ e. e ≡ MemoryRefused };

    fn from(_: OutOfMemory) -> Self {
        Refusal::OutOfMemory
    }
}

impl From<AllocError> for Refusal {
    ghost from_gives = { λ _ e. e ≡ MemoryRefused };

    fn from(_: AllocError) -> Self {
        Refusal::OutOfMemory
    }
}

impl<T: Drop> From<AllocFailed<T>> for Refusal {
    ghost from_gives = { λ _ e. e ≡ MemoryRefused };

    fn from(_: AllocFailed<T>) -> Self {
        Refusal::OutOfMemory
    }
}
