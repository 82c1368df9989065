//! Objects that threads share in a run of any length.
use octet_heap::Heap;

/// Objects that threads share in a run of any length, of which marks and digests are handed on.
#[derive(Drop)]
pub struct LongRun {
    pub(crate) heap: Heap,
    // After so many accesses at most a block ends.
    pub(crate) every: u32,
}

/// The thread has made 2^42 accesses, the most that a thread of a long run may make.
#[derive(Clone, Copy, Debug, PartialEq, Eq)]
pub struct Full;
