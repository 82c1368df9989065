//! One thread at work, and what is noted of it.
use crate::access::Access;
use octet_heap::Worker;
use octet_model::Command;

/// The lines that an access may have in a recorded script: a `region`, a `set` of the value, and the access
/// itself. A read has no `set`.
pub const LINES_OF_ACCESS: u32 = 3;

/// One thread at work on the heap, with the straight-line program of the accesses that it has made.
#[derive(Drop)]
pub struct Track {
    pub(crate) worker: Worker,
    // The access that the worker has begun, if any, in the words in which it was asked for.
    pub(crate) begun: Option<Access>,
    // Has room for all lines that the script may have in a thread, so that no access takes memory.
    pub(crate) commands: Vec<Command>,
    // Whether a region begins with the next access.
    pub(crate) region: bool,
}
