//! A mark where it stands in a run.
use octet_model::Mark;

/// A mark where it stands in its thread.
#[derive(Clone, Copy, Debug, PartialEq, Eq)]
pub struct Placed {
    pub thread: u8,
    /// How many events the thread has made with it: the mark is the last one of them.
    pub events: u64,
    /// How many accesses of the thread come before it.
    pub accesses: u64,
    pub mark: Mark,
}
