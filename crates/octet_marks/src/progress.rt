//! How far a thread is in the blocks of a file.

/// How far a thread is, by its blocks so far.
#[derive(Clone, Copy, Debug, PartialEq, Eq)]
pub struct Progress {
    pub events: u64,
    pub accesses: u64,
    pub ended: bool,
}
