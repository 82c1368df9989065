//! What a run comes to.
use crate::{List, Log};

/// How a thread ended.
#[derive(Clone, Copy, Debug, PartialEq, Eq)]
pub enum End {
    /// No command was left.
    Done,
    /// A command was left, and no fuel.
    Spent,
}

/// What a run shows: each thread's end, the values that each thread read, in order, and the
/// objects' final values.
#[derive(Debug, Drop)]
pub struct Outcome {
    pub ends: List<End>,
    pub reads: List<List<u64>>,
    pub heap: List<u64>,
}

/// A run's log and its outcome.
#[derive(Debug, Drop)]
pub struct Recorded {
    pub log: Log,
    pub outcome: Outcome,
}
