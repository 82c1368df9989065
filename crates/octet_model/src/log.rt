//! Logs: what is kept of a run, without any value that was read.
ghost use Rattle.std.specs.Prelude.{IsTrue};
ghost use Rattle.octet_model.specs.Log.{is_log};

use crate::{List, Mark};

/// A mark and its gap: the accesses of its thread since the mark before it, or since the start.
#[derive(Clone, Copy, Debug, PartialEq, Eq)]
pub struct Gapped {
    pub gap: u32,
    pub mark: Mark,
}

/// The log of one thread: how many accesses it makes, and its marks in order.
#[derive(Debug, Drop)]
pub struct ThreadLog {
    pub accesses: u32,
    pub marks: List<Gapped>,
}

/// A log, valid by its type: 1 to 16 threads, at most 262,144 accesses in all, fewer than 2^31
/// marks per thread with gaps that sum to at most its accesses; a `Join` names another thread
/// of the log, and the number of a `Draw` or `Fence` is at least 1.
#[derive(Debug, Drop)]
pub struct Log {
    pub threads: List<ThreadLog>,
    pub ghost valid: { IsTrue (is_log threads) },
}
