//! Laws of a log that is written while its threads run.
ghost use Rattle.octet_live.specs.Laws.{DrainedIsWritten, MarksAreWritten, FailuresAreCounted};

/// Where a fresh drainer took what threads sent, and then what was left of each was added, the pieces
/// have the first marks of each thread, and all of them if none was refused: those of their log.
pub fn drained_log_is_written()
    ensures drained { DrainedIsWritten }
    ensures marks { MarksAreWritten }
{}

/// A piece that failed is one that the desk has counted, and none is refused as too long or as absent.
pub fn failures_are_counted()
    ensures { FailuresAreCounted }
{}
