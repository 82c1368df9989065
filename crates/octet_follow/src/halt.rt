//! Why a thread does not go on.

/// Why a thread does not go on.
#[derive(Clone, Copy, Debug, PartialEq, Eq)]
pub enum Halt {
    /// So many events of another thread come first, which shows fewer. The thread asks again.
    Waits { whom: u8, needs: u64, found: u64 },
    /// So many draws come first, and fewer are made. The thread asks again.
    WaitsForDraws { needs: u64, found: u64 },
    /// It has made all that it was told of, and more comes. The next block, or the end, is to be given.
    NeedsMarks,
    /// It has made all that is recorded of its thread: the recording breaks off here. That is no divergence.
    RecordingEnds,
    /// The recording has no further access of the thread.
    OverEnd,
    /// The thread wants to end, and has so many accesses before its next mark or the end of its block.
    EndsEarly { left: u64 },
    /// There is no such object.
    NoObject,
    /// The mark that is due names no thread of the course, or a draw that was made. A thread that has
    /// made 2^64 - 1 events is amiss too.
    Amiss,
}
