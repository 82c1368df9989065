//! A long run that is made again.
use crate::quiet::Quiet;
use octet_follow::Course;
use octet_rerun::First;

/// Between which accesses a thread has left its recording.
#[derive(Clone, Copy, Debug, PartialEq, Eq)]
pub struct Divergence {
    pub thread: u8,
    /// So many accesses the thread had made where its digest was the recorded one, or where it began.
    pub from: u64,
    /// So many it has made where it is found that it has left its recording.
    pub to: u64,
}

/// Why a thread of a long run that is made again does not go on.
#[derive(Clone, Copy, Debug, PartialEq, Eq)]
pub enum Halt {
    /// The thread has left its recording: its digest is not the recorded one, or one of both is at its end and the other
    /// is not.
    Diverges { divergence: Divergence },
    /// The thread would have to wait, and another one has diverged.
    Stopped { divergence: Divergence },
    /// The recording ends here: it breaks off, or what the thread waits for is not in it.
    RecordingEnds,
    /// What the thread was fed is no recording.
    Amiss,
}

/// What the threads of a long run share that is made again.
#[derive(Drop)]
pub struct LongRerun {
    pub(crate) course: Course,
    pub(crate) diverged: First<Divergence>,
    pub(crate) quiet: Quiet,
}
