//! Why a thread that is run again does not go on.
use octet_model::Event;
use octet_recorder::Access;

/// Where a thread has left its recording.
#[derive(Clone, Copy, Debug, PartialEq, Eq)]
pub struct Divergence {
    pub thread: u8,
    /// How many accesses the thread has made. All of them were recorded.
    pub accesses: u32,
    /// The access that it wants then. None where it wants to end.
    pub wanted: Option<Access>,
    /// The one that was recorded. None where the recording of the thread ends.
    pub recorded: Option<Event>,
}

/// Why a thread that is run again does not go on.
#[derive(Clone, Copy, Debug, PartialEq, Eq)]
pub enum Halt {
    /// By the recording so many events of another thread come first, which has made fewer. The thread asks
    /// again.
    Waits { whom: u8, needs: u64, found: u64 },
    /// The recording has another access there.
    Diverges { divergence: Divergence },
    /// The thread would have to wait, and another one has diverged. So it may be that what it waits for is
    /// never made.
    Stopped { divergence: Divergence },
    /// The log has an access left where its script demands an end, or the other way round.
    Amiss,
}

/// Why an event that was recorded was not made.
#[derive(Clone, Copy, Debug, PartialEq, Eq)]
pub(crate) enum Hold {
    Waits { whom: u8, needs: u64, found: u64 },
    Amiss,
}
