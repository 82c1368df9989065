//! What comes after all that a follower was told.

/// What comes after all that a follower was told.
#[derive(Clone, Copy, Debug, PartialEq, Eq)]
pub enum Ending {
    /// More marks or accesses.
    Open,
    /// The end of its thread.
    ThreadEnds,
    /// Nothing is known: its recording breaks off here.
    BreaksOff,
}
