//! Whether a player goes on.

/// A player plays on, until its log or its thread has what the other lacks, or until it finds that
/// another one does not play on.
#[derive(Clone, Copy, PartialEq, Eq)]
pub(crate) enum Fate {
    Playing,
    /// The log has an access where the thread demands its end, or has nothing where it demands an
    /// access.
    Amiss,
    /// The progress word of that player said that it is amiss or stopped.
    Stopped { whom: u8 },
}
