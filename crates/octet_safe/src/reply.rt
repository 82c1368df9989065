//! What a request comes to.

/// What a thread answers that was asked.
#[derive(Clone, Copy, Debug, PartialEq, Eq)]
pub enum Reply {
    /// It gives way, after so many events of its own.
    Given { upto: u64 },
    /// It has not answered yet, by this status word.
    Unanswered { word: u64 },
}
