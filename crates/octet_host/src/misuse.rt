//! A call that the state of its thread does not allow.

/// A call that the state of its thread does not allow.
#[derive(Clone, Copy, Debug, PartialEq, Eq)]
pub enum Misuse {
    /// The thread is off or blocked, or over.
    Resting,
    /// The thread runs.
    Running,
    /// An access was begun, and is not made yet.
    Begun,
    /// No access was begun.
    NotBegun,
    NoSuchObject,
    /// The thread has made all accesses that it may make.
    Spent,
}
