//! What a thread demands of whoever runs it.
use octet_model::End;

/// What a thread comes to next. Objects are named by their place in the script.
#[derive(Clone, Copy, Debug, PartialEq, Eq)]
pub enum Demand {
    /// The object's value is wanted; the thread waits for it.
    Read { object: u16 },
    /// The object is to get the value.
    Write { object: u16, value: u64 },
    /// The amount is to be added to the object's value, modulo 2^64.
    Bump { object: u16, amount: u64 },
    /// A safe point.
    Safe,
    /// The thread is to be marked blocked, and then unblocked again.
    Pause,
    /// The thread is over.
    Ended { end: End },
}
