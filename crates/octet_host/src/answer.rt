//! What an access comes to.
use crate::misuse::Misuse;

/// What an access comes to, or the end of a thread.
#[derive(Clone, Copy, Debug, PartialEq, Eq)]
pub enum Answer<H> {
    Ready { value: u64 },
    /// It waits for another thread.
    Pending,
    /// The thread may not make the call.
    Refused { misuse: Misuse },
    /// The thread goes on no more.
    Left { halt: H },
}
