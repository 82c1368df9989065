//! Why a call has not made what it was asked for.

/// Why a call has not made what it was asked for. After `Waits` the same call goes on; after any other a thread ends.
#[derive(Clone, Copy, Debug, PartialEq, Eq)]
pub enum NotMade<H> {
    /// The access waits for another thread. The same call, made again, goes on with it.
    Waits,
    /// The recording has no room for the lines of one more access.
    NoRoom,
    /// The thread goes on no more, as the session tells: in a second run it has left its recording, or it would wait and
    /// another one has.
    Left { halt: H },
}
