//! What a thread of a long run hands on, and what it is given to follow.
use octet_model::Gapped;

/// What a thread of a long run hands on, in order. A block is its marks, and then its end.
#[derive(Clone, Copy, Debug, PartialEq, Eq)]
pub enum Item {
    /// A mark, with the accesses since the mark before it, or since the block's begin.
    Marked { mark: Gapped },
    /// A block ends: the accesses after its last mark, or since its begin, and the digest of all accesses that the
    /// thread has made.
    BlockEnd { gap: u32, digest: u64 },
    /// The thread has ended.
    ThreadEnd,
    /// The recording breaks off here, without the thread's end. No track hands it on: who feeds a thread does, from a
    /// recording that has no more of it.
    BreaksOff,
}
