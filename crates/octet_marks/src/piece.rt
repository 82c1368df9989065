//! What a marks file consists of.
use octet_log::Digest;
use octet_model::{Gapped, List};

/// The version of the format.
pub(crate) const VERSION: u8 = 1;

/// The kind of a head.
pub(crate) const HEAD: u8 = 0;

/// The kind of a block.
pub(crate) const BLOCK: u8 = 1;

/// The kind of an end.
pub(crate) const END: u8 = 2;

/// What stands first in a file.
#[derive(Debug, Drop)]
pub struct Head {
    /// How many threads, 1 to 16.
    pub threads: u8,
    /// The value that each object starts with; at most 65,535.
    pub starts: List<u64>,
    /// The SHA-256 of what the host declares. A run of another program has another one.
    pub declared: Digest,
}

/// Some events of one thread, in a row.
#[derive(Debug, Drop)]
pub struct Block {
    pub thread: u8,
    /// How many events of the thread come before it.
    pub first: u64,
    /// Its marks, each with the accesses since the mark before it, or since the block began.
    pub marks: List<Gapped>,
    /// The accesses after the last mark, or since the block began.
    pub gap: u32,
    /// The digest of all accesses that the thread has made up to here.
    pub digest: u64,
}

/// That a thread has ended.
#[derive(Clone, Copy, Debug, PartialEq, Eq)]
pub struct End {
    pub thread: u8,
    /// How many events it has made in all.
    pub events: u64,
}

/// A head, a block or an end.
#[derive(Debug, Drop)]
pub enum Piece {
    Head { head: Head },
    Block { block: Block },
    End { end: End },
}
