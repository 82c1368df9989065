//! Regions, and hops between them.

/// A region of a thread: the accesses that it makes after it ran so many `region` commands, and
/// before it runs the next one.
#[derive(Clone, Copy, Debug, PartialEq, Eq)]
pub struct Region {
    pub thread: u8,
    pub number: u32,
}

/// Two regions of which the one is before the other: an access of it comes earlier than an access
/// of the other that conflicts with it.
#[derive(Clone, Copy, Debug, PartialEq, Eq)]
pub struct Hop {
    pub before: Region,
    pub after: Region,
}
