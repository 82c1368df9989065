//! The limits of the format that no other crate states.

/// Marks of a log in version 2, of all its threads. No file of version 1 within its limit has more.
pub const MAX_MARKS: u32 = 4_793_490;
