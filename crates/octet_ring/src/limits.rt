//! The limits of rings.

/// Marks that a ring has room for; there is room for at least 1.
pub const MAX_ROOM: u32 = 4_096;
