//! Limits of a hunt.

/// Tries of a hunt; there is at least 1.
pub const MAX_TRIES: u32 = 1_000_000;
