//! What an update by a change comes to.
use octet_state::Why;

/// How far an update by a change has come.
#[derive(Clone, Copy, Debug, PartialEq, Eq)]
pub enum Updated {
    /// It was made, and this is the value that it found: what `fetch_add`, `swap` and the others of Rust's
    /// atomics answer. A compare-exchange has stored its new value where this is the one that it expects.
    Made { before: u64 },
    /// It was not made yet.
    Pending { why: Why },
}
