//! What the check answers.
use octet_model::Place;

/// Whether a log orders all conflicts.
#[derive(Clone, Copy, Debug, PartialEq, Eq)]
pub enum Verdict {
    /// Of every two conflicting accesses one happens before the other.
    Ordered,
    /// The first access in the lowest order that some earlier conflicting access does not happen
    /// before is `second`. Of these earlier ones `first` is by the lowest thread, and is its last
    /// conflicting access before `second`.
    Unordered { first: Place, second: Place },
}
