//! An update by a change that a thread wants.
use octet_rule::Change;

/// An update by a change that is wanted.
#[derive(Clone, Copy, Debug, PartialEq, Eq)]
pub struct PendingUpdate {
    pub object: u16,
    pub change: Change,
}
