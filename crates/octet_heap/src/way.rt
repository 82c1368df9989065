//! How far a thread comes to an access before the step on the cell.
use octet_state::Why;

/// How far a thread has come to an access: to the step on the cell, or to where another thread has to go
/// first.
#[derive(Clone, Copy, Debug, PartialEq, Eq)]
pub(crate) enum Way {
    /// The state lets the thread pass.
    Passes,
    /// It does not yet.
    Waits { why: Why },
}
