//! Replays of a part of a log: only the past of one event, and up to the first event that a test
//! accepts.
#![tactic(auto)]

mod cursor;
mod cutting;
mod finding;
mod gathering;
pub mod laws;
mod replaying;
mod slicing;

pub use finding::{Found, first};
pub use slicing::{SliceFault, Sliced, slice};
