//! Schedules: which thread makes the next access of a run, of those that are ready.
#![tactic(auto)]

mod drawn;
mod draws;
mod marks;
mod priorities;
mod ready;
mod schedule;
mod written;

pub use draws::Draws;
pub use marks::marked;
pub use priorities::Changes;
pub use schedule::{MOST_IN_A_ROW, Schedule};
