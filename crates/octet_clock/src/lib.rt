//! The check that a log orders all conflicts, by vector clocks (Lamport's happens-before; vector
//! clocks after Mattern and Fidge).
#![tactic(auto)]

mod accesses;
mod checker;
mod clock;
mod journal_check;
pub mod laws;
mod log_walk;
mod marks;
mod sharing;
mod sources;
mod verdict;
mod verified;

pub use journal_check::ordered;
pub use log_walk::untied;
pub use verdict::Verdict;
pub use verified::{Verified, verify, verify_and_replay};
