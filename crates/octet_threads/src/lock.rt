//! Runs over one machine behind a lock, by workers that take turns.
mod locked;
mod step;
mod worker;

pub use locked::run_locked;
