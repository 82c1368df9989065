//! Runs of a script by real threads: a worker for each thread of the script, all on one shared
//! heap (`run`), where a drainer beside them may write the log meanwhile (`run_live`), or over one
//! machine behind a lock (`run_locked`). `carry` has a worker of a heap carry out one demand of a
//! thread.
#![tactic(auto)]

mod access_backoff;
mod crew;
mod heap;
mod lock;
mod tuning;

pub use heap::{HeapGate, Live, carry, run, run_live};
pub use lock::run_locked;
