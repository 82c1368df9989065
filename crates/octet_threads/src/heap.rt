//! Runs on the shared heap, by a worker for each thread of the script.
mod carrying;
mod gate;
mod live;
mod pace;
mod recording;
mod runner;
mod running;
mod runs;

pub use carrying::carry;
pub use gate::HeapGate;
pub use live::{Live, run_live};
pub use running::run;
