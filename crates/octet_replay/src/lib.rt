//! The replayer: it follows the lowest order of a script and a log, in which always the lowest
//! thread steps that may, and answers what the threads read and how they ended, or why the log
//! does not fit the script.
#![tactic(auto)]

mod ending;
mod fault;
mod fitting;
mod judge;
pub mod laws;
mod line;
mod need;
mod next_step;
mod order;
mod replayer;
mod stepped;
mod thread;
mod thread_set;
mod tracer;
mod waiting;
mod waits;

pub use fault::ReplayFault;
pub use fitting::{FitFault, fit, wrong_script_line};
pub use line::fit_line;
pub use need::Need;
pub use next_step::{LowestStep, NextStep};
pub use order::{journals, replay};
pub use replayer::Replayer;
pub use replayer::replay::{change_heap, is_draw};
pub use stepped::Stepped;
pub use thread::{ThreadReplay, due_mark};
pub use tracer::Tracer;
pub use waits::Waits;
