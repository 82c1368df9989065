//! One body for both runs of a thread. A session is what the threads of a run share: a recorder, by which a run becomes
//! a script, or a second run, in which each thread is told what it was told before. A thread that is written over the
//! trait `Session` is recorded and run again by the same code. No call takes memory, and none but `make` and `end` waits.
#![tactic(auto)]

mod again;
mod answers;
mod not_made;
mod recording;
mod second_thread;
mod session;
mod waiting;

pub use not_made::NotMade;
pub use octet_recorder::{Access, Change};
pub use octet_rerun::{Divergence, Halt};
pub use second_thread::SecondThread;
pub use session::Session;
pub use waiting::{end, make};
