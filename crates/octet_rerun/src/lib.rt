//! Threads that were recorded are run again by their recording. Before each access a thread asks, and it is
//! told the value that the access had, as soon as all that came before it was made. Where the recording has
//! another access, the thread has diverged, and is told both. Between `Rerun::new` and `Rerun::close` no call
//! takes memory, and none waits.
#![tactic(auto)]

mod asking;
mod closing;
mod events;
mod fault;
mod first;
mod follower;
mod halt;
mod making;
mod opening;
mod rerun;

pub use fault::RerunFault;
pub use first::First;
pub use follower::Follower;
pub use halt::{Divergence, Halt};
pub use octet_recorder::Access;
pub use rerun::Rerun;
