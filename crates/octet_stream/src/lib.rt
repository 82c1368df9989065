//! Runs of any length as sessions. A long run is recorded by threads whose marks go, block by block, into rings. What
//! reads the rings may write them to a file while the threads run. It is made again by threads that are fed such blocks.
#![tactic(auto)]

mod accessing;
mod closing;
mod feeder;
mod feeding;
mod flushing;
mod following;
mod gathering;
mod handing_on;
mod item;
pub mod laws;
mod long_follower;
mod long_rerun;
mod long_run;
mod next;
mod opening;
mod quiet;
mod receiver;
mod recording;
mod rerunning;
mod track;

pub use feeder::Feeder;
pub use item::Item;
pub use long_follower::LongFollower;
pub use long_rerun::{Divergence, Halt, LongRerun};
pub use long_run::{Full, LongRun};
pub use next::Next;
pub use opening::Room;
pub use receiver::Receiver;
pub use track::Track;
