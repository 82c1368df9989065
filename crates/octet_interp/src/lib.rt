//! The interpreter of one thread of a script: it runs the thread's commands up to the next
//! access, safe point, pause or end, and tells it.
#![tactic(auto)]

mod config;
mod context;
mod demand;
mod follower;
pub mod laws;
mod leads;
mod program;

pub use config::Config;
pub use demand::Demand;
pub use follower::Follower;
pub use program::{Program, Stand};
