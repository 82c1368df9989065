//! Regions of a script's threads: an order in which they could have run one after another, with the
//! same outcome, or a cycle that shows that the serial choice finds none.
#![tactic(auto)]

mod access;
mod bounds;
mod chooser;
mod gather;
mod last;
pub mod laws;
mod order;
mod queue;
mod region;
mod serial;
mod walk;

pub use order::{regions, serialize};
pub use region::{Hop, Region};
pub use serial::{Serial, Serialized};
