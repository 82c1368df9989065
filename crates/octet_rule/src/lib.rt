//! The words of the protocol, which threads share, and the seats by which threads step on them.
//! Each call is one step of the protocol, and takes no memory and no lock.
#![tactic(auto)]

mod change;
mod entered;
pub mod laws;
mod limits;
mod plays;
mod states;
mod tried;
mod view;
mod words;

pub use change::Change;
pub use entered::Entered;
pub use limits::MAX_OBJECTS_OF_HEAP;
pub use tried::Tried;
pub use words::{Seat, Words};
