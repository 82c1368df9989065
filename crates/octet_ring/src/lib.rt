//! Rings by which each thread sends its marks to one receiver. No call waits for the other end.
#![tactic(auto)]

mod drain;
mod limits;
mod opening;
mod sender;

pub use drain::Drain;
pub use limits::MAX_ROOM;
pub use opening::rings;
pub use sender::Sender;
