//! What a thread of a long run hands on as blocks of a marks file, and such a file as what its threads are fed. Neither
//! takes a file itself: bytes go out and in, whenever the host likes.
#![tactic(auto)]

mod fault;
pub mod laws;
mod reader;
mod same;
mod sums;
mod writer;

pub use fault::{FeedFault, GatherFault};
pub use reader::{BlockReader, MAX_TAKEN, Rest, Waiting};
pub use writer::{BlockWriter, Gathered};
