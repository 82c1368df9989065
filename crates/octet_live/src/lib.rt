//! A log that is written while its threads run, whatever they do: each thread sends its marks by a feed,
//! and a drainer beside them adds what was sent to a file, in pieces.
#![tactic(auto)]

mod bells;
mod drainer;
mod draining;
mod feed;
pub mod laws;
mod left;
mod opening;
mod pieces;
mod tuning;

pub use bells::{Bell, Bells};
pub use drainer::Drainer;
pub use feed::Feed;
pub use opening::feeds;
