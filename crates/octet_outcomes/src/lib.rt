//! The outcomes of a script: the final heaps of all interleavings of its threads.
#![tactic(auto)]

mod closers;
mod endings;
mod guide;
mod hash;
pub mod laws;
mod live;
mod moments;
mod outcomes;
mod quiet;
mod rows;
mod search;
mod slots;
mod stands;
mod stuck;
mod table;
mod tree;
mod waiting;

pub use endings::Ending;
pub use outcomes::{Outcomes, Seen, explore};
