//! The seats of a table of atomic words, whatever they are seats of. Seat 0 deals the others, and they
//! join it again; each that joins leaves something. The laws of that stand in `proofs/lemmas/`, for every
//! kind of view and of what is left. The words of a table are laid out here, and its cells are read.
#![tactic(auto)]

mod cells;
mod layout;

pub use cells::read_cells;
pub use layout::lay_out;
