//! A window of a run: what its threads make after a front, as a script that begins with the objects' values there.
#![tactic(auto)]

mod closing;
mod course;
mod finishing;
mod front;
pub mod laws;
mod lines;
mod notes;
mod objects;
mod ordered;
mod playing;
mod refusal;
mod scripts;
mod shown;
mod table;
mod touching;

pub use closing::{Window, close};
pub use front::Front;
pub use notes::{Note, Notes};
pub use refusal::Refusal;
