//! The machine of the protocol in plain memory: the threads of a script, of which one at a time
//! takes one step on the words that all share.
#![tactic(auto)]

mod goes;
mod journal;
pub mod laws;
mod machine;
mod memory;
mod results;
mod rooms;
mod rounds;
mod run;
mod same;
mod turned;

pub use goes::go;
pub use machine::Machine;
pub use rooms::Rooms;
pub use rounds::{play, take_rounds};
pub use turned::Turned;
