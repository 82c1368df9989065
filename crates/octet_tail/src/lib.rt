//! The last accesses of a run of any length, and the fronts between which they lie, found by the pieces of its marks file; and what
//! the threads make between them, as a script with its log.
#![tactic(auto)]

mod fault;
mod finder;
mod finders;
mod found;
mod fronts;
mod merging;
mod needing;
mod needs;
mod parts;
mod placed;
mod places;
mod placing;
mod search;
mod tail;
mod tailed;
mod texts;
mod window;

pub use fault::SearchFault;
pub use found::Found;
pub use search::Search;
pub use tail::{Made, Tail};
pub use tailed::{Tailed, TailedThread};
pub use texts::Texts;
pub use window::WindowFault;
