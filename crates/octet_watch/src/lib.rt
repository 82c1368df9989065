//! Functions that are kept beside what is known of them, and that journals are read by.
#![tactic(auto)]

mod classes;
mod stop;

pub use classes::{Class, Classes};
pub use stop::{Answers, Stop, Test};
