//! Large scripts, generated from a number: eight threads of 20,000 accesses each.
#![tactic(auto)]

mod draws;
mod generator;
pub mod laws;

pub use generator::make;
