//! Tests across crates that start no thread: desks, marks files, replays of logs, and the heap step by step.
#![tactic(auto)]

#[cfg(test)]
mod atomicity_tests;
#[cfg(test)]
mod base_tests;
#[cfg(test)]
mod field_tests;
#[cfg(test)]
mod heap_tests;
#[cfg(test)]
mod hunt_tests;
#[cfg(test)]
mod marks_tests;
#[cfg(test)]
mod model_tests;
#[cfg(test)]
mod replay_tests;
#[cfg(test)]
mod ring_tests;
#[cfg(test)]
mod samples;
#[cfg(test)]
mod state_tests;
