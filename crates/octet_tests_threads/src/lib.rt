//! Tests across crates that start threads: runs, logs that are written meanwhile, the heap, and whole commands.
#![tactic(auto)]

#[cfg(test)]
mod desks;
#[cfg(test)]
mod gates;
#[cfg(test)]
mod heap_gate_tests;
#[cfg(test)]
mod live_tests;
#[cfg(test)]
mod locked_tests;
#[cfg(test)]
mod loop_tests;
#[cfg(test)]
mod safe_tests;
#[cfg(test)]
mod samples;
#[cfg(test)]
mod thread_tests;
#[cfg(test)]
mod tool_tests;
#[cfg(test)]
mod top_tests;
