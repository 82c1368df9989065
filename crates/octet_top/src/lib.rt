//! The program's commands: words, files and a desk in, an exit status out.
#![tactic(auto)]

mod live;
mod parallel;
mod program;
mod with_runtime;

pub use octet_commands::Status;
pub use program::serve;
