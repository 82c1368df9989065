//! The types of scripts, logs and outcomes, and the plain one-thread machine that runs are
//! judged by. Its definitions stand in `specs/`, and its laws in `laws`.
#![tactic(auto)]

mod clone;
mod command;
mod event;
mod journal;
pub mod laws;
mod limits;
mod list;
mod log;
mod name;
mod number;
mod object;
mod outcome;
mod script;
mod start;
mod text;

pub use command::{Access, Command};
pub use event::{Event, Mark, Place};
pub use journal::{log_of, log_of_journal, reads_of, values_read};
pub use limits::{
    DEFAULT_FUEL, MAX_ACCESSES, MAX_FUEL, MAX_LOG_FILE, MAX_MARKS_BEFORE_ACCESS, MAX_NAME,
    MAX_OBJECTS, MAX_PICKS, MAX_SCRIPT_FILE, MAX_THREADS, REGISTERS,
};
pub use list::{List, OutOfMemory};
pub use log::{Gapped, Log, ThreadLog};
pub use name::Name;
pub use number::push_number;
pub use object::Object;
pub use outcome::{End, Outcome, Recorded};
pub use script::Script;
pub use text::{outcome_text, push_object_lines};
