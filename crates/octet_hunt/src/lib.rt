//! Hunts for a run of a script that goes wrong: many runs, each by a schedule of its own, in which
//! a thread may be stopped before each of its accesses. Of the run that is found, one with fewer
//! preemptions is looked for.
#![tactic(auto)]

mod aim;
mod fewer;
mod given;
mod limits;
mod runs;
mod tries;

pub use aim::{Aim, are_done};
pub use given::{find_by, record_by};
pub use limits::MAX_TRIES;
pub use tries::{Find, hunt};
