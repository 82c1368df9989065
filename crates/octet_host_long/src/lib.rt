//! Threads of runs of any length, as a host drives them call by call, and the streams by which their marks go out and in.
//! Such a run is recorded by its marks alone, and made again by a marks file.
#![tactic(auto)]

mod closing;
mod following;
mod inlet;
mod opening;
mod outlet;
mod recorded;
mod repeated;

pub use closing::close_recorded;
pub use following::{ClosedAgain, close_repeated, follow, head_of};
pub use inlet::Inlet;
pub use opening::{ROOM, open};
pub use outlet::{Outlet, Taken};
pub use recorded::{LongHeap, LongRecorded};
pub use repeated::{LongCourse, LongRepeated};
