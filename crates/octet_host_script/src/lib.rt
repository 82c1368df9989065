//! Threads of runs that are kept as a script with its log, as a host drives them call by call. Such a run is recorded on a
//! heap as a text declares it, and made again by a script and its log.
#![tactic(auto)]

mod closing;
mod fault;
mod following;
mod kept;
mod opening;
mod recorded;
mod repeated;

pub use closing::close_recorded;
pub use fault::{FollowFault, OpenFault};
pub use following::{close_repeated, follow};
pub use kept::Kept;
pub use opening::{declared, open};
pub use recorded::{Heap, Recorded};
pub use repeated::{Course, Repeated};
