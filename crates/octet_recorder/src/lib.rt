//! A run of any threads on the shared heap, recorded as a script. Each thread has a track, which keeps the
//! straight-line program of the accesses that the thread has made. When the recorder is closed, these
//! programs with their log and outcome are a faithful recording, whatever the threads did, and whoever
//! wrote them. Between `Recorder::new` and `Recorder::close` no call takes memory, and none waits.
#![tactic(auto)]

mod access;
mod accessors;
mod calls;
mod closing;
pub mod laws;
mod noting;
mod opening;
mod recorder;
mod recording;
mod track;
mod updating;

pub use access::Access;
pub use octet_heap::{Change, Poll, Updated};
pub use recorder::Recorder;
pub use recording::Recording;
pub use track::{LINES_OF_ACCESS, Track};
