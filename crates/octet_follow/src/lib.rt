//! Threads that run again by the marks of a recording alone. Before each access a follower waits for
//! the marks that stand there, and then makes the access straight on the shared cells. It keeps a
//! buffer of marks, of a fixed room, and nothing of an access.
#![tactic(auto)]

mod access;
mod course;
mod ending;
mod follower;
mod halt;
pub mod laws;
mod view;
mod words;

pub use access::Access;
pub use course::Course;
pub use ending::Ending;
pub use follower::Follower;
pub use halt::Halt;
pub use octet_digest::Digest;
pub use octet_rule::Change;
