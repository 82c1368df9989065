//! What a step of a replayer comes to.
use octet_model::Event;

/// What a step comes to.
#[derive(Clone, Copy, Debug, PartialEq, Eq)]
pub enum Stepped {
    /// The thread made the event.
    Made { thread: u8, event: Event },
    /// No thread may step.
    Halted,
}
