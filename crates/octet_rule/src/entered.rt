//! How an access begins.
use octet_state::{Act, StateWord};

/// Whether an access was made at once, or what its thread found.
#[derive(Clone, Copy, Debug, PartialEq, Eq)]
pub enum Entered {
    /// It was made. A read was told the value that it read, and an update the value before.
    Made {
        told: u64,
    },
    /// It was not: the word of the object's state, the state, and what the thread does about it.
    Loaded {
        word: u64,
        state: StateWord,
        act: Act,
    },
}
