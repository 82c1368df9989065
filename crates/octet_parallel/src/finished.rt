//! What a finished replay gives.
use octet_model::{Event, List, Outcome};

/// What a replay comes to whose players are all through: the outcome, and each thread's journal.
#[derive(Debug, Drop)]
pub struct Finished {
    pub outcome: Outcome,
    pub journals: List<List<Event>>,
}
