//! What a run leaves.
use octet_model::{Log, Outcome, Script};

/// A run as a script, with its log and its outcome.
#[derive(Debug, Drop)]
pub struct Recording {
    pub script: Script,
    pub log: Log,
    pub outcome: Outcome,
}
