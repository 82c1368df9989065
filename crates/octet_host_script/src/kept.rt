//! What a run leaves.
use octet_model::List;

/// A run as the text of a script and the bytes of its log, and the objects' final values.
#[derive(Drop)]
pub struct Kept {
    pub script: Vec<u8>,
    pub log: Vec<u8>,
    pub values: List<u64>,
}
