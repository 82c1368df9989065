//! What a run of any length leaves.
use octet_model::List;

/// What a run of any length leaves: the objects' final values.
#[derive(Drop)]
pub struct Values {
    pub(crate) values: List<u64>,
}
