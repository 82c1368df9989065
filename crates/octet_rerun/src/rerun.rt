//! What the threads of a second run share.

use crate::first::First;
use crate::halt::Divergence;
use octet_model::{Event, List};
use octet_parallel::Field;

/// What the threads of a second run share: the field on which they make their events, what was recorded of
/// each, and where one of them has diverged first.
#[derive(Drop)]
pub struct Rerun {
    pub(crate) field: Field,
    pub(crate) recorded: List<List<Event>>,
    pub(crate) diverged: First<Divergence>,
}
