//! Accesses, each with its region.
use crate::Region;
use octet_model::Event;

/// An access, and the region that it is in.
#[derive(Clone, Copy)]
pub(crate) struct Access {
    pub(crate) region: Region,
    pub(crate) event: Event,
}
