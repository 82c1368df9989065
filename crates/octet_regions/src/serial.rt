//! What is found of regions.
use crate::{Hop, Region};
use octet_model::{List, Outcome};

/// An order in which the regions can run one after another, or a cycle of hops.
#[derive(Debug, Drop)]
pub enum Serial {
    /// The serial choice took all regions, in this order.
    Order { regions: List<Region> },
    /// It ended with regions left, and these hops lead from one to another, and back.
    Cycle { hops: List<Hop> },
}

/// What is found of the regions of a script and a log, and what the log's lowest order comes to.
#[derive(Debug, Drop)]
pub struct Serialized {
    pub serial: Serial,
    pub outcome: Outcome,
}
