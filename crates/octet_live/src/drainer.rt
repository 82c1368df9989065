//! The drainer of a log.
ghost use Rattle.std.specs.Prelude.{◌≡◌, ◌≤◌, vec_capacity};
ghost use Rattle.octet_live.specs.declared.drainer.TheConstants.{PIECE};

use octet_base::DeskFault;
use octet_model::Gapped;
use octet_ring::Drain;
use std::alloc::Global;

/// How many marks a piece has at most.
pub(crate) const PIECE: usize = 256;

/// The ends of the threads' rings, room for the marks of a piece, and why no more is added, where a
/// piece was refused.
#[derive(Drop)]
pub struct Drainer {
    pub(crate) alloc: Global,
    pub(crate) drain: Drain,
    pub(crate) marks: Vec<Gapped>,
    pub(crate) kept: Option<DeskFault>,
    ghost room: { PIECE ≤ vec_capacity marks },
}

impl Drainer {
    /// Why no more is added, where a piece was refused.
    pub fn kept(&self) -> Option<DeskFault>
        ensures { result ≡ self.now.kept }
    {
        self.kept
    }
}
