//! Where marks stand, by their gaps.
ghost use Rattle.std.specs.Prelude.{◌≡◌, vec_len};
ghost use Rattle.octet_tail.specs.declared.needs.TheConstants.{THREADS};

use crate::needs::THREADS;

/// How many events of a thread have come, and how many of them are accesses.
#[derive(Clone, Copy, Debug, PartialEq, Eq)]
pub struct Come {
    pub events: u64,
    pub accesses: u64,
}

/// How far each thread has come, whose marks are given with the accesses between them.
#[derive(Drop)]
pub struct Places {
    pub(crate) come: Vec<Come>,
    ghost all: { vec_len come ≡ THREADS },
}
