//! The last accesses of all threads, once they are found.
ghost use Rattle.std.specs.Prelude.{◌≡◌, ◌≤◌, length, IfOk, IfErr};
ghost use Rattle.octet_model.specs.declared.limits.TheConstants.{MAX_THREADS};
ghost use Rattle.octet_tail.specs.Searches.{AreParts, HasNoParts, HasNoPartOf, IsPartOf};

use crate::fault::SearchFault;
use crate::fronts::Fronts;
use crate::parts::Part;
use crate::tail::Made;
use crate::texts::Texts;
use crate::window::WindowFault;
use octet_model::{List, OutOfMemory};
use std::alloc::Global;

/// The last accesses of all threads: the fronts between which they lie, and the part of each thread.
#[derive(Drop)]
pub struct Found {
    pub(crate) fronts: Fronts,
    // Of each thread, in order.
    pub(crate) parts: List<Part>,
}

// The part of a thread between the fronts, which has made so much.
#[tactic(auto, using(crate::proofs::Searching::no_part_for))]
fn part_of(
    alloc: Global,
    fronts: &Fronts,
    thread: u8,
    made: &Made,
    last: u64,
) -> Result<Part, SearchFault>
    ensures part { IfOk result (IsPartOf fronts.now last thread made.now) }
    ensures fault { IfErr result (HasNoPartOf fronts.now last thread made.now) }
{
    let Some(tail) = &made.tail else {
        return Err(SearchFault::NotNoted);
    };
    match fronts.part(alloc, thread, made.accesses, last, tail) {
        Ok(part) => Ok(part),
        Err(fault) => Err(SearchFault::from(fault)),
    }
}

/// The parts of threads between the fronts, which have made so much.
pub(crate) fn parts_of(
    alloc: Global,
    fronts: &Fronts,
    made: &[Made],
    last: u64,
) -> Result<List<Part>, SearchFault>
    requires few { length made.now ≤ MAX_THREADS }
    ensures parts { IfOk result (λ parts. AreParts fronts.now last 0 made.now parts) }
    ensures count { IfOk result (λ parts. length parts ≡ length made.now) }
    ensures fault { IfErr result (HasNoParts fronts.now last made.now) }
{
    let mut parts = List::new(alloc);
    for (thread, one) in made.iter().enumerate() {
        parts.push(part_of(alloc, fronts, thread as u8, one, last)?)?;
    }
    Ok(parts)
}

impl Found {
    ghost use Rattle.octet_tail.specs.Windows.{AreTexts, HasNoWindow};

    /// The files of the window between the fronts.
    pub fn window(&self, alloc: Global) -> Result<Texts, WindowFault>
        requires some { 1 ≤ length self.now.parts }
        requires few { length self.now.parts ≤ MAX_THREADS }
        ensures texts { IfOk result (AreTexts self.now.fronts self.now.parts) }
        ensures fault { IfErr result (HasNoWindow self.now.fronts self.now.parts) }
    {
        self.fronts.window(alloc, self.parts.as_slice())
    }
}
