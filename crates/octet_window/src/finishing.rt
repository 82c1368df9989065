//! What is recorded of a run in order.
ghost use Rattle.std.specs.Prelude.{◌≡◌, map, IfOk};
ghost use Rattle.octet_model.specs.Orders.{values_read, IsFaithful};
ghost use Rattle.octet_window.specs.Ordering.{parts_of, IsAtRest};
ghost use Rattle.octet_window.specs.Recorded.{all_done, HasPrograms, Makes};

use crate::ordered::OrderedRun;
use octet_model::{End, Event, List, OutOfMemory, Outcome, Recorded, Script, log_of, reads_of};
use std::alloc::Global;

// That each thread is done.
fn all_done(alloc: Global, journals: &[List<Event>]) -> Result<List<End>, OutOfMemory>
    ensures { IfOk result (λ ends. ends ≡ all_done journals.now) }
{
    let mut ends = List::new(alloc);
    for _journal in journals {
        ends.push(End::Done)?;
    }
    Ok(ends)
}

impl OrderedRun {
    /// The log and the outcome of the run, of a script with the programs of what its threads have made.
    pub(crate) fn finish(self, alloc: Global, script: &Script) -> Result<Recorded, OutOfMemory>
        requires rest { IsAtRest (parts_of self) }
        requires programs { HasPrograms script.now (parts_of self) }
        ensures faithful { IfOk result (λ r. IsFaithful script.now r.log.threads r.outcome) }
        ensures orders { IfOk result (λ r. Makes script.now r.log.threads self.journals.items) }
        ensures reads { IfOk result (λ r. r.outcome.reads ≡ map values_read self.journals.items) }
        ensures heap { IfOk result (λ r. r.outcome.heap ≡ self.heap.items) }
    {
        let OrderedRun { heap, journals, .. } = self;
        let ends = all_done(alloc, journals.as_slice())?;
        let log = log_of(alloc, journals.as_slice())?;
        let reads = reads_of(alloc, journals.as_slice())?;
        let heap = List::from_vec(heap);
        let outcome = Outcome { ends, reads, heap };
        Ok(Recorded { log, outcome })
    }
}
