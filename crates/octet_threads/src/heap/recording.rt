//! What is recorded of a run whose threads have all ended.
ghost use Rattle.std.specs.Prelude.{◌≡◌, ◌<◌, All, map, IfOk};
ghost use Rattle.octet_model.specs.Journals.{log_of};
ghost use Rattle.octet_model.specs.Orders.{IsFaithful};
ghost use Rattle.octet_heap.specs.Seated.{journals_of};
ghost use Rattle.octet_interp.specs.Demands.{next_demand};
ghost use Rattle.octet_threads.specs.Work.{workers_in};
ghost use Rattle.octet_threads.specs.Runners.{AreOf, HasEnded, IsHeapOf, end_told};

use crate::heap::runner::Runner;
use octet_heap::{Closed, Heap, Worker};
use octet_interp::Demand;
use octet_model::{End, List, Log, OutOfMemory, Outcome, Recorded, Script};
use std::alloc::Global;

// How a thread ended that demands its end.
fn end_told(demand: Demand) -> End
    ensures { result ≡ end_told demand }
{
    match demand {
        Demand::Ended { end } => end,
        _ => End::Spent,
    }
}

// How each thread ended.
fn ends_of(alloc: Global, runners: &[Runner]) -> Result<List<End>, OutOfMemory>
    ensures { IfOk result (λ ends. ends ≡ map (λ runner. end_told (next_demand runner.config)) runners.now) }
{
    let mut ends = List::new(alloc);
    for runner in runners {
        ends.push(end_told(runner.config.peek()))?;
    }
    Ok(ends)
}

// The workers, without their threads.
fn workers_of(alloc: Global, runners: Vec<Runner>) -> Result<List<Worker>, OutOfMemory>
    ensures { IfOk result (λ workers. workers ≡ map (λ runner. runner.worker) runners.items) }
{
    let mut workers = List::new(alloc);
    for runner in runners {
        workers.push(runner.worker)?;
    }
    Ok(workers)
}

/// Ends the run, and answers its log and its outcome.
pub(crate) fn finish_run(
    alloc: Global,
    script: &Script,
    heap: Heap,
    runners: Vec<Runner>,
) -> Result<Recorded, OutOfMemory>
    requires heap { IsHeapOf script.now heap }
    requires runners { AreOf script.now runners.items }
    requires ended { All (HasEnded heap) runners.items }
    ensures log { IfOk result (λ r. r.log.threads ≡ log_of (journals_of (workers_in runners.items))) }
    ensures faithful { IfOk result (λ r. IsFaithful script.now r.log.threads r.outcome) }
{
    let ends = ends_of(alloc, runners.as_slice())?;
    let workers = workers_of(alloc, runners)?;
    let Closed { logs, reads, heap } = heap.close(alloc, workers)?;
    let log = Log { threads: logs };
    let outcome = Outcome { ends, reads, heap };
    Ok(Recorded { log, outcome })
}
