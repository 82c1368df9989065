//! Runs of the script by threads that share one heap.
ghost use Rattle.std.specs.Prelude.{◌≡◌, ◌<◌, All, length, IfOk};
ghost use Rattle.octet_model.specs.Orders.{IsFaithful};
ghost use Rattle.octet_heap.specs.Seated.{EachNew, IsNew};
ghost use Rattle.octet_threads.specs.Runners.{AreOf, IsAtRest, IsHeapOf, IsOf};

use crate::crew::Crew;
use crate::heap::gate::HeapGate;
use crate::heap::recording::finish_run;
use crate::heap::runner::{CACHE_PADDING, Runner};
use crate::heap::runs::run_all;
use octet_heap::{Heap, Worker};
use octet_interp::Config;
use octet_model::{OutOfMemory, Recorded, Script};
use std::alloc::Global;
use std::sync::Wait;
use std::thread::Threads;

// A worker of the heap with its thread of the script.
fn runner(
    alloc: Global,
    script: &Script,
    heap: &Heap,
    thread: u8,
    worker: Worker,
) -> Result<Runner, OutOfMemory>
    requires heap { IsHeapOf script.now heap.now }
    requires thread { thread < length script.now.threads }
    requires new { IsNew heap.now thread worker }
    ensures rests { IfOk result (λ runner. IsAtRest heap.now runner) }
    ensures of { IfOk result (λ runner. IsOf script.now thread runner) }
{
    Ok(Runner {
        worker,
        config: Config::new(alloc, script, thread)?,
        feed: None,
        padding: [0; CACHE_PADDING],
    })
}

/// One for each worker.
pub(crate) fn runners(
    alloc: Global,
    script: &Script,
    heap: &Heap,
    workers: Vec<Worker>,
) -> Result<Vec<Runner>, OutOfMemory>
    requires heap { IsHeapOf script.now heap.now }
    requires as_many { length workers.items ≡ length script.now.threads }
    requires new { EachNew heap.now workers.items }
    ensures rest { IfOk result (λ runners. All (IsAtRest heap.now) runners.items) }
    ensures of { IfOk result (λ runners. AreOf script.now runners.items) }
{
    let mut runners = Vec::new(alloc);
    let mut thread = 0;
    for worker in workers {
        runners.push(runner(alloc, script, heap, thread, worker)?)?;
        thread += 1;
    }
    Ok(runners)
}

/// Runs the script by a worker for each of its threads, all beside each other on one shared heap,
/// and answers the log and the outcome, which are a faithful recording. Before each access a
/// worker passes the gate and is noted by it. A worker whose access has to wait backs off, and one
/// whose accesses had to wait a lot rests before the next one, marked as blocked. So does one whose
/// thread passes safe points and writes nothing, now and then. Reserves all the room that the run needs.
/// May wait: nothing says that the workers come to an end.
pub fn run<R: Threads + Wait + Sync, G: HeapGate>(
    rt: &R,
    alloc: Global,
    script: &Script,
    gate: &G,
) -> Result<Recorded, OutOfMemory>
    ensures faithful { IfOk result (λ r. IsFaithful script.now r.log.threads r.outcome) }
{
    let (heap, workers) = Heap::new(alloc, script)?;
    let mut runners = runners(alloc, script, &heap, workers.into_vec())?;
    let crew = Crew::new(runners.len());
    run_all(rt, &heap, gate, &crew, runners.as_mut_slice());
    finish_run(alloc, script, heap, runners)
}
