//! A tool on the heap alone, over the clauses of models: two threads of its own that add to one object.
ghost use Rattle.std.specs.Prelude.{◌≡◌, ◌<◌, ◌+◌, []};
ghost use Rattle.std.specs.Thread.{IsSync};
ghost use Rattle.octet_heap.specs.Builders.{accesses_of};
ghost use Rattle.octet_heap.specs.Models.{heap_model, worker_model};
ghost use Rattle.octet_heap.specs.Seated.{RestsAs, Starts};
ghost use Rattle.octet_heap.specs.Workers.{IsIdle, IsWorkerOf, Rests};

use crate::samples::script;
use crossbeam_utils::Backoff;
use octet_heap::{Closed, Heap, Poll, Worker};
use octet_model::{DEFAULT_FUEL, List, OutOfMemory};
use octet_state::Mode;
use std::alloc::Global;
use std::sync::Wait;
use std::test::Fail;
use std::thread::{Threads, join_mut};

/// How often each thread adds 1 to the object.
const ROUNDS: u32 = 100;

/// One access, polled until it is made.
fn access<R: Wait>(rt: &R, heap: &Heap, worker: &mut Worker, mode: Mode, value: u64) -> u64
    requires own { IsWorkerOf heap.now worker.old }
    requires idle { IsIdle worker.old }
    requires object { 0 < (heap_model heap.now).objects }
    requires more { accesses_of (worker_model worker.old) < (heap_model heap.now).fuel }
    ensures own { IsWorkerOf heap.now worker.new }
    ensures idle { IsIdle worker.new }
    ensures number { (worker_model worker.new).number ≡ (worker_model worker.old).number }
    ensures count { accesses_of (worker_model worker.new) ≡ accesses_of (worker_model worker.old) + 1 }
{
    heap.begin(worker, 0, mode, value);
    let backoff = Backoff::new();
    for _ in rt.forever() {
        match heap.poll(worker) {
            Poll::Ready { value } => return value,
            Poll::Pending { .. } => backoff.snooze(),
        }
    }
    unreachable!()
}

/// What a thread does, from its start to its end.
fn work<R: Wait>(rt: &R, heap: &Heap, worker: &mut Worker)
    requires heap { ((heap_model heap.now).objects ≡ 1) × ((heap_model heap.now).fuel ≡ DEFAULT_FUEL) }
    requires own { IsWorkerOf heap.now worker.old }
    requires rests { Rests worker.old }
    requires fresh { (worker_model worker.old).journal ≡ [] }
    ensures own { IsWorkerOf heap.now worker.new }
    ensures rests { Rests worker.new }
    ensures number { (worker_model worker.new).number ≡ (worker_model worker.old).number }
{
    heap.unblock(worker);
    for _ in 0..ROUNDS {
        access(rt, heap, worker, Mode::Update, 1);
        heap.safe_point(worker);
    }
    heap.block(worker);
}

/// Both threads, beside each other.
fn run<R: Threads + Wait + Sync>(rt: &R, heap: &Heap, first: &mut Worker, second: &mut Worker)
    requires heap { ((heap_model heap.now).objects ≡ 1) × ((heap_model heap.now).fuel ≡ DEFAULT_FUEL) }
    requires first { Starts heap.now 0 first.old }
    requires second { Starts heap.now 1 second.old }
    ensures first { RestsAs heap.now 0 first.new }
    ensures second { RestsAs heap.now 1 second.new }
{
    join_mut(
        rt,
        &mut || -> ()
            requires { IsSync R.row × ((heap_model heap.now).objects ≡ 1) × ((heap_model heap.now).fuel ≡ DEFAULT_FUEL) × Starts heap.now 0 first.now }
            ensures { RestsAs heap.entry.now 0 first.exit.now }
        { work(rt, heap, first) },
        &mut || -> ()
            requires { IsSync R.row × ((heap_model heap.now).objects ≡ 1) × ((heap_model heap.now).fuel ≡ DEFAULT_FUEL) × Starts heap.now 1 second.now }
            ensures { RestsAs heap.entry.now 1 second.exit.now }
        { work(rt, heap, second) },
    );
}

/// Ends the run: the workers are handed back, in order.
fn closed(heap: Heap, alloc: Global, first: Worker, second: Worker) -> Result<Closed, OutOfMemory>
    requires heap { (heap_model heap).threads ≡ 2 }
    requires first { RestsAs heap 0 first }
    requires second { RestsAs heap 1 second }
{
    let mut workers = List::new(alloc);
    workers.push(first)?;
    workers.push(second)?;
    heap.close(alloc, workers)
}

/// A run, from the script to what was recorded. The script's threads have no commands: what they do is the tool's own.
fn recorded<R: Threads + Wait + Sync>(rt: &R, alloc: Global) -> Result<Closed, Fail> {
    let script = script(alloc, b"object x 0\nthread\nthread\n")?;
    if script.threads.len() != 2 || script.objects.len() != 1 || script.fuel != DEFAULT_FUEL {
        return Err(Fail::new("the script has two threads and one object"));
    }
    let (heap, workers) = Heap::new(alloc, &script)?;
    let mut workers = workers.into_vec();
    let mut second = workers.remove(1);
    let mut first = workers.remove(0);
    run(rt, &heap, &mut first, &mut second);
    Ok(closed(heap, alloc, first, second)?)
}

#[test]
fn a_tool_runs_threads_of_its_own(rt: HostRuntime) -> Result<(), Fail> {
    let closed = recorded(&rt, rt.alloc())?;
    assert_eq!(rt; closed.heap.as_slice(), [200u64].as_slice());
    let mut marks: usize = 0;
    for log in closed.logs.as_slice() {
        assert_eq!(rt; log.accesses, ROUNDS);
        marks = marks.saturating_add(log.marks.len());
    }
    assert!(rt; marks > 0);
    Ok(())
}
