//! Two workers take turns at one object, one after another on one thread of the machine.
ghost use Rattle.std.specs.Prelude.{◌≡◌, IfOk};
ghost use Rattle.octet_model.specs.declared.limits.TheConstants.{DEFAULT_FUEL};
ghost use Rattle.octet_state.specs.declared.why.Why.TheVariants.{Held as IsHeld, Unanswered as NoAnswer};
ghost use Rattle.octet_rule.specs.Seats.{threads_of, objects_of};
ghost use Rattle.octet_heap.specs.declared.poll.Poll.TheVariants.{Pending};
ghost use Rattle.octet_heap.specs.Workers.{seat_of, IsWorkerOf, IsUnderWay, StandsAfter};
ghost use Rattle.octet_heap.specs.Seated.{RestsAs, IsNew};

use crate::samples::script;
use octet_heap::{Closed, Heap, Poll, Worker};
use octet_model::{DEFAULT_FUEL, List, Mark, OutOfMemory};
use octet_state::{Mode, Why};
use std::alloc::Global;
use std::process::Abort;
use std::test::*;

/// The heap of two threads and one object, and its workers.
fn two_workers(alloc: Global) -> Result<(Heap, Worker, Worker), Fail>
    ensures heap { IfOk result (λ opened. (threads_of opened.0.words ≡ 2) × (objects_of opened.0.words ≡ 1) × (opened.0.fuel ≡ DEFAULT_FUEL)) }
    ensures first { IfOk result (λ opened. IsNew opened.0 0 opened.1) }
    ensures second { IfOk result (λ opened. IsNew opened.0 1 opened.2) }
{
    let script = script(alloc, b"object x 9\nthread\nthread\n")?;
    if script.threads.len() != 2 || script.objects.len() != 1 || script.fuel != DEFAULT_FUEL {
        return Err(Fail::new("the script has two threads and one object"));
    }
    let (heap, workers) = Heap::new(alloc, &script)?;
    let mut workers = workers.into_vec();
    let second = workers.remove(1);
    let first = workers.remove(0);
    Ok((heap, first, second))
}

/// Ends the run of both.
fn close_both(
    heap: Heap,
    alloc: Global,
    first: Worker,
    second: Worker,
) -> Result<Closed, OutOfMemory>
    requires heap { threads_of heap.words ≡ 2 }
    requires first { RestsAs heap 0 first }
    requires second { RestsAs heap 1 second }
{
    let mut workers = List::new(alloc);
    workers.push(first)?;
    workers.push(second)?;
    heap.close(alloc, workers)
}

fn unanswered(by: u8, word: u64) -> Poll
    ensures { result ≡ Pending (NoAnswer by word) }
{
    Poll::Pending {
        why: Why::Unanswered { by, word },
    }
}

fn held(by: u8, word: u64) -> Poll
    ensures { result ≡ Pending (IsHeld by word) }
{
    Poll::Pending {
        why: Why::Held { by, word },
    }
}

/// A poll of the access that a worker has begun.
fn polled(heap: &Heap, worker: &mut Worker) -> Poll
    requires own { IsWorkerOf heap.now worker.old }
    requires begun { IsUnderWay worker.old }
    ensures own { IsWorkerOf heap.now worker.new }
    ensures number { (seat_of worker.new).number ≡ (seat_of worker.old).number }
    ensures stands { StandsAfter result worker.new }
{
    heap.poll(worker)
}

/// Each of two workers asks the other one to give the object up.
fn take_turns<R: Abort>(rt: &R, heap: &Heap, first: &mut Worker, second: &mut Worker)
    requires heap { (objects_of heap.now.words ≡ 1) × (heap.now.fuel ≡ DEFAULT_FUEL) }
    requires first { IsNew heap.now 0 first.old }
    requires second { IsNew heap.now 1 second.old }
    ensures first { RestsAs heap.now 0 first.new }
    ensures second { RestsAs heap.now 1 second.new }
{
    heap.unblock(first);
    heap.unblock(second);
    heap.begin(second, 0, Mode::Write, 4);
    let asks = polled(heap, second);
    assert!(rt; asks == unanswered(0, 2));
    heap.begin(first, 0, Mode::Write, 6);
    let shut_out = polled(heap, first);
    assert!(rt; shut_out == held(1, 0x6100_0000_0000_0000));
    let made = polled(heap, second);
    assert!(rt; made == Poll::Ready { value: 4 });
    let asks_too = polled(heap, first);
    assert!(rt; asks_too == unanswered(1, 1));
    heap.block(second);
    let made_too = polled(heap, first);
    assert!(rt; made_too == Poll::Ready { value: 6 });
    heap.block(first);
}

/// The one mark of a thread, which is a join before its one access.
fn join_of(closed: &Closed, thread: usize) -> Option<Mark> {
    let log = closed.logs.get(thread)?;
    let marks = log.marks.as_slice();
    let first = *marks.first()?;
    let is_one = marks.len() == 1 && first.gap == 0 && log.accesses == 1;
    is_one.then_some(first.mark)
}

#[test]
fn two_writers_take_turns(rt: HostRuntime) -> Result<(), Fail> {
    let alloc = rt.alloc();
    let (heap, mut first, mut second) = two_workers(alloc)?;
    take_turns(&rt, &heap, &mut first, &mut second);
    let closed = close_both(heap, alloc, first, second)?;
    assert_eq!(rt; closed.heap.as_slice(), [6u64].as_slice());
    let joins = [
        Some(Mark::Join { from: 1, upto: 2 }),
        Some(Mark::Join { from: 0, upto: 0 }),
    ];
    assert_eq!(rt; [join_of(&closed, 0), join_of(&closed, 1)], joins);
    Ok(())
}
