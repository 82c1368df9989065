//! A worker carries out one demand of its thread on the heap.
ghost use Rattle.std.specs.Prelude.{◌≡◌, ◌<◌, true};
ghost use Rattle.std.specs.Option.{is_some, ForSome};
ghost use Rattle.octet_model.specs.Journals.{access_count};
ghost use Rattle.octet_rule.specs.Seats.{objects_of};
ghost use Rattle.octet_heap.specs.declared.poll.Poll.TheVariants.{Ready};
ghost use Rattle.octet_heap.specs.Calls.{access_to};
ghost use Rattle.octet_heap.specs.Growth.{AddsAccess};
ghost use Rattle.octet_heap.specs.Walks.{access_task};
ghost use Rattle.octet_heap.specs.Workers.{seat_of, IsWorkerOf, IsIdle};
ghost use Rattle.octet_threads.specs.Tasks.{Does};
ghost use Rattle.octet_threads.specs.Carrying.{CanCarry, Carries};

use crate::access_backoff::AccessBackoff;
use crate::heap::gate::HeapGate;
use octet_heap::{Heap, Poll, Worker};
use octet_interp::{Config, Demand};
use octet_state::Mode;
use std::sync::Wait;
use std::thread::Threads;

// Polls the access that was begun until it is made, and answers its value.
fn make<R: Wait>(rt: &R, heap: &Heap, worker: &mut Worker, backoff: &mut AccessBackoff) -> u64
    requires own { IsWorkerOf heap.now worker.old }
    requires begun { is_some worker.old.pending ≡ true }
    ensures own { IsWorkerOf heap.now worker.new }
    ensures idle { IsIdle worker.new }
    ensures number { (seat_of worker.new).number ≡ (seat_of worker.old).number }
    ensures steps { ForSome worker.old.pending (λ access. Does (access_task access) (seat_of worker.old) (seat_of worker.new)) }
    ensures journal { ForSome worker.old.pending (λ access. AddsAccess access (seat_of worker.old) (Ready result) (seat_of worker.new)) }
{
    for _ in rt.forever() {
        match heap.poll(worker) {
            Poll::Ready { value } => return value,
            Poll::Pending { why } => backoff.wait(rt, why, worker.accesses()),
        }
    }
    unreachable!()
}

// Makes an access, and answers the value that it read or wrote, or that an update left.
#[inline(always)]
fn access<R: Threads + Wait + Sync, G: HeapGate>(
    rt: &R,
    heap: &Heap,
    worker: &mut Worker,
    gate: &G,
    backoff: &mut AccessBackoff,
    object: u16,
    mode: Mode,
    value: u64,
) -> u64
    requires own { IsWorkerOf heap.now worker.old }
    requires idle { IsIdle worker.old }
    requires object { object < objects_of heap.now.words }
    requires more { access_count (seat_of worker.old).journal < heap.now.fuel }
    ensures own { IsWorkerOf heap.now worker.new }
    ensures idle { IsIdle worker.new }
    ensures number { (seat_of worker.new).number ≡ (seat_of worker.old).number }
    ensures steps { Does (access_task (access_to object mode value)) (seat_of worker.old) (seat_of worker.new) }
    ensures journal { AddsAccess (access_to object mode value) (seat_of worker.old) (Ready result) (seat_of worker.new) }
{
    let thread = worker.thread();
    gate.pass(rt, thread, worker.accesses());
    gate.note(thread, worker);
    match heap.access_or_begin(worker, object, mode, value) {
        Poll::Ready { value } => value,
        Poll::Pending { why } => {
            backoff.wait(rt, why, worker.accesses());
            make(rt, heap, worker, backoff)
        }
    }
}

/// `carry`, by a worker that keeps its backoff from one demand to the next.
pub(crate) fn carry_with_backoff<R: Threads + Wait + Sync, G: HeapGate>(
    rt: &R,
    heap: &Heap,
    worker: &mut Worker,
    config: &mut Config,
    gate: &G,
    backoff: &mut AccessBackoff,
) -> Demand
    requires can { CanCarry heap.now worker.old config.old }
    ensures { Carries heap.now worker.old config.old result worker.new config.new }
{
    let demand = config.next();
    match demand {
        Demand::Read { object } => {
            let value = access(rt, heap, worker, gate, backoff, object, Mode::Read, 0);
            config.give(value);
        }
        Demand::Write { object, value } => {
            access(rt, heap, worker, gate, backoff, object, Mode::Write, value);
        }
        Demand::Bump { object, amount } => {
            access(
                rt,
                heap,
                worker,
                gate,
                backoff,
                object,
                Mode::Update,
                amount,
            );
        }
        Demand::Safe => {
            heap.safe_point(worker);
        }
        Demand::Pause => {
            heap.block(worker);
            heap.unblock(worker);
        }
        Demand::Ended { .. } => heap.block(worker),
    }
    demand
}

/// Carries out the next demand of the configuration, which is one of the worker's thread, and
/// answers it: a safe point; a block and an unblock; an access, which passes the gate and is noted
/// before; or a block at the end. A read gives the configuration its value. Takes no memory. May
/// wait: nothing says that an access is ever made.
pub fn carry<R: Threads + Wait + Sync, G: HeapGate>(
    rt: &R,
    heap: &Heap,
    worker: &mut Worker,
    config: &mut Config,
    gate: &G,
) -> Demand
    requires can { CanCarry heap.now worker.old config.old }
    ensures { Carries heap.now worker.old config.old result worker.new config.new }
{
    carry_with_backoff(rt, heap, worker, config, gate, &mut AccessBackoff::new())
}
