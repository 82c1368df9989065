//! A loop over `carry`, to copy. It tells which accesses made their thread's log longer: another thread had a part in them.
ghost use Rattle.std.specs.Prelude.{◌≡◌, [], false};
ghost use Rattle.octet_model.specs.Thread.{starting_configuration};
ghost use Rattle.octet_rule.specs.Conditions.{IsResting};
ghost use Rattle.octet_rule.specs.Seats.{objects_of};
ghost use Rattle.octet_heap.specs.Workers.{seat_of, IsWorkerOf};

use crate::samples::script;
use octet_base::OpenGate;
use octet_heap::{Heap, Worker};
use octet_interp::{Config, Demand};
use octet_model::OutOfMemory;
use octet_threads::carry;
use std::alloc::Global;
use std::sync::Wait;
use std::test::Fail;
use std::thread::Threads;

/// Runs a thread from its start to its end, and tells which of its demands, in order, made its log
/// longer.
fn marked_demands<R: Threads + Wait + Sync>(
    rt: &R,
    alloc: Global,
    heap: &Heap,
    worker: &mut Worker,
    config: &mut Config,
) -> Result<Vec<Demand>, OutOfMemory>
    requires own { IsWorkerOf heap.now worker.old }
    requires rests { IsResting (seat_of worker.old).thread.phase }
    requires fresh { (seat_of worker.old).journal ≡ [] }
    requires objects { config.old.objects ≡ objects_of heap.now.words }
    requires waits { config.old.waits ≡ false }
    requires start { config.old.at ≡ starting_configuration heap.now.fuel }
{
    let mut marked = Vec::new(alloc);
    heap.unblock(worker);
    for _ in rt.forever() {
        let before = worker.marks().len();
        let demand = carry(rt, heap, worker, config, &OpenGate);
        if worker.marks().len() > before {
            marked.push(demand)?;
        }
        if let Demand::Ended { .. } = demand {
            return Ok(marked);
        }
    }
    unreachable!()
}

/// Two threads add 2 to y, twice, and then to x.
const TWO_ADDERS: &[u8] =
    b"object x 0\nobject y 0\nthread\nset r0 2\nbump y r0\nbump y r0\nbump x r0\nthread\nset r0 2\nbump y r0\nbump y r0\nbump x r0\n";

fn adds_to(object: u16) -> Demand {
    Demand::Bump { object, amount: 2 }
}

#[test]
fn a_loop_tells_what_left_marks(rt: HostRuntime) -> Result<(), Fail> {
    let alloc = rt.alloc();
    let script = script(alloc, TWO_ADDERS)?;
    if script.threads.len() != 2 {
        return Err(Fail::new("the script has two threads"));
    }
    let (heap, workers) = Heap::new(alloc, &script)?;
    let mut workers = workers.into_vec();
    let mut second = workers.remove(1);
    let mut first = workers.remove(0);
    let mut config = Config::new(alloc, &script, 0)?;
    let marked = marked_demands(&rt, alloc, &heap, &mut first, &mut config)?;
    assert_eq!(rt; marked.as_slice(), [].as_slice());
    let mut config = Config::new(alloc, &script, 1)?;
    let marked = marked_demands(&rt, alloc, &heap, &mut second, &mut config)?;
    assert_eq!(rt; marked.as_slice(), [adds_to(1), adds_to(0)].as_slice());
    Ok(())
}
