//! Runs of the script by threads that share one machine behind one lock.
ghost use Rattle.std.specs.Prelude.{◌≡◌, IfOk};
ghost use Rattle.octet_model.specs.Orders.{IsFaithful};

use crate::lock::worker::run_workers;
use octet_base::Gate;
use octet_machine::{Machine, take_rounds};
use octet_model::{OutOfMemory, Recorded, Script};
use std::alloc::Global;
use std::sync::{Mutex, Wait};
use std::thread::Threads;

// The machine itself where it is one of the script, else a fresh one. Of a machine that comes
// from under a lock nothing is known but that it is sound.
fn machine_of(alloc: Global, script: &Script, machine: Machine) -> Result<Machine, OutOfMemory>
    ensures script { IfOk result (λ own. own.script ≡ script.now) }
    ensures same { machine.script ≡ script.now → IfOk result (λ own. own ≡ machine) }
{
    if machine.is_of(script) {
        return Ok(machine);
    }
    Machine::new(alloc, script)
}

/// Runs the script by a worker for each of its threads, all beside each other, and answers the
/// log and the outcome, which are a faithful recording. A worker takes some turns of its thread at
/// a time, on a machine that all workers share behind one lock. Where its thread has to wait for
/// another one, it takes turns of that one too, since the other worker may have no processor. Once
/// before each access it passes the gate, without the lock. Where a thread has to pass the gate first, a
/// worker that waits for it backs off, and one that waited a lot rests before its next access, with its
/// thread marked as blocked.
/// May wait: nothing says that the workers come to an end.
pub fn run_locked<R: Threads + Wait + Sync, G: Gate>(
    rt: &R,
    alloc: Global,
    script: &Script,
    gate: &G,
) -> Result<Recorded, OutOfMemory>
    ensures faithful { IfOk result (λ r. IsFaithful script.now r.log.threads r.outcome) }
{
    let machine = Machine::new(alloc, script)?;
    let threads = machine.threads();
    let shared = Mutex::new(machine);
    run_workers(rt, &shared, gate, threads);
    let mut machine = machine_of(alloc, script, shared.into_inner())?;
    take_rounds(rt, &mut machine);
    machine.finish(alloc)
}
