//! Runs of the machine by picks, and by rounds until all threads have ended.
ghost use Rattle.std.specs.Prelude.{◌≡◌, true, IfOk};
ghost use Rattle.octet_model.specs.Orders.{IsFaithful};
ghost use Rattle.octet_machine.specs.Machine.{have_ended};
ghost use Rattle.octet_machine.specs.Turns.{after_picks, after_round, EndsByRounds, IsPlayed};

use crate::machine::Machine;
use octet_model::{OutOfMemory, Recorded, Script};
use std::alloc::Global;
use std::sync::Wait;

// A turn for each pick: of the thread of its number modulo the number of threads.
fn take_picks(machine: &mut Machine, picks: &[u8])
    ensures { machine.new ≡ after_picks machine.old picks.now }
{
    let threads = machine.threads();
    for pick in picks {
        machine.turn(pick % threads);
    }
}

// A turn of each thread, in order.
fn take_round(machine: &mut Machine)
    ensures state { machine.new ≡ after_round machine.old }
    ensures script { machine.new.script ≡ machine.old.script }
{
    for thread in 0..machine.threads() {
        machine.turn(thread);
    }
}

/// Takes rounds, each a turn of every thread in order, until all threads have ended: the least
/// number of rounds after which they have.
pub fn take_rounds<R: Wait>(rt: &R, machine: &mut Machine)
    ensures rounds { EndsByRounds machine.old machine.new }
    ensures ended { have_ended machine.new ≡ true }
    ensures script { machine.new.script ≡ machine.old.script }
{
    for _ in rt.forever() {
        if machine.ended() {
            break;
        }
        take_round(machine);
    }
}

/// Runs the script by picks and then by rounds until all threads have ended, and answers the log
/// and the outcome, which are a faithful recording. Each pick is a turn of the thread of its
/// number modulo the number of threads. May wait: nothing says that the rounds come to an end.
pub fn play<R: Wait>(
    rt: &R,
    alloc: Global,
    script: &Script,
    picks: &[u8],
) -> Result<Recorded, OutOfMemory>
    ensures played { IfOk result (λ r. IsPlayed script.now picks.now r) }
    ensures faithful { IfOk result (λ r. IsFaithful script.now r.log.threads r.outcome) }
{
    let mut machine = Machine::new(alloc, script)?;
    take_picks(&mut machine, picks);
    take_rounds(rt, &mut machine);
    machine.finish(alloc)
}
