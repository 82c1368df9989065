//! Runs by given picks: each names the thread that makes the next access.
ghost use Rattle.std.specs.Prelude.{◌≡◌, length, IfOk, IfSome};
ghost use Rattle.octet_model.specs.Orders.{IsFaithful};
ghost use Rattle.octet_hunt.specs.Hunts.{IsAimAt, Meets};

use crate::aim::Aim;
use crate::runs::{Course, MOST_TURNS};
use crate::tries::{Find, keep};
use octet_machine::Machine;
use octet_model::{List, OutOfMemory, Script};
use octet_schedule::Schedule;
use std::alloc::Global;

// A thread that is picked goes on to its access, however many commands come before that.
fn patient(alloc: Global, script: &Script) -> Course {
    Course::new(alloc, script.fuel.saturating_add(MOST_TURNS))
}

fn by_picks(alloc: Global, picks: &[u8]) -> Result<Schedule, OutOfMemory> {
    Ok(Schedule::written(Vec::from_slice(alloc, picks)?))
}

/// The run of a script by these picks, up to where all its threads have ended. After the last pick
/// the threads go on one after the other. It counts as the first try.
pub fn record_by(alloc: Global, script: &Script, picks: &[u8]) -> Result<Option<Find>, OutOfMemory>
    ensures faithful { IfOk result (λ found. IfSome found (λ find. IsFaithful script.now find.recorded.log.threads find.recorded.outcome)) }
    ensures first { IfOk result (λ found. IfSome found (λ find. find.attempt ≡ 1)) }
{
    let mut schedule = by_picks(alloc, picks)?;
    let mut machine = Machine::new(alloc, script)?;
    let preemptions = patient(alloc, script).play(&mut machine, &mut schedule, script.fuel)?;
    if !machine.ended() {
        return Ok(None);
    }
    Ok(Some(Find {
        attempt: 1,
        preemptions,
        recorded: machine.finish(alloc)?,
        hops: List::new(alloc),
    }))
}

/// The run of a script by these picks, if it is looked for: in its place one with fewer preemptions,
/// if one is found. It counts as the first try. That there is none proves nothing.
pub fn find_by(
    alloc: Global,
    script: &Script,
    aim: Aim,
    picks: &[u8],
) -> Result<Option<Find>, OutOfMemory>
    requires object { IsAimAt (length script.now.objects) aim }
    ensures meets { IfOk result (λ found. IfSome found (λ find. Meets script.now aim find.recorded find.hops)) }
    ensures first { IfOk result (λ found. IfSome found (λ find. find.attempt ≡ 1)) }
{
    let mut schedule = by_picks(alloc, picks)?;
    let mut course = patient(alloc, script);
    let Some(found) = course.interleaving(alloc, script, aim, &mut schedule)? else {
        return Ok(None);
    };
    keep(alloc, script, aim, 1, found, &mut course)
}
