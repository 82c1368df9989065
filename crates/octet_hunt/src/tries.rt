//! Tries of a script, each by another schedule, up to the first that is looked for.
ghost use Rattle.std.specs.Prelude.{◌≡◌, ◌<◌, ◌≤◌, length, IfOk, IfSome};
ghost use Rattle.octet_hunt.specs.Hunts.{IsAimAt, Meets};

use crate::aim::Aim;
use crate::fewer::with_fewer_preemptions;
use crate::runs::{Course, Interleaving, MOST_TURNS};
use octet_model::{List, OutOfMemory, Recorded, Script};
use octet_regions::Hop;
use octet_schedule::{Changes, Draws, Schedule};
use std::alloc::Global;

/// What a hunt has found.
#[derive(Debug, Drop)]
pub struct Find {
    /// The number of the try, counted from 1.
    pub attempt: u32,
    /// How often a thread is stopped in the run that is kept, though it could have gone on.
    pub preemptions: u32,
    /// The run that is kept, which is looked for as the one that was found.
    pub recorded: Recorded,
    /// The hops of the cycle of its regions, where a cycle was looked for, and else none.
    pub hops: List<Hop>,
}

// The schedule of a try: by bursts, by priorities and uniform in turn.
fn schedule_of(attempt: u32) -> Schedule {
    let mut draws = Draws::new(u64::from(attempt));
    let spread = 1u64 << draws.below(5);
    match attempt % 3 {
        0 => Schedule::by_bursts(draws, spread),
        1 => {
            let apart = 4 * spread;
            let changes = Changes {
                after: draws.below(apart),
                times: 1 + draws.below(4),
                apart,
            };
            Schedule::by_priorities(draws, changes)
        }
        _ => Schedule::uniform(draws),
    }
}

/// What is kept of a run that is looked for: one with fewer preemptions in its place, if one is found.
pub(crate) fn keep(
    alloc: Global,
    script: &Script,
    aim: Aim,
    attempt: u32,
    found: Interleaving,
    course: &mut Course,
) -> Result<Option<Find>, OutOfMemory>
    requires object { IsAimAt (length script.now.objects) aim }
    ensures meets { IfOk result (λ found. IfSome found (λ find. Meets script.now aim find.recorded find.hops)) }
    ensures attempt { IfOk result (λ found. IfSome found (λ find. find.attempt ≡ attempt)) }
{
    let kept = with_fewer_preemptions(alloc, script, aim, found, course)?;
    // The same picks give the same run again. No contract says so: what is told is judged anew.
    let mut schedule = Schedule::written(kept.picks);
    let Some(hit) = course.run(alloc, script, aim, &mut schedule)? else {
        return Ok(None);
    };
    Ok(Some(Find {
        attempt,
        preemptions: hit.interleaving.preemptions,
        recorded: hit.met.recorded,
        hops: hit.met.hops,
    }))
}

/// Runs the script up to so many times, each time by another schedule, and answers the first run that
/// is looked for: in its place one with fewer preemptions, if one is found. The same script, aim and
/// number of tries have the same answer. Holds the memory of one run of the machine at a time. That
/// none is found proves nothing.
pub fn hunt(
    alloc: Global,
    script: &Script,
    aim: Aim,
    tries: u32,
) -> Result<Option<Find>, OutOfMemory>
    requires object { IsAimAt (length script.now.objects) aim }
    ensures meets { IfOk result (λ found. IfSome found (λ find. Meets script.now aim find.recorded find.hops)) }
    ensures first { IfOk result (λ found. IfSome found (λ find. 0 < find.attempt)) }
    ensures last { IfOk result (λ found. IfSome found (λ find. find.attempt ≤ tries)) }
{
    let mut course = Course::new(alloc, MOST_TURNS);
    for before in 0..tries {
        let mut schedule = schedule_of(before);
        let Some(found) = course.interleaving(alloc, script, aim, &mut schedule)? else {
            continue;
        };
        if let Some(find) = keep(alloc, script, aim, before + 1, found, &mut course)? {
            return Ok(Some(find));
        }
    }
    Ok(None)
}
