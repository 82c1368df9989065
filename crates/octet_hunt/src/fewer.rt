//! An interleaving that is looked for, with fewer preemptions.
ghost use Rattle.std.specs.Prelude.{◌<◌, ◌≤◌, length, IfSome};
ghost use Rattle.octet_hunt.specs.Hunts.{IsAimAt};

use crate::aim::Aim;
use crate::runs::{Course, Interleaving};
use octet_model::{OutOfMemory, Script};
use octet_schedule::{Draws, Schedule};
use std::alloc::Global;

/// How many schedules are tried in which a burst comes earlier.
const MOST_JOINS: u32 = 400;

/// How many schedules are tried with each number of switches.
const TRIES_WITH_SWITCHES: u32 = 400;

/// Up to so many switches are tried.
const MOST_SWITCHES: u32 = 8;

/// The interleaving of a run that is looked for as this one's is, with as many preemptions or fewer:
/// the fewest that a search finds which is bounded by the constants above.
pub(crate) fn with_fewer_preemptions(
    alloc: Global,
    script: &Script,
    aim: Aim,
    found: Interleaving,
    course: &mut Course,
) -> Result<Interleaving, OutOfMemory>
    requires { IsAimAt (length script.now.objects) aim }
{
    let joined = with_bursts_joined(alloc, script, aim, found, course)?;
    with_fewest_switches(alloc, script, aim, joined, course)
}

// By few switches at places that are drawn: at first none, then one, and so on.
fn with_fewest_switches(
    alloc: Global,
    script: &Script,
    aim: Aim,
    found: Interleaving,
    course: &mut Course,
) -> Result<Interleaving, OutOfMemory>
    requires { IsAimAt (length script.now.objects) aim }
{
    let accesses = found.picks.len() as u64;
    let most = found.preemptions.min(MOST_SWITCHES);
    for switches in 0..most {
        for number in 0..TRIES_WITH_SWITCHES {
            let draws = Draws::new(u64::from(number));
            let mut schedule = Schedule::with_switches(draws, u64::from(switches), accesses);
            if let Some(other) = course.interleaving(alloc, script, aim, &mut schedule)? {
                if other.preemptions < found.preemptions {
                    return Ok(other);
                }
            }
        }
    }
    Ok(found)
}

/// A switch to another thread, and the next burst of the thread that was at work: its first place, and
/// the place after its last one.
#[derive(Drop)]
struct Join {
    switch: usize,
    from: usize,
    upto: usize,
}

// The next place of the thread, from this one on.
fn next_of(picks: &[u8], from: usize, thread: u8) -> Option<usize>
    ensures { IfSome result (λ place. (from ≤ place) × (place < length picks.now)) }
{
    for place in from..picks.len() {
        if picks[place] == thread {
            return Some(place);
        }
    }
    None
}

// The first place from this one on at which another thread is picked than here.
fn burst_end(picks: &[u8], from: usize) -> usize
    requires { from < length picks.now }
    ensures from { from ≤ result }
    ensures upto { result ≤ length picks.now }
{
    for place in from..picks.len() {
        if picks[place] != picks[from] {
            return place;
        }
    }
    picks.len()
}

// The first switch from this place on, away from a thread that is picked again later.
fn next_join(picks: &[u8], after: usize) -> Option<Join>
    requires { 0 < after }
    ensures { IfSome result (λ join. (0 < join.switch) × (join.switch ≤ join.from) × (join.from ≤ join.upto) × (join.upto ≤ length picks.now)) }
{
    for switch in after..picks.len() {
        let thread = picks[switch - 1];
        if picks[switch] == thread {
            continue;
        }
        if let Some(from) = next_of(picks, switch, thread) {
            let upto = burst_end(picks, from);
            return Some(Join { switch, from, upto });
        }
    }
    None
}

// The picks with the later burst moved to the switch.
fn joined(alloc: Global, picks: &[u8], join: &Join) -> Result<Vec<u8>, OutOfMemory>
    requires { (join.now.switch ≤ join.now.from) × (join.now.from ≤ join.now.upto) × (join.now.upto ≤ length picks.now) }
{
    let mut other = Vec::with_capacity(alloc, picks.len())?;
    other.extend_from_slice(&picks[..join.switch])?;
    other.extend_from_slice(&picks[join.from..join.upto])?;
    other.extend_from_slice(&picks[join.switch..join.from])?;
    other.extend_from_slice(&picks[join.upto..])?;
    Ok(other)
}

// By moving bursts of a thread to the one before, each time that this leaves fewer preemptions.
fn with_bursts_joined(
    alloc: Global,
    script: &Script,
    aim: Aim,
    found: Interleaving,
    course: &mut Course,
) -> Result<Interleaving, OutOfMemory>
    requires { IsAimAt (length script.now.objects) aim }
{
    let mut best = found;
    let mut after = 1;
    for _tried in 0..MOST_JOINS {
        let Some(join) = next_join(&best.picks, after) else {
            break;
        };
        let mut schedule = Schedule::written(joined(alloc, &best.picks, &join)?);
        after = join.switch + 1;
        if let Some(other) = course.interleaving(alloc, script, aim, &mut schedule)? {
            if other.preemptions < best.preemptions {
                after = join.switch;
                best = other;
            }
        }
    }
    Ok(best)
}
