//! Schedules for a host that lets one thread go on at a time.
ghost use Rattle.octet_c.specs.declared.status.TheConstants.{READY};
ghost use Rattle.std.specs.Prelude.{◌≡◌, ◌≢◌, ◌<◌, MatchOption};
ghost use Rattle.octet_c.specs.Turns.{IsScheduled, Schedules, RefusesToSchedule, PicksNext, PicksHeld};

use crate::handle::Handle;
use crate::held::Held;
use crate::status::{BAD_SIZE, NO_MEMORY, NO_SCHEDULE, NO_WAY, OTHER_KIND, OVER, READY};
use octet_model::MAX_THREADS;
use octet_schedule::{Changes, Draws, Schedule, marked};
use std::alloc::Global;

// A schedule of the way of this number: uniform, by bursts, by priorities.
fn schedule_of(way: u8, seed: u64, most: u32) -> Option<Schedule>
    ensures { MatchOption result (2 < way) (IsScheduled way seed most) }
{
    let mut draws = Draws::new(seed);
    match way {
        0 => Some(Schedule::uniform(draws)),
        1 => Some(Schedule::by_bursts(draws, u64::from(most))),
        2 => {
            let changes = Changes::drawn(&mut draws, u64::from(most));
            Some(Schedule::by_priorities(draws, changes))
        }
        _ => None,
    }
}

/// Puts a schedule behind the handle: uniform (way 0), by bursts of up to `most` accesses (way 1), or by priorities, where
/// the thread at work is put last up to `most` times (way 2). What the handle held is freed.
#[unsafe(no_mangle)]
pub extern "C" fn octet_schedule(
    alloc: Global,
    turns: &mut Handle,
    way: u8,
    seed: u64,
    most: u32,
) -> i32
    ensures ready { result ≡ READY → Schedules way seed most turns.new.held }
    ensures kept { result ≢ READY → turns.new ≡ turns.old }
    ensures cause { result ≢ READY → RefusesToSchedule way result }
{
    let Some(schedule) = schedule_of(way, seed, most) else {
        return NO_WAY;
    };
    match Box::new(alloc, Held::Schedule(schedule)) {
        Ok(held) => {
            drop(turns.take(alloc));
            turns.put(held);
            READY
        }
        Err(_) => NO_MEMORY,
    }
}

// The next thread of those that are marked, if one is.
fn picked(schedule: &mut Schedule, marks: &[u8], thread: &mut u8) -> i32
    ensures { PicksNext schedule.old marks.now result thread.old thread.new schedule.new }
{
    if marks.is_empty() || marks.len() > MAX_THREADS {
        return BAD_SIZE;
    }
    let ready = marked(marks);
    match schedule.pick(&ready[..marks.len()]) {
        Some(picked) => {
            *thread = picked;
            READY
        }
        None => OVER,
    }
}

/// Picks the thread that makes the next access, of those that are ready: a byte for each thread, which is 0 where it is not.
/// 2 where none is ready.
#[unsafe(no_mangle)]
pub extern "C" fn octet_pick(
    alloc: Global,
    turns: &mut Handle,
    ready: &[u8],
    thread: &mut u8,
) -> i32
    ensures { PicksHeld ready.now turns.old.held result thread.old thread.new turns.new.held }
{
    match turns.take(alloc) {
        None => NO_SCHEDULE,
        Some(mut held) => {
            let status = match &mut *held {
                Held::Schedule(schedule) => picked(schedule, ready, thread),
                _ => OTHER_KIND,
            };
            turns.put(held);
            status
        }
    }
}
