//! What the workers of a run share beside their heap.
use crate::tuning::{LONGEST_START, YIELDS_AT_START};
use octet_live::{Bell, Bells};
use std::sync::Wait;
use std::sync::atomic::{AtomicU64, Ordering};
use std::thread::yield_now;
use std::time::Duration;

/// How many workers are at work, the bells that they ring as they begin and end, and one on which those
/// sleep that rest. Workers begin together: a thread of a few commands would else be at its
/// end before the next one is made. Threads that want one object all the time hand it over at each access
/// as long as all of them run, and a handover takes as long as a hundred accesses, or some
/// milliseconds where a thread has no processor. So a worker that has waited a lot stays away for a
/// while, marked as blocked: others take what it has without waiting for it. The last one at work does
/// not rest, and when it ends, or only waits for what others are to do, one of those that rest goes on. No
/// claim rests on any of the counts.
#[derive(Drop)]
pub(crate) struct Crew {
    workers: usize,
    bells: Bells,
    started: AtomicU64,
    working: AtomicU64,
    rests: Bell,
}

impl Crew {
    /// Of so many workers, none of which has begun.
    pub(crate) fn new(workers: usize) -> Crew {
        Crew {
            workers,
            bells: Bells::new(),
            started: AtomicU64::new(0),
            working: AtomicU64::new(0),
            rests: Bell::new(),
        }
    }

    /// Counts a worker that begins, and waits until all have begun, but not for long: it may be that no
    /// other thread can be made before this one ends. Where one has waited for that long, none waits
    /// any more.
    pub(crate) fn begin<R: Wait>(&self, rt: &R) {
        self.working.fetch_add(1, Ordering::SeqCst);
        self.bells.begun.ring();
        if (self.bells.begun.count() as usize) < self.workers {
            self.wait_for_start(rt);
        }
        self.start();
    }

    // Threads are mostly made within some tens of microseconds, and who sleeps begins later than who
    // looks.
    fn wait_for_start<R: Wait>(&self, rt: &R) {
        for _ in 0..YIELDS_AT_START {
            if self.started.load(Ordering::SeqCst) > 0 {
                return;
            }
            yield_now();
        }
        self.started
            .park_timeout(rt, 0, Duration::from_micros(u64::from(LONGEST_START)));
    }

    // Has all workers go on that wait to begin.
    fn start(&self) {
        if self.started.swap(1, Ordering::SeqCst) == 0 {
            self.started.wake_all();
        }
    }

    /// Counts a worker that ends, and wakes who waits for it. The last one at work wakes one of those
    /// that rest.
    pub(crate) fn end(&self) {
        self.bells.ended.ring();
        self.leave();
    }

    // One worker less is at work. Where that was the last one, one of those that rest goes on. Tells
    // whether it was.
    fn leave(&self) -> bool {
        let is_last = self.working.fetch_sub(1, Ordering::SeqCst) <= 1;
        if is_last {
            self.rests.ring();
        }
        is_last
    }

    /// Lets a worker stop work for a while, unless no other is at work. Tells how often the bell of those
    /// that rest was rung before.
    pub(crate) fn stop(&self) -> Option<u32> {
        let rung = self.rests.count();
        if self.working.fetch_sub(1, Ordering::SeqCst) > 1 {
            return Some(rung);
        }
        self.working.fetch_add(1, Ordering::SeqCst);
        None
    }

    /// Lets a worker stop work for a while that waits for what others are to do, unless all others have
    /// ended. Tells how often the bell was rung before others may ring it for this one.
    pub(crate) fn stand_by(&self) -> Option<u32> {
        if (self.bells.ended.count() as usize).saturating_add(1) >= self.workers {
            return None;
        }
        let rung = self.rests.count();
        Some(if self.leave() {
            self.rests.count()
        } else {
            rung
        })
    }

    /// Rests for so long at most, where the bell was rung so often before, and goes back to work.
    pub(crate) fn rest<R: Wait>(&self, rt: &R, rung: u32, time: Duration) {
        self.rests.wait(rt, rung, time);
        self.working.fetch_add(1, Ordering::SeqCst);
    }

    /// The bells that a drainer of their log needs.
    pub(crate) fn bells(&self) -> &Bells {
        &self.bells
    }
}
