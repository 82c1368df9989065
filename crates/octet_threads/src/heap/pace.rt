//! When a worker gives its processor away, and when it dozes.
ghost use Rattle.std.specs.Prelude.{◌*◌, ◌≤◌};
ghost use Rattle.std.specs.Duration.{as_nanos};
ghost use Rattle.std.specs.Option.{ForSome};
ghost use Rattle.octet_threads.specs.declared.tuning.TheConstants.{SHORTEST_DOZE, LONGEST_DOZE};

use crate::tuning::{DEMANDS_BEFORE_YIELD, LONGEST_DOZE, SAFE_POINTS_BEFORE_DOZE, SHORTEST_DOZE};
use octet_heap::Worker;
use octet_interp::Demand;
use std::thread::yield_now;
use std::time::Duration;

/// After how many demands of its thread a worker yields, and how many safe points and pauses the thread
/// has passed since it last wrote or left a mark, with at how many and for how long its worker dozes.
/// Between safe points nothing but the demands is counted: how much a thread wrote is seen there.
///
/// A thread that waits for nobody would end before any other one that has to share its processor has
/// begun. So the worker yields early on, and ever more seldom, since on a busy machine the processor
/// comes back only after all others that want it.
///
/// A thread that waits for what another one is to write passes safe points in a loop, and its fuel is at
/// an end within a fraction of a millisecond: where the other one rests or has no processor, it would
/// come too late. A thread that computes with what it has read looks the same, so each time the worker
/// goes on for twice as long.
#[derive(Drop)]
pub(crate) struct Pace {
    demands_left: u32,
    demands: u32,
    // How many marks and writes, updates among them, there were at the last safe point.
    done: usize,
    passed: u32,
    due: u32,
    doze: u32,
    ghost dozes: { (SHORTEST_DOZE ≤ doze) × (doze ≤ LONGEST_DOZE) },
}

impl Pace {
    pub(crate) fn new() -> Pace {
        Pace {
            demands_left: DEMANDS_BEFORE_YIELD,
            demands: DEMANDS_BEFORE_YIELD,
            done: 0,
            passed: 0,
            due: SAFE_POINTS_BEFORE_DOZE,
            doze: SHORTEST_DOZE,
        }
    }

    #[cold]
    #[inline(never)]
    fn give_way(&mut self) {
        self.demands = self.demands.saturating_mul(4);
        self.demands_left = self.demands;
        yield_now();
    }

    // Counts one more. Starts anew where the thread has written or left a mark since the last one.
    fn count(&mut self, worker: &Worker) {
        // Neither part ever gets less, so the sum changes with each of them.
        let writes = (worker.accesses() as usize).wrapping_sub(worker.reads().len());
        let done = writes.wrapping_add(worker.marks().len());
        if done != self.done {
            self.done = done;
            self.passed = 0;
            self.due = SAFE_POINTS_BEFORE_DOZE;
            self.doze = SHORTEST_DOZE;
        }
        self.passed = self.passed.saturating_add(1);
    }

    // How long it is to doze after one more, if it is to. The next time is later, and longer.
    #[inline(never)]
    fn pass(&mut self, worker: &Worker) -> Option<Duration>
        ensures { ForSome result (λ time. as_nanos time ≤ LONGEST_DOZE * 1_000) }
    {
        self.count(worker);
        if self.passed < self.due {
            return None;
        }
        let doze = self.doze;
        self.due = self.due.saturating_mul(2);
        self.doze = doze.saturating_mul(4).min(LONGEST_DOZE);
        Some(Duration::from_micros(u64::from(doze)))
    }

    /// Yields now and then. Tells for how long the worker is to doze, if it is, which has carried out
    /// this demand.
    #[inline(always)]
    pub(crate) fn after(&mut self, demand: Demand, worker: &Worker) -> Option<Duration>
        ensures { ForSome result (λ time. as_nanos time ≤ LONGEST_DOZE * 1_000) }
    {
        self.demands_left = self.demands_left.wrapping_sub(1);
        if self.demands_left == 0 {
            self.give_way();
        }
        match demand {
            Demand::Safe | Demand::Pause => self.pass(worker),
            Demand::Read { .. }
            | Demand::Write { .. }
            | Demand::Bump { .. }
            | Demand::Ended { .. } => None,
        }
    }
}
