//! Where the workers of a replay on threads wait for each other.
use crossbeam_utils::CachePadded;
use std::alloc::{AllocError, Global};
use std::sync::Wait;
use std::sync::atomic::{AtomicU64, Ordering};
use std::time::Duration;

/// How long a worker sleeps at most before it looks again, in microseconds.
const LONGEST_SLEEP: u64 = 1000;

/// What no player's events come to.
const NOTHING: u64 = u64::MAX;

/// Why workers are called off: threads are of no use, or are not to be had.
const NO_USE: u64 = 1;

const NO_THREADS: u64 = 2;

/// What those wait on that need events of one player: the fewest events that one of them needs, and
/// how often they were woken.
#[derive(Drop)]
struct Bell {
    needed: AtomicU64,
    rung: AtomicU64,
}

impl Bell {
    fn new() -> Bell {
        Bell {
            needed: AtomicU64::new(NOTHING),
            rung: AtomicU64::new(0),
        }
    }

    // Wakes all that sleep.
    fn ring(&self) {
        self.needed.store(NOTHING, Ordering::SeqCst);
        self.rung.fetch_add(1, Ordering::SeqCst);
        self.rung.wake_all();
    }

    // Asks to be woken after so many events of the player. Tells how often the bell was rung before.
    fn order(&self, events: u64) -> u32 {
        let rung = (self.rung.load(Ordering::SeqCst) % (1 << 32)) as u32;
        let needed = self.needed.load(Ordering::SeqCst);
        if events < needed {
            // Where another worker asks at once, it may go unheard, and looks after a while.
            let _ = self
                .needed
                .compare_exchange(needed, events, Ordering::SeqCst, Ordering::SeqCst);
        }
        rung
    }
}

/// What the workers of a replay share beside its field. A worker that has to wait for long sleeps
/// until the player that it needs has made its events. The workers are called off where it shows
/// that one of them has no thread, or that threads are of no use.
#[derive(Drop)]
pub(crate) struct Crew {
    begun: AtomicU64,
    called_off: AtomicU64,
    /// How many workers sleep, or have come to an end.
    idle: AtomicU64,
    /// How many events workers have waited for while one player alone made events.
    lone: AtomicU64,
    /// How many players made all events of the round that is played on one thread.
    full_rounds: AtomicU64,
    bells: Vec<CachePadded<Bell>>,
}

impl Crew {
    /// The crew of so many workers.
    pub(crate) fn new(alloc: Global, workers: usize) -> Result<Crew, AllocError> {
        let mut bells = Vec::new(alloc);
        for _ in 0..workers {
            bells.push(CachePadded::new(Bell::new()))?;
        }
        Ok(Crew {
            begun: AtomicU64::new(0),
            called_off: AtomicU64::new(0),
            idle: AtomicU64::new(0),
            lone: AtomicU64::new(0),
            full_rounds: AtomicU64::new(0),
            bells,
        })
    }

    /// Before the workers begin, and before they begin again.
    pub(crate) fn gather(&self) {
        self.begun.store(0, Ordering::SeqCst);
        self.called_off.store(0, Ordering::SeqCst);
        self.idle.store(0, Ordering::SeqCst);
        self.lone.store(0, Ordering::SeqCst);
    }

    /// A worker begins.
    pub(crate) fn begin(&self) {
        self.begun.fetch_add(1, Ordering::SeqCst);
    }

    /// Whether all workers have begun. Where no thread is to be had, some begin only after others
    /// have come to an end.
    pub(crate) fn is_complete(&self) -> bool {
        self.begun.load(Ordering::SeqCst) >= self.bells.len() as u64
    }

    /// A worker has come to its end.
    pub(crate) fn leave(&self) {
        self.idle.fetch_add(1, Ordering::SeqCst);
    }

    /// Whether at most one other worker still plays.
    pub(crate) fn has_one_player(&self) -> bool {
        self.idle.load(Ordering::SeqCst).saturating_add(2) >= self.bells.len() as u64
    }

    /// Notes that a worker waits for so many events of the only player that makes any. Tells for how
    /// many such events workers have waited.
    pub(crate) fn note_lone(&self, events: u64) -> u64 {
        self.lone
            .fetch_add(events, Ordering::SeqCst)
            .saturating_add(events)
    }

    /// A player made all events of a round.
    pub(crate) fn note_full_round(&self) {
        self.full_rounds.fetch_add(1, Ordering::SeqCst);
    }

    /// Whether several players made all events of a round, since this was asked last.
    pub(crate) fn is_busy(&self) -> bool {
        self.full_rounds.swap(0, Ordering::SeqCst) > 1
    }

    // Each worker stops where it next has to wait.
    fn end(&self, why: u64) {
        self.called_off.store(why, Ordering::SeqCst);
        for bell in &self.bells {
            bell.ring();
        }
    }

    /// Calls the workers off, since they wait more than they play.
    pub(crate) fn call_off(&self) {
        self.end(NO_USE);
    }

    /// Calls the workers off, since some do not begin.
    pub(crate) fn give_up(&self) {
        self.end(NO_THREADS);
    }

    pub(crate) fn is_called_off(&self) -> bool {
        self.called_off.load(Ordering::SeqCst) != 0
    }

    /// Whether they were called off since some did not begin.
    pub(crate) fn lacks_threads(&self) -> bool {
        self.called_off.load(Ordering::SeqCst) == NO_THREADS
    }

    /// Tells how many events a player has made, to those that wait for them.
    #[inline(always)]
    pub(crate) fn tell(&self, player: u8, events: u64) {
        if let Some(bell) = self.bells.get(player as usize) {
            if bell.needed.load(Ordering::SeqCst) <= events {
                bell.ring();
            }
        }
    }

    /// Asks to be woken after so many events of a player. Whoever asks is to look once more before it
    /// sleeps.
    pub(crate) fn order(&self, player: u8, events: u64) -> u32 {
        match self.bells.get(player as usize) {
            Some(bell) => bell.order(events),
            None => 0,
        }
    }

    /// Sleeps until the player's bell is rung, and for some time at most.
    pub(crate) fn sleep<R: Wait>(&self, rt: &R, player: u8, rung: u32) {
        if let Some(bell) = self.bells.get(player as usize) {
            let time = Duration::from_micros(LONGEST_SLEEP);
            self.idle.fetch_add(1, Ordering::SeqCst);
            bell.rung.park_timeout(rt, rung, time);
            self.idle.fetch_sub(1, Ordering::SeqCst);
        }
    }
}
