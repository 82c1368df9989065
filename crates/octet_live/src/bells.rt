//! Bells, by which threads tell those that sleep what they have done.
use std::sync::Wait;
use std::sync::atomic::{AtomicU64, Ordering};
use std::time::Duration;

/// A bell, with how often it was rung. No claim rests on the count.
#[derive(Drop)]
pub struct Bell {
    rung: AtomicU64,
}

impl Bell {
    /// A bell that was never rung.
    pub fn new() -> Bell {
        Bell {
            rung: AtomicU64::new(0),
        }
    }

    /// Rings it, and wakes one of those that sleep on it.
    pub fn ring(&self) {
        self.rung.fetch_add(1, Ordering::SeqCst);
        self.rung.wake_one();
    }

    /// How often it was rung, modulo 2^32.
    pub fn count(&self) -> u32 {
        (self.rung.load(Ordering::SeqCst) % (1 << 32)) as u32
    }

    /// Sleeps for so long at most, or until it rings, if it was rung so often before.
    pub fn wait<R: Wait>(&self, rt: &R, count: u32, time: Duration) {
        self.rung.park_timeout(rt, count, time);
    }
}

/// The bells that the threads of a log ring: each thread rings the first as it begins, and the second
/// as it ends.
#[derive(Drop)]
pub struct Bells {
    pub begun: Bell,
    pub ended: Bell,
}

impl Bells {
    /// Those of threads that have not begun.
    pub fn new() -> Bells {
        Bells {
            begun: Bell::new(),
            ended: Bell::new(),
        }
    }
}
