//! Vector clocks.
ghost use Rattle.std.specs.Prelude.{◌≡◌, ◌≢◌, ◌<◌, ◌≤◌, false, get_or, length, min, slice_index, ℕ};
ghost use Rattle.octet_model.specs.declared.limits.TheConstants.{MAX_THREADS};
ghost use Rattle.octet_clock.specs.Clock.{count_in, no_events, IsRaised, IsJoined};

use octet_model::MAX_THREADS;

/// A vector clock, after Mattern and Fidge: for each thread, how many of its first events are
/// known.
#[derive(Clone, Copy)]
pub(crate) struct Clock {
    counts: [u32; MAX_THREADS],
}

impl Clock {
    /// A clock that knows no event.
    pub(crate) fn new() -> Clock
        ensures knows_none { (thread : ℕ) → count_in result thread ≡ 0 }
        ensures is { result ≡ no_events }
    {
        Clock {
            counts: [0; MAX_THREADS],
        }
    }

    pub(crate) fn count(&self, thread: usize) -> u32
        ensures { result ≡ count_in self.now thread }
    {
        if thread < MAX_THREADS {
            self.counts[thread]
        } else {
            0
        }
    }

    /// The clock that knows so many first events of the first threads, and nothing of the others.
    pub(crate) fn of_first(known: &[u32]) -> Clock
        ensures { length known.now ≤ MAX_THREADS → (thread : ℕ) → count_in result thread ≡ get_or known.now thread 0 }
    {
        let threads = known.len().min(MAX_THREADS);
        let mut counts = [0; MAX_THREADS];
        counts[..threads].copy_from_slice(&known[..threads]);
        Clock { counts }
    }

    /// The counts of the first threads.
    pub(crate) fn first(&self, threads: usize) -> &[u32]
        ensures many { length result.now ≡ min threads MAX_THREADS }
        ensures each { (thread : ℕ) → thread < min threads MAX_THREADS → slice_index result.now thread ≡ count_in self.now thread }
    {
        &self.counts[..threads.min(MAX_THREADS)]
    }

    /// Takes in a thread's first `count` events.
    pub(crate) fn raise(&mut self, thread: usize, count: u32)
        requires { thread < MAX_THREADS }
        ensures { IsRaised self.old thread count self.new }
    {
        let known = self.counts[thread];
        self.counts[thread] = known.max(count);
    }

    /// Takes in what another clock knows.
    pub(crate) fn join(&mut self, other: &Clock)
        ensures { IsJoined self.old other.now self.new }
    {
        for thread in 0..MAX_THREADS {
            self.raise(thread, other.counts[thread]);
        }
    }
}
