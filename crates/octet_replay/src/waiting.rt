//! Lists of threads that wait for one count.
ghost use Rattle.std.specs.Prelude.{◌≡◌, ◌<◌, ◌⊎◌, ℕ, true, false};
ghost use Rattle.octet_model.specs.declared.limits.TheConstants.{MAX_THREADS};
ghost use Rattle.octet_replay.specs.ThreadSet.{has};
ghost use Rattle.octet_replay.specs.WaitingLists.{Awaits};

use crate::thread_set::ThreadSet;

/// The threads that wait for one count, of the events of a thread or of the draws, and the lowest
/// number at which one of their needs changes.
#[derive(Clone, Copy, Debug, PartialEq, Eq)]
pub(crate) struct WaitingList {
    threads: ThreadSet,
    soonest: u64,
}

impl WaitingList {
    pub(crate) fn new() -> WaitingList {
        WaitingList {
            threads: ThreadSet::empty(),
            soonest: u64::MAX,
        }
    }

    /// Adds a thread, whose need changes at this number.
    pub(crate) fn add(&mut self, thread: u8, number: u64)
        requires { thread < MAX_THREADS }
        ensures added { Awaits self.new thread number }
        ensures kept { (other at : ℕ) → Awaits self.old other at → Awaits self.new other at }
    {
        self.threads.insert(thread);
        self.soonest = self.soonest.min(number);
    }

    /// Takes out all threads, where the count has come to the number of one of them; else none.
    #[inline(always)]
    pub(crate) fn take_due(&mut self, count: u64) -> ThreadSet
        ensures { (thread at : ℕ) → Awaits self.old thread at → (has result thread ≡ true) ⊎ ((count < at) × Awaits self.new thread at) }
    {
        if self.soonest > count {
            return ThreadSet::empty();
        }
        let due = self.threads;
        *self = WaitingList::new();
        due
    }
}
