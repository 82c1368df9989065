//! Sets of threads.
ghost use Rattle.std.specs.Prelude.{◌≡◌, ◌≢◌, ◌<◌, ℕ, true, false, IfSome, IsNone};
ghost use Rattle.octet_model.specs.declared.limits.TheConstants.{MAX_THREADS};
ghost use Rattle.octet_replay.specs.ThreadSet.{has, IsLowestIn};

/// A set of threads, as one bit for each that a script may have.
#[derive(Clone, Copy, Debug, PartialEq, Eq)]
pub(crate) struct ThreadSet {
    bits: u16,
}

impl ThreadSet {
    pub(crate) fn empty() -> ThreadSet
        ensures { (thread : ℕ) → has result thread ≡ false }
    {
        ThreadSet { bits: 0 }
    }

    pub(crate) fn is_empty(&self) -> bool
        ensures { result ≡ true → (thread : ℕ) → has self.now thread ≡ false }
    {
        self.lowest().is_none()
    }

    pub(crate) fn insert(&mut self, thread: u8)
        requires { thread < MAX_THREADS }
        ensures own { has self.new thread ≡ true }
        ensures others { (other : ℕ) → other ≢ thread → has self.new other ≡ has self.old other }
    {
        self.bits |= 1u16 << thread;
    }

    pub(crate) fn remove(&mut self, thread: u8)
        requires { thread < MAX_THREADS }
        ensures own { has self.new thread ≡ false }
        ensures others { (other : ℕ) → other ≢ thread → has self.new other ≡ has self.old other }
        ensures fewer { has self.old thread ≡ true → self.new.bits < self.old.bits }
    {
        let bits = self.bits;
        self.bits = bits & !(1u16 << thread);
    }

    /// Puts a thread in, or takes it out.
    #[inline(always)]
    pub(crate) fn set(&mut self, thread: u8, within: bool)
        requires { thread < MAX_THREADS }
        ensures own { has self.new thread ≡ within }
        ensures others { (other : ℕ) → other ≢ thread → has self.new other ≡ has self.old other }
    {
        if within {
            self.insert(thread);
        } else {
            self.remove(thread);
        }
    }

    /// The lowest thread of the set.
    #[inline(always)]
    pub(crate) fn lowest(&self) -> Option<u8>
        ensures some { IfSome result (IsLowestIn self.now) }
        ensures none { IsNone result → (thread : ℕ) → has self.now thread ≡ false }
    {
        let bits = self.bits;
        if bits == 0 {
            return None;
        }
        let lowest = bits.trailing_zeros();
        Some(lowest as u8)
    }
}
