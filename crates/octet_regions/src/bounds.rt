//! A number for each thread, as in a vector clock.
ghost use Rattle.std.specs.Prelude.{◌≡◌, ◌≢◌, ◌<◌, ℕ, false, true, get_or};
ghost use Rattle.octet_regions.specs.code.Holders.{may_have};

use octet_model::MAX_THREADS;

/// Which threads have a bound above 0.
#[derive(Clone, Copy)]
pub(crate) enum Holders {
    None,
    One { thread: u8 },
    Several,
}

impl Holders {
    // These threads, and one more.
    fn with(self, thread: u8) -> Holders
        ensures { (other : ℕ) → may_have result other ≡ false → (may_have self other ≡ false) × (other ≢ thread) }
    {
        match self {
            Holders::None => Holders::One { thread },
            Holders::One { thread: own } if own == thread => self,
            Holders::One { .. } | Holders::Several => Holders::Several,
        }
    }
}

/// For each thread a bound on the numbers of its regions: those that are meant are below it.
#[derive(Clone, Copy)]
pub(crate) struct Bounds {
    bounds: [u32; MAX_THREADS],
    holders: Holders,
    ghost held: { (thread : ℕ) → may_have holders thread ≡ false → get_or bounds thread 0 ≡ 0 },
}

impl Bounds {
    ghost use Rattle.octet_regions.specs.code.Bounds.{bound_in, IsRaised};

    /// Bounds below which nothing is.
    pub(crate) fn new() -> Bounds
        ensures { (thread : ℕ) → bound_in result thread ≡ 0 }
    {
        Bounds {
            bounds: [0; MAX_THREADS],
            holders: Holders::None,
        }
    }

    pub(crate) fn of(&self, thread: usize) -> u32
        ensures { result ≡ bound_in self.now thread }
    {
        if thread < MAX_THREADS {
            self.bounds[thread]
        } else {
            0
        }
    }

    /// Whether it is known that no other thread has a bound.
    #[inline(always)]
    pub(crate) fn is_alone(&self, thread: u8) -> bool
        ensures { result ≡ true → (other : ℕ) → other ≢ thread → bound_in self.now other ≡ 0 }
    {
        match self.holders {
            Holders::None => true,
            Holders::One { thread: own } => own == thread,
            Holders::Several => false,
        }
    }

    /// Raises a thread's bound, where it is lower.
    #[inline(always)]
    pub(crate) fn raise(&mut self, thread: u8, bound: u32)
        requires { thread < MAX_THREADS }
        ensures { IsRaised self.old thread bound self.new }
    {
        if bound <= self.bounds[thread as usize] {
            return;
        }
        self.bounds[thread as usize] = bound;
        self.holders = self.holders.with(thread);
    }
}
