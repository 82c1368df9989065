//! How a worker waits between two polls of its access, and when it is to rest.
ghost use Rattle.std.specs.Prelude.{◌≡◌, ◌+◌, ◌-◌, ◌*◌, ◌≤◌, ◌<◌, true, false, not, min, nat_eq, nat_le};
ghost use Rattle.std.specs.Duration.{as_nanos};
ghost use Rattle.octet_threads.specs.Rests.{rest_after};
ghost use Rattle.octet_threads.specs.declared.tuning.TheConstants.{POLLS_BEFORE_SLEEP, SHORTEST_SLEEP, LONGEST_SLEEP, SHORTEST_REST, LONGEST_REST, HEAT_OF_WAITING, HEAT_OF_SLEEP, HEAT_OF_REST};

use crate::tuning::{
    ACCESSES_OF_CALM, HEAT_OF_REST, HEAT_OF_SLEEP, HEAT_OF_WAITING, LONGEST_REST, LONGEST_SLEEP,
    POLLS_BEFORE_SLEEP, SHORTEST_REST, SHORTEST_SLEEP, SPINS_IF_HELD,
};
use crossbeam_utils::Backoff;
use octet_state::Why;
use std::sync::Wait;
use std::sync::atomic::AtomicU64;
use std::time::Duration;

/// How long a worker's access has waited, for which thread, and how much its last accesses had to. A
/// thread that was asked mostly runs, and answers within a microsecond: so at first the polls come
/// close, and again whenever another thread was asked. One that has no processor gets none sooner by
/// polls, and a processor that is given up by a yield may come back only after all others that want
/// it: so then the worker sleeps, and not for long, since it answers nobody meanwhile.
#[derive(Drop)]
pub(crate) struct AccessBackoff {
    accesses: u32,
    asked: Option<u8>,
    backoff: Backoff,
    polls: u32,
    sleep: u32,
    heat: u32,
    rest: u32,
    never: AtomicU64,
    ghost sleeps: { (SHORTEST_SLEEP ≤ sleep) × (sleep ≤ LONGEST_SLEEP) },
    ghost rests: { (SHORTEST_REST ≤ rest) × (rest ≤ LONGEST_REST) },
}

impl AccessBackoff {
    pub(crate) fn new() -> AccessBackoff
        ensures cool { result.heat ≡ 0 }
        ensures rest { result.rest ≡ SHORTEST_REST }
    {
        AccessBackoff {
            accesses: 0,
            asked: None,
            backoff: Backoff::new(),
            polls: 0,
            sleep: SHORTEST_SLEEP,
            heat: 0,
            rest: SHORTEST_REST,
            never: AtomicU64::new(0),
        }
    }

    // What it waits for is new: at first the polls come close.
    fn restart(&mut self, asked: Option<u8>)
        ensures anew { (self.new.polls ≡ 0) × (self.new.sleep ≡ SHORTEST_SLEEP) × (self.new.asked ≡ asked) }
        ensures same { (self.new.heat ≡ self.old.heat) × (self.new.rest ≡ self.old.rest) × (self.new.accesses ≡ self.old.accesses) }
    {
        self.asked = asked;
        self.backoff.reset();
        self.polls = 0;
        self.sleep = SHORTEST_SLEEP;
    }

    // Whether the access after so many has to wait for the first time. Then what is new is told too.
    fn begins(&mut self, accesses: u32, asked: Option<u8>) -> bool
        ensures value { result ≡ not (nat_eq accesses self.old.accesses) }
        ensures accesses { self.new.accesses ≡ accesses }
        ensures cools { self.new.heat ≡ self.old.heat - (accesses - self.old.accesses) }
        ensures rest { self.new.rest ≡ rest_after (accesses - self.old.accesses) self.old.rest }
        ensures anew { result ≡ true → (self.new.polls ≡ 0) × (self.new.sleep ≡ SHORTEST_SLEEP) }
        ensures same { result ≡ false → self.new ≡ self.old }
    {
        if accesses == self.accesses {
            return false;
        }
        let since = accesses.saturating_sub(self.accesses);
        self.accesses = accesses;
        self.heat = self.heat.saturating_sub(since);
        if since >= ACCESSES_OF_CALM {
            self.rest = SHORTEST_REST;
        }
        self.restart(asked);
        true
    }

    // How long it is to sleep. The next sleep is twice as long.
    fn next_sleep(&mut self) -> Duration
        ensures short { SHORTEST_SLEEP * 1_000 ≤ as_nanos result }
        ensures long { as_nanos result ≤ LONGEST_SLEEP * 1_000 }
        ensures same { (self.new.heat ≡ self.old.heat) × (self.new.rest ≡ self.old.rest) }
    {
        let sleep = self.sleep;
        self.sleep = sleep.saturating_mul(2).min(LONGEST_SLEEP);
        Duration::from_micros(u64::from(sleep))
    }

    // Spins, or sleeps where it has waited for so long that polls are of no use.
    fn spin_or_sleep<R: Wait>(&mut self, rt: &R)
        ensures spins { self.old.polls < POLLS_BEFORE_SLEEP → (self.new.polls ≡ self.old.polls + 1) × (self.new.heat ≡ self.old.heat) }
        ensures heat { (self.old.heat ≤ self.new.heat) × (self.new.heat ≤ self.old.heat + HEAT_OF_SLEEP) }
        ensures rest { self.new.rest ≡ self.old.rest }
    {
        if self.polls < POLLS_BEFORE_SLEEP {
            self.polls += 1;
            self.backoff.spin();
            return;
        }
        self.heat = self.heat.saturating_add(HEAT_OF_SLEEP);
        let time = self.next_sleep();
        self.never.park_timeout(rt, 0, time);
    }

    // Waits for the answer of a thread that was asked.
    #[cold]
    #[inline(never)]
    fn wait_for_answer<R: Wait>(&mut self, rt: &R, by: u8, accesses: u32)
        ensures heat { self.new.heat ≤ self.old.heat + HEAT_OF_WAITING + HEAT_OF_SLEEP }
        ensures rest { self.new.rest ≡ rest_after (accesses - self.old.accesses) self.old.rest }
    {
        if self.begins(accesses, Some(by)) {
            self.heat = self.heat.saturating_add(HEAT_OF_WAITING);
        } else if self.asked != Some(by) {
            self.restart(Some(by));
        }
        self.spin_or_sleep(rt);
    }

    // Waits for an object that another thread is taking, or has just taken.
    #[cold]
    #[inline(never)]
    fn wait_for_object<R: Wait>(&mut self, rt: &R, accesses: u32)
        ensures heat { self.new.heat ≤ self.old.heat + HEAT_OF_WAITING + HEAT_OF_SLEEP }
        ensures rest { self.new.rest ≡ rest_after (accesses - self.old.accesses) self.old.rest }
    {
        if self.begins(accesses, None) {
            self.heat = self.heat.saturating_add(HEAT_OF_WAITING);
            for _ in 0..SPINS_IF_HELD {
                self.backoff.spin();
            }
        }
        self.asked = None;
        self.spin_or_sleep(rt);
    }

    /// Lets some time pass before the next poll. The worker has made so many accesses.
    #[inline(always)]
    pub(crate) fn wait<R: Wait>(&mut self, rt: &R, why: Why, accesses: u32)
        ensures heat { self.new.heat ≤ self.old.heat + HEAT_OF_WAITING + HEAT_OF_SLEEP }
        ensures rest { self.new.rest ≡ rest_after (accesses - self.old.accesses) self.old.rest }
    {
        match why {
            Why::Unanswered { by, .. } => self.wait_for_answer(rt, by, accesses),
            Why::Held { .. } | Why::Changed { .. } => self.wait_for_object(rt, accesses),
        }
    }

    /// Whether it has waited so much of late that it is to rest.
    pub(crate) fn is_worn(&self) -> bool
        ensures { result ≡ nat_le HEAT_OF_REST self.now.heat }
    {
        self.heat >= HEAT_OF_REST
    }

    /// How long it is to rest. The next rest is twice as long.
    pub(crate) fn recover(&mut self) -> Duration
        ensures time { as_nanos result ≡ self.old.rest * 1_000 }
        ensures short { SHORTEST_REST * 1_000 ≤ as_nanos result }
        ensures long { as_nanos result ≤ LONGEST_REST * 1_000 }
        ensures next { self.new.rest ≡ min (2 * self.old.rest) LONGEST_REST }
        ensures cool { self.new.heat ≡ 0 }
    {
        let rest = self.rest;
        self.heat = 0;
        self.rest = rest.saturating_mul(2).min(LONGEST_REST);
        Duration::from_micros(u64::from(rest))
    }
}
