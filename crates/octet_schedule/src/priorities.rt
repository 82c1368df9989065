//! Schedules by priorities (PCT: Burckhardt, Kothari, Musuvathi and Nagarakatte, "A Randomized Scheduler with Probabilistic
//! Guarantees of Finding Bugs", ASPLOS 2010).
ghost use Rattle.std.specs.Prelude.{◌≡◌, ◌≤◌, ◌<◌, true, nat_lt, length, MatchOption, Some};
ghost use Rattle.std.specs.Option.{ForSome, option_map_or};
ghost use Rattle.octet_model.specs.declared.limits.TheConstants.{MAX_THREADS};
ghost use Rattle.octet_schedule.specs.Draws.{next_draws, draws_after};
ghost use Rattle.octet_schedule.specs.Ready.{IsReady, SomeIsReady, NoneIn, SomeIsCandidate};
ghost use Rattle.octet_schedule.specs.Ways.{AreDrawn, drawn_changes, rank_of, CountsDown, IsPutLast, IsFirstInRank, PutsLast, GoesByRank};

use crate::draws::Draws;
use crate::ready::{first_in, is_ready};
use octet_model::MAX_THREADS;

/// Ranks that are drawn lie below this one; a thread that is put last gets one above it.
const DRAWN_RANKS: u64 = 1 << 32;

/// How often the thread at work is put last.
#[derive(Clone, Copy, Debug, PartialEq, Eq)]
pub struct Changes {
    /// So many times.
    pub times: u64,
    /// After so many accesses next.
    pub after: u64,
    /// Then each time after fewer accesses than so many, or after none.
    pub apart: u64,
}

/// The order of the threads, by their ranks.
#[derive(Clone, Copy, Debug, PartialEq, Eq)]
pub(crate) struct Ranks {
    pub(crate) ranks: [u64; MAX_THREADS],
    /// The rank of the next thread that is put last.
    pub(crate) last: u64,
}

/// The ready thread of the lowest rank goes on.
#[derive(Drop)]
pub(crate) struct Priorities {
    pub(crate) order: Ranks,
    pub(crate) changes: Changes,
}

impl Changes {
    /// So many, at places that are drawn.
    pub fn drawn(draws: &mut Draws, times: u64) -> Changes
        ensures changes { result ≡ drawn_changes draws.old.generator times }
        ensures draws { draws.new.generator ≡ next_draws (next_draws draws.old.generator) }
    {
        let apart = 4 * (1u64 << draws.below(5));
        Changes {
            times,
            after: draws.below(apart),
            apart,
        }
    }

    // Whether the thread at work is put last now.
    fn is_due(&mut self, draws: &mut Draws) -> bool
        ensures { CountsDown self.old draws.old.generator result self.new draws.new.generator }
    {
        if self.after > 0 || self.times == 0 {
            self.after = self.after.saturating_sub(1);
            return false;
        }
        self.times -= 1;
        self.after = draws.below(self.apart.max(1));
        true
    }
}

impl Ranks {
    #[tactic(auto, unfolding(crate::specs::Draws::draws_after))]
    fn drawn(draws: &mut Draws) -> Ranks
        ensures ranks { AreDrawn draws.old.generator DRAWN_RANKS result.ranks }
        ensures draws { draws.new.generator ≡ draws_after draws.old.generator MAX_THREADS }
        ensures last { result.last ≡ DRAWN_RANKS }
    {
        let mut ranks = [0; MAX_THREADS];
        for rank in &mut ranks {
            *rank = draws.below(DRAWN_RANKS);
        }
        Ranks {
            ranks,
            last: DRAWN_RANKS,
        }
    }

    fn put_last(&mut self, thread: u8)
        requires { thread < MAX_THREADS }
        ensures { IsPutLast self.old thread self.new }
    {
        self.ranks[thread as usize] = self.last;
        self.last = self.last.saturating_add(1);
    }

    // Whether a thread has a lower rank than the other one, if there is one.
    fn is_lower(&self, thread: u8, other: Option<u8>) -> bool
        requires thread { thread < MAX_THREADS }
        requires other { ForSome other (λ other. other < MAX_THREADS) }
        ensures { result ≡ option_map_or (λ other. nat_lt (rank_of self.now thread) (rank_of self.now other)) other true }
    {
        match other {
            Some(other) => self.ranks[thread as usize] < self.ranks[other as usize],
            None => true,
        }
    }

    // The ready thread of the lowest rank, but for the one that is passed over.
    fn first(&self, ready: &[bool], passed_over: Option<u8>) -> Option<u8>
        requires { length ready.now ≤ MAX_THREADS }
        ensures { MatchOption result (NoneIn ready.now passed_over 0 (length ready.now)) (IsFirstInRank self.now ready.now passed_over (length ready.now)) }
    {
        let mut first = None;
        for thread in 0..ready.len() as u8 {
            if is_ready(ready, thread)
                && Some(thread) != passed_over
                && self.is_lower(thread, first)
            {
                first = Some(thread);
            }
        }
        first
    }
}

impl Priorities {
    pub(crate) fn drawn(draws: &mut Draws, changes: Changes) -> Priorities
        ensures ranks { AreDrawn draws.old.generator DRAWN_RANKS result.order.ranks }
        ensures draws { draws.new.generator ≡ draws_after draws.old.generator MAX_THREADS }
        ensures last { result.order.last ≡ DRAWN_RANKS }
        ensures changes { result.changes ≡ changes }
    {
        Priorities {
            order: Ranks::drawn(draws),
            changes,
        }
    }

    // Puts the thread at work last, where another one is ready, if it is time. Gives it where it has.
    fn put_last(
        &mut self,
        draws: &mut Draws,
        ready: &[bool],
        at_work: Option<u8>,
        is_tired: bool,
    ) -> Option<u8>
        requires few { length ready.now ≤ MAX_THREADS }
        requires at_work { ForSome at_work (λ thread. IsReady ready.now thread) }
        ensures puts { PutsLast self.old draws.old.generator ready.now at_work is_tired result self.new draws.new.generator }
        ensures others { ForSome result (λ thread. SomeIsCandidate ready.now (Some thread)) }
    {
        let Some(thread) = at_work else {
            return None;
        };
        if first_in(ready, 0, ready.len() as u8, at_work).is_none() {
            return None;
        }
        if !is_tired && !self.changes.is_due(draws) {
            return None;
        }
        self.order.put_last(thread);
        Some(thread)
    }

    /// The thread that comes next. The one at work is ready, and may be tired.
    pub(crate) fn pick(
        &mut self,
        draws: &mut Draws,
        ready: &[bool],
        at_work: Option<u8>,
        is_tired: bool,
    ) -> u8
        requires few { length ready.now ≤ MAX_THREADS }
        requires some { SomeIsReady ready.now }
        requires at_work { ForSome at_work (λ thread. IsReady ready.now thread) }
        ensures ready { IsReady ready.now result }
        ensures rests { is_tired ≡ true → at_work ≡ Some result → NoneIn ready.now at_work 0 (length ready.now) }
        ensures goes { GoesByRank self.old draws.old.generator ready.now at_work is_tired result self.new draws.new.generator }
    {
        let passed_over = self.put_last(draws, ready, at_work, is_tired);
        let Some(thread) = self.order.first(ready, passed_over) else {
            unreachable!()
        };
        thread
    }
}
