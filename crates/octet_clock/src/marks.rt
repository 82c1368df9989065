//! The marks that a thread has made, each with its clock.
ghost use Rattle.std.specs.Prelude.{◌≡◌, ◌<◌, ◌≤◌, [], ℕ, suc, true, false, nat_lt, List, length, OnOk};
ghost use Rattle.std.specs.List.Sorted.{IsNonDecreasingBy, IsPartitionPoint};
ghost use Rattle.octet_model.specs.declared.event.Event.{Event};
ghost use Rattle.octet_model.specs.Machine.{journal_of};
ghost use Rattle.octet_clock.specs.Clock.{count_in};
ghost use Rattle.octet_clock.specs.Past.{count_after, HasPast, IsPastOf, KeepsMarks};

use crate::clock::Clock;
use crate::sources::Prefix;
use octet_model::{MAX_THREADS, OutOfMemory};
use std::alloc::Global;

/// The marks that a thread has made. What a thread knows of others changes at its marks alone,
/// so they give its clock after any of its events. Each clock is kept as wide as there are
/// threads.
#[derive(Drop)]
pub(crate) struct Marks {
    threads: usize,
    /// The places of the marks in their thread's journal.
    events: Vec<u32>,
    /// The counts of the clocks after them, one clock after another.
    counts: Vec<u32>,
}

impl Marks {
    pub(crate) fn new(alloc: Global, threads: usize) -> Marks
        ensures threads { result.threads ≡ threads }
        ensures events { result.events.items ≡ [] }
        ensures counts { result.counts.items ≡ [] }
    {
        Marks {
            threads,
            events: Vec::new(alloc),
            counts: Vec::new(alloc),
        }
    }

    // How many of the kept marks are among the thread's first `upto` events.
    fn kept_before(&self, upto: u32) -> usize
        ensures within { result ≤ length self.now.events.items }
        ensures point { IsNonDecreasingBy (λ event. event) self.now.events.items → IsPartitionPoint (λ event. nat_lt event upto ≡ true) (λ event. nat_lt event upto ≡ false) self.now.events.items result }
    {
        match self.events.last() {
            Some(last) if *last < upto => self.events.len(),
            _ => self.events.partition_point(|event| *event < upto),
        }
    }

    // How many of a thread's first events are known after a kept mark.
    #[inline(always)]
    fn count_after(&self, place: usize, thread: usize) -> u32
        ensures { result ≡ count_after self.now place thread }
    {
        if thread >= self.threads {
            return 0;
        }
        let at = place.saturating_mul(self.threads).saturating_add(thread);
        match self.counts.get(at) {
            Some(count) => *count,
            None => 0,
        }
    }

    // The clock after a kept mark.
    fn clock_at(&self, place: usize) -> Clock
        ensures { self.now.threads ≤ MAX_THREADS → (thread : ℕ) → count_in result thread ≡ count_after self.now place thread }
    {
        let kept = self.counts.len();
        let from = place.saturating_mul(self.threads).min(kept);
        let upto = from.saturating_add(self.threads).min(kept);
        Clock::of_first(&self.counts[from..upto])
    }

    /// The clock of the thread's first `upto` events.
    pub(crate) fn clock_after(&self, thread: usize, upto: u32) -> Clock
        requires { thread < MAX_THREADS }
        ensures { (journals : List (List Event)) (now : ℕ) → KeepsMarks journals thread now self.now → upto ≤ now → now ≤ length (journal_of journals thread) → IsPastOf journals thread upto result }
    {
        let earlier = self.kept_before(upto);
        let mut known = if earlier == 0 {
            Clock::new()
        } else {
            self.clock_at(earlier - 1)
        };
        known.raise(thread, upto);
        known
    }

    /// How many of another thread's first events the thread knows of since its last kept mark.
    #[inline(always)]
    pub(crate) fn last_known(&self, other: usize) -> u32
        ensures { (journals : List (List Event)) (thread now : ℕ) → KeepsMarks journals thread now self.now → HasPast journals thread now (record { thread = other; count = result }) }
    {
        match self.events.len() {
            0 => 0,
            kept => self.count_after(kept - 1, other),
        }
    }

    /// Whether the thread's past has another's first events, or as many of its own.
    #[inline(always)]
    pub(crate) fn knows(&self, thread: usize, first: Prefix) -> bool
        ensures { result ≡ true → (journals : List (List Event)) (now : ℕ) → KeepsMarks journals thread now self.now → (first.thread ≡ thread → first.count ≤ now) → HasPast journals thread now first }
    {
        let other = first.thread as usize;
        other == thread || first.count <= self.last_known(other)
    }

    /// Keeps a mark with the clock after it.
    pub(crate) fn keep(&mut self, event: u32, clock: &Clock) -> Result<(), OutOfMemory>
        ensures { OnOk result ((journals : List (List Event)) (thread : ℕ) → IsPastOf journals thread (suc event) clock.now → KeepsMarks journals thread event self.old → KeepsMarks journals thread (suc event) self.new) }
    {
        self.events.push(event)?;
        self.counts.extend_from_slice(clock.first(self.threads))?;
        Ok(())
    }
}
