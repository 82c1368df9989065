//! Which threads may step, and what the others wait for.
ghost use Rattle.std.specs.Prelude.{◌≡◌, ◌≢◌, ◌<◌, ◌≤◌, ◌+◌, ℕ, suc, true, false, replicate, length, slice_get, slice_set, slice_index, Some, All, IfOk, IfSome, IsNone};
ghost use Rattle.octet_model.specs.declared.limits.TheConstants.{MAX_THREADS};
ghost use Rattle.octet_replay.specs.Needs.{after_events, after_step, is_met, is_ready, no_counts, IsLowestReady, NamesThread};
ghost use Rattle.octet_replay.specs.ThreadSet.{has};
ghost use Rattle.octet_replay.specs.WaitingLists.{counts_of, with_draw, ArePlacedBut, IsListed, IsPlaced, IsSized, Keeps};

use crate::Need;
use crate::thread_set::ThreadSet;
use crate::waiting::WaitingList;
use octet_model::{List, OutOfMemory};
use std::alloc::Global;
use std::marker::Model;

/// The counts, the threads whose needs are met, and lists of the others: one at each thread whose
/// events are waited for, and one at the draws.
#[derive(Debug, Drop)]
struct Lists {
    needs: Vec<Need>,
    events: Vec<u64>,
    draws: u64,
    ready: ThreadSet,
    at_events: Vec<WaitingList>,
    at_draws: WaitingList,
}

impl Lists {
    // Whether a thread's need is met. Puts the thread on the list of the count at which the need
    // changes, if that can come.
    #[inline(always)]
    fn enlist(&mut self, thread: u8, need: Need) -> bool
        requires thread { thread < MAX_THREADS }
        requires events { NamesThread (length self.old.events.items) need }
        requires lists { NamesThread (length self.old.at_events.items) need }
        ensures met { result ≡ is_met self.old.events.items self.old.draws need }
        ensures listed { IsListed self.new thread need }
        ensures others { (other : ℕ) (its : Need) → IsListed self.old other its → IsListed self.new other its }
        ensures kept { Keeps (counts_of self.old) self.old self.new }
        ensures ready { self.new.ready ≡ self.old.ready }
    {
        match need {
            Need::Free => true,
            Need::Never => false,
            Need::Events { of, count } => {
                if self.events[of as usize] < count {
                    self.at_events[of as usize].add(thread, count);
                    return false;
                }
                true
            }
            Need::DrawsAre { count } => {
                if self.draws == count {
                    self.at_draws.add(thread, count.saturating_add(1));
                    return true;
                }
                if self.draws < count {
                    self.at_draws.add(thread, count);
                }
                false
            }
            Need::DrawsReach { count } => {
                if self.draws < count {
                    self.at_draws.add(thread, count);
                    return false;
                }
                true
            }
        }
    }

    // Puts a thread where its need says: among those that may step, or not, and on a list.
    #[inline(always)]
    fn settle(&mut self, thread: u8, need: Need)
        requires sized { IsSized self.old }
        requires its { slice_get self.old.needs.items thread ≡ Some need }
        ensures placed { IsPlaced self.new thread }
        ensures others { (other : ℕ) → IsPlaced self.old other → IsPlaced self.new other }
        ensures sized { IsSized self.new }
        ensures kept { Keeps (counts_of self.old) self.old self.new }
    {
        let met = self.enlist(thread, need);
        self.ready.set(thread, met);
    }

    // Puts a thread where its need says, if there is such a thread.
    fn place(&mut self, thread: u8)
        requires { IsSized self.old }
        ensures placed { thread < length self.old.needs.items → IsPlaced self.new thread }
        ensures others { (other : ℕ) → IsPlaced self.old other → IsPlaced self.new other }
        ensures sized { IsSized self.new }
        ensures kept { Keeps (counts_of self.old) self.old self.new }
    {
        if (thread as usize) < self.needs.len() {
            let need = self.needs[thread as usize];
            self.settle(thread, need);
        }
    }

    // Places the threads that are due: mostly there are none.
    #[inline(always)]
    fn place_all(&mut self, threads: ThreadSet)
        requires { IsSized self.old }
        ensures placed { (thread : ℕ) → has threads thread ≡ true → thread < length self.old.needs.items → IsPlaced self.new thread }
        ensures others { (other : ℕ) → IsPlaced self.old other → IsPlaced self.new other }
        ensures sized { IsSized self.new }
        ensures kept { Keeps (counts_of self.old) self.old self.new }
    {
        if threads.is_empty() {
            return;
        }
        self.place_each(threads);
    }

    fn place_each(&mut self, mut threads: ThreadSet)
        requires { IsSized self.old }
        ensures placed { (thread : ℕ) → has threads thread ≡ true → thread < length self.old.needs.items → IsPlaced self.new thread }
        ensures others { (other : ℕ) → IsPlaced self.old other → IsPlaced self.new other }
        ensures sized { IsSized self.new }
        ensures kept { Keeps (counts_of self.old) self.old self.new }
    {
        while let Some(thread) = threads.lowest() {
            threads.remove(thread);
            self.place(thread);
        }
    }

    // Counts events of a thread, and places the threads that waited for them.
    #[inline(always)]
    fn count_events(&mut self, thread: u8, more: u64)
        requires sized { IsSized self.old }
        requires within { thread < length self.old.needs.items }
        requires room { slice_index self.old.events.items thread + more ≤ u64.MAX }
        ensures sized { IsSized self.new }
        ensures kept { Keeps (after_events (counts_of self.old) thread more) self.old self.new }
        ensures placed { (any : ℕ) → IsPlaced self.old any → IsPlaced self.new any }
    {
        let count = self.events[thread as usize] + more;
        self.events[thread as usize] = count;
        let due = self.at_events[thread as usize].take_due(count);
        self.place_all(due);
    }

    // Counts a draw, and places the threads whose needs it changes.
    fn count_draw(&mut self)
        requires sized { IsSized self.old }
        requires room { self.old.draws < u64.MAX }
        ensures sized { IsSized self.new }
        ensures kept { Keeps (with_draw (counts_of self.old)) self.old self.new }
        ensures placed { (but : ℕ) → ArePlacedBut self.old but → ArePlacedBut self.new but }
    {
        self.draws += 1;
        let due = self.at_draws.take_due(self.draws);
        self.place_all(due);
    }

    // Counts an event of a thread, which is a draw or not, and gives the thread its next need.
    #[inline(always)]
    fn step(&mut self, thread: u8, draw: bool, next: Need)
        requires sized { IsSized self.old }
        requires within { thread < length self.old.needs.items }
        requires names { NamesThread (length self.old.needs.items) next }
        requires events { slice_index self.old.events.items thread < u64.MAX }
        requires draws { draw ≡ true → self.old.draws < u64.MAX }
        requires placed { (any : ℕ) → IsPlaced self.old any }
        ensures sized { IsSized self.new }
        ensures kept { Keeps (after_step (counts_of self.old) thread draw next) self.old self.new }
        ensures placed { (any : ℕ) → IsPlaced self.new any }
    {
        self.needs[thread as usize] = next;
        self.count_events(thread, 1);
        if draw {
            self.count_draw();
        }
        self.settle(thread, next);
    }
}

/// Which threads may step, by what each waits for. Seen as one need for each thread, how many
/// events each has made, and how many draws were made.
///
/// A thread whose need is not met stands on a list at the thread whose events it waits for, or at
/// the draws, so that a step looks only at the threads that wait for what it counts.
#[derive(Debug, Drop)]
pub struct Waits {
    lists: Lists,
}

impl Model for Waits {
    ghost use Rattle.octet_replay.specs.Needs.{NeedsAndCounts};

    ghost Value = { NeedsAndCounts };

    ghost use Rattle.octet_replay.specs.WaitingLists.{counts_of, AreKept};

    ghost view = { λ w. counts_of w.lists };

    ghost invariant = { λ w. AreKept w.lists };
}

// No thread stands anywhere.
fn empty_lists(alloc: Global, needs: &List<Need>) -> Result<Lists, OutOfMemory>
    requires few { length needs.now ≤ MAX_THREADS }
    requires names { All (NamesThread (length needs.now)) needs.now }
    ensures counts { IfOk result (λ lists. counts_of lists ≡ no_counts needs.now) }
    ensures sized { IfOk result (λ lists. IsSized lists) }
    ensures ready { IfOk result (λ lists. (thread : ℕ) → has lists.ready thread ≡ false) }
{
    let threads = needs.len();
    Ok(Lists {
        needs: Vec::from_slice(alloc, needs.as_slice())?,
        events: vec![in alloc; 0; threads]?,
        draws: 0,
        ready: ThreadSet::empty(),
        at_events: vec![in alloc; WaitingList::new(); threads]?,
        at_draws: WaitingList::new(),
    })
}

impl Waits {
    /// Before the first event, of one to sixteen threads, whose needs name these. Takes all the
    /// memory that is ever needed.
    pub fn new(alloc: Global, needs: &List<Need>) -> Result<Waits, OutOfMemory>
        requires some { 1 ≤ length needs.now }
        requires few { length needs.now ≤ MAX_THREADS }
        requires names { All (NamesThread (length needs.now)) needs.now }
        ensures { IfOk result (λ waits. waits ≡ no_counts needs.now) }
    {
        let mut lists = empty_lists(alloc, needs)?;
        for thread in 0..needs.len() {
            lists.place(thread as u8);
        }
        Ok(Waits { lists })
    }

    /// The lowest thread whose need is met, found without looking at the others. Takes no memory.
    #[inline(always)]
    pub fn lowest(&self) -> Option<u8>
        ensures some { IfSome result (IsLowestReady self.now) }
        ensures none { IsNone result → (thread : ℕ) → is_ready self.now thread ≡ false }
    {
        self.lists.ready.lowest()
    }

    /// Counts an event of a thread whose need is met, and a draw where it is one, and gives the
    /// thread its next need. Takes no memory.
    #[inline(always)]
    pub fn step(&mut self, thread: u8, draw: bool, next: Need)
        requires met { is_ready self.old thread ≡ true }
        requires names { NamesThread (length self.old.needs) next }
        requires events { slice_index self.old.events thread < u64.MAX }
        requires draws { draw ≡ true → self.old.draws < u64.MAX }
        ensures { self.new ≡ after_step self.old thread draw next }
    {
        self.lists.step(thread, draw, next);
    }

    /// Counts events of a thread that goes on to have the need that it has. Takes no memory.
    #[inline(always)]
    pub fn count(&mut self, thread: u8, events: u64)
        requires within { thread < length self.old.needs }
        requires room { slice_index self.old.events thread + events ≤ u64.MAX }
        ensures { self.new ≡ after_events self.old thread events }
    {
        self.lists.count_events(thread, events);
    }
}
