//! The check of journals, event by event along their lowest play.
ghost use Rattle.std.specs.Prelude.{◌≡◌, ◌<◌, ◌≤◌, ◌+◌, ◌^◌, [], ℕ, suc, Bool, true, List, length, Some, OnOk, IfOk};
ghost use Rattle.octet_model.specs.declared.event.Event.{Event};
ghost use Rattle.octet_model.specs.declared.event.Event.TheVariants.{Marked};
ghost use Rattle.octet_model.specs.Machine.{Journals};
ghost use Rattle.octet_model.specs.HappensBefore.{object_of, is_write};
ghost use Rattle.octet_clock.specs.declared.verdict.Verdict.TheVariants.{Ordered};
ghost use Rattle.octet_clock.specs.Checker.{Holds, TakesEvent};
ghost use Rattle.octet_clock.specs.Clock.{count_in};
ghost use Rattle.octet_clock.specs.LastAccesses.{LieWithin};
ghost use Rattle.octet_clock.specs.Play.{made_by};
ghost use Rattle.octet_clock.specs.Sources.{IsNextStep};
ghost use Rattle.octet_clock.specs.Verdict.{JudgedUpTo, UnorderedConflictIs};
ghost use Rattle.octet_clock.specs.Verified.{IsJudged};

use crate::accesses::Accesses;
use crate::clock::Clock;
use crate::marks::Marks;
use crate::sources::{Prefix, clock_after, joins_known, keep_mark, note_draw};
use crate::verdict::Verdict;
use octet_model::{Event, MAX_THREADS, Mark, OutOfMemory, Place};
use octet_replay::{NextStep, Replayer};
use std::alloc::Global;

/// What is known of the events so far.
#[derive(Drop)]
pub(crate) struct Checker {
    pub(crate) made: Clock,
    marks: Vec<Marks>,
    draws: Vec<Prefix>,
    accesses: Accesses,
    pub(crate) verdict: Verdict,
}

impl Checker {
    pub(crate) fn new(alloc: Global, threads: usize) -> Result<Checker, OutOfMemory>
        requires { threads ≤ MAX_THREADS }
        ensures many { IfOk result (λ checker. length checker.marks.items ≡ threads) }
        ensures holds { IfOk result (λ checker. (journals : Journals) (play : List ℕ) → length journals ≡ threads → Holds journals play 0 checker) }
        ensures ordered { IfOk result (λ checker. checker.verdict ≡ Ordered) }
    {
        let mut marks = Vec::new(alloc);
        for _ in 0..threads {
            marks.push(Marks::new(alloc, threads))?;
        }
        Ok(Checker {
            made: Clock::new(),
            marks,
            draws: Vec::new(alloc),
            accesses: Accesses::new(alloc),
            verdict: Verdict::Ordered,
        })
    }

    // The earlier conflicting access that does not happen before a thread's access, if there is one.
    fn unordered_conflict(&self, thread: usize, object: u16, writing: bool) -> Option<Place>
        requires threads { length self.now.marks.items ≤ MAX_THREADS }
        requires thread { thread < length self.now.marks.items }
        ensures { (journals : Journals) (play : List ℕ) (index : ℕ) (event : Event) → IsNextStep journals play index thread event → object_of event ≡ Some object → is_write event ≡ writing → Holds journals play index self.now → UnorderedConflictIs journals play index result }
    {
        let known = clock_after(&self.marks, thread, self.made.count(thread));
        self.accesses
            .unordered_conflict(self.marks.len(), thread, object, writing, &known)
    }

    // The verdict with a thread's access.
    fn judged(&self, thread: usize, object: u16, writing: bool) -> Verdict
        requires threads { length self.now.marks.items ≤ MAX_THREADS }
        requires thread { thread < length self.now.marks.items }
        ensures { (journals : Journals) (play : List ℕ) (index : ℕ) (event : Event) → IsNextStep journals play index thread event → object_of event ≡ Some object → is_write event ≡ writing → Holds journals play index self.now → JudgedUpTo journals play (suc index) result }
    {
        match self.verdict {
            Verdict::Unordered { .. } => self.verdict,
            Verdict::Ordered => match self.unordered_conflict(thread, object, writing) {
                None => Verdict::Ordered,
                Some(first) => Verdict::Unordered {
                    first,
                    second: Place {
                        thread: thread as u8,
                        event: self.made.count(thread),
                    },
                },
            },
        }
    }

    // Whether all accesses of the object that conflict with a read or a write are known to lie in a
    // thread's past.
    #[inline(always)]
    fn knows_conflicts(&self, thread: usize, object: u16, writing: bool) -> bool
        requires thread { thread < length self.now.marks.items }
        ensures { result ≡ true → (journals : Journals) (play : List ℕ) (index : ℕ) → Holds journals play index self.now → LieWithin journals play index object writing thread (made_by play index thread) }
    {
        match self.accesses.conflicts_within(object, writing) {
            Some(first) => self.marks[thread].knows(thread, first),
            None => false,
        }
    }

    // Whether a thread's access is known to follow all that it conflicts with; `knows_all` where the
    // thread knew of all accesses of the object.
    #[inline(always)]
    fn follows(&self, thread: usize, object: u16, writing: bool, knows_all: bool) -> bool
        requires thread { thread < length self.now.marks.items }
        ensures { result ≡ true → (journals : Journals) (play : List ℕ) (index : ℕ) → Holds journals play index self.now → (knows_all ≡ true → LieWithin journals play index object true thread (made_by play index thread)) → LieWithin journals play index object writing thread (made_by play index thread) }
    {
        if knows_all {
            return true;
        }
        if writing {
            return false;
        }
        self.knows_conflicts(thread, object, false)
    }

    fn take_access(&mut self, thread: usize, object: u16, writing: bool) -> Result<(), OutOfMemory>
        requires threads { length self.old.marks.items ≤ MAX_THREADS }
        requires thread { thread < length self.old.marks.items }
        requires room { count_in self.old.made thread + 1 < 2 ^ 32 }
        ensures many { OnOk result (length self.new.marks.items ≡ length self.old.marks.items) }
        ensures taken { OnOk result ((event : Event) → object_of event ≡ Some object → is_write event ≡ writing → TakesEvent self.old thread event self.new) }
    {
        let count = self.made.count(thread) + 1;
        let knows_all = self.knows_conflicts(thread, object, true);
        if !self.follows(thread, object, writing, knows_all) {
            self.verdict = self.judged(thread, object, writing);
        }
        self.accesses
            .note(object, writing, thread, count, knows_all)?;
        self.made.raise(thread, count);
        Ok(())
    }

    #[inline(always)]
    fn take_mark(&mut self, thread: usize, mark: Mark) -> Result<(), OutOfMemory>
        requires threads { length self.old.marks.items ≤ MAX_THREADS }
        requires thread { thread < length self.old.marks.items }
        requires room { count_in self.old.made thread + 1 < 2 ^ 32 }
        ensures many { OnOk result (length self.new.marks.items ≡ length self.old.marks.items) }
        ensures taken { OnOk result (TakesEvent self.old thread (Marked mark) self.new) }
    {
        let count = self.made.count(thread);
        if joins_known(&self.marks, thread, mark) {
            self.made.raise(thread, count + 1);
            return Ok(());
        }
        keep_mark(&mut self.marks, &self.draws, thread, count, mark)?;
        let upto = Prefix {
            thread: thread as u8,
            count: count + 1,
        };
        note_draw(&mut self.draws, mark, upto)?;
        self.made.raise(thread, count + 1);
        Ok(())
    }

    /// Takes in a thread's next event.
    #[inline(always)]
    pub(crate) fn take_in(&mut self, thread: usize, event: Event) -> Result<(), OutOfMemory>
        requires threads { length self.old.marks.items ≤ MAX_THREADS }
        requires thread { thread < length self.old.marks.items }
        requires room { count_in self.old.made thread + 1 < 2 ^ 32 }
        ensures many { OnOk result (length self.new.marks.items ≡ length self.old.marks.items) }
        ensures taken { OnOk result (TakesEvent self.old thread event self.new) }
    {
        match event {
            Event::Read { object, .. } => self.take_access(thread, object, false),
            Event::Write { object, .. } | Event::Update { object, .. } => {
                self.take_access(thread, object, true)
            }
            Event::Marked { mark } => self.take_mark(thread, mark),
        }
    }
}

/// Judges the events of a replay one by one, from its first step on, up to the first access that
/// some earlier conflicting one does not happen before.
///
/// After each mark its thread's vector clock is kept, since a `Join` of a thread's first events
/// takes in what the thread knew when it had made these, and not what it knows by now.
pub(crate) fn judge(
    alloc: Global,
    replayer: &mut Replayer<'_>,
    threads: usize,
) -> Result<Verdict, OutOfMemory>
    requires threads { threads ≡ length replayer.old.log.threads }
    requires agree { length replayer.old.script.threads ≡ length replayer.old.log.threads }
    requires begins { replayer.old.steps ≡ 0 }
    ensures { IfOk result (IsJudged replayer.old replayer.new) }
{
    let mut checker = Checker::new(alloc, threads)?;
    let mut upcoming = replayer.lowest_step();
    while let Some(step) = upcoming {
        let thread = step.thread as usize;
        upcoming = if let NextStep::Mark { mark } = step.next {
            // A mark goes a way of its own: the log alone tells it, and it needs no verdict.
            let (_, after) = replayer.make(step);
            checker.take_mark(thread, mark)?;
            after
        } else {
            let (event, after) = replayer.make(step);
            checker.take_in(thread, event)?;
            if let Verdict::Unordered { .. } = checker.verdict {
                return Ok(checker.verdict);
            }
            after
        };
    }
    Ok(checker.verdict)
}
