//! The events that are noted of all threads, one after another, in an order that their marks allow.
ghost use Rattle.std.specs.Prelude.{◌≡◌, ◌↔◌, ◌+◌, ◌^◌, ◌<◌, ◌≤◌, IsTrue, true, length, map, slice_set, get_or, IfOk, IfErr, IfSome, IfNone, OnOk};
ghost use Rattle.octet_model.specs.declared.limits.TheConstants.{MAX_THREADS};
ghost use Rattle.octet_model.specs.Machine.{draws_after};
ghost use Rattle.octet_model.specs.Plays.{operation_of};
ghost use Rattle.octet_window.specs.Courses.{event_next, no_note, notes_of, AllMade, AreAllSteps, IsCourse, IsStuck, MayGoOn, NoneGoesOn};
ghost use Rattle.octet_window.specs.Histories.{may_be_made};

use crate::notes::Note;
use crate::refusal::Refusal;
use octet_model::{Event, List, MAX_THREADS, Mark, OutOfMemory};
use std::alloc::Global;

/// An event of a thread.
#[derive(Clone, Copy, Debug, PartialEq, Eq)]
pub(crate) struct Step {
    pub(crate) thread: u8,
    pub(crate) event: Event,
}

/// How far the threads are, whatever values their objects have.
#[derive(Drop)]
pub(crate) struct Course {
    pub(crate) steps: Vec<Step>,
    // How many events each thread has made.
    pub(crate) made: Vec<usize>,
    pub(crate) draws: u64,
}

// An event of no thread yet.
fn none_made(alloc: Global, threads: &[List<Note>]) -> Result<Vec<usize>, OutOfMemory>
    ensures { IfOk result (λ made. made.items ≡ map (λ notes. 0) threads.now) }
{
    let mut made = Vec::new(alloc);
    for _notes in threads {
        made.push(0)?;
    }
    Ok(made)
}

// The event of a thread at a place.
fn event_of(threads: &[List<Note>], thread: u8, place: usize) -> Event
    requires there { thread < length threads.now }
    requires within { place < length (notes_of threads.now thread) }
    ensures event { result ≡ (get_or (notes_of threads.now thread) place no_note).event }
    ensures small { place + 1 < 2 ^ 64 }
{
    threads[thread as usize].as_slice()[place].event
}

impl Course {
    // No event yet.
    fn new(alloc: Global, threads: &[List<Note>]) -> Result<Course, OutOfMemory>
        ensures { IfOk result (λ course. IsCourse threads.now course.steps.items course.made.items course.draws) }
    {
        Ok(Course {
            steps: Vec::new(alloc),
            made: none_made(alloc, threads)?,
            draws: 0,
        })
    }

    // How many events of a thread are made.
    fn made_by(&self, thread: u8) -> usize
        ensures { result ≡ get_or self.now.made.items thread 0 }
    {
        self.made.get(thread as usize).copied().unwrap_or(0)
    }

    // Whether the event may be made now.
    fn may_make(&self, event: Event) -> bool
        ensures { result ≡ may_be_made self.now.made.items self.now.draws event }
    {
        let Event::Marked { mark } = event else {
            return true;
        };
        match mark {
            Mark::Join { from, upto } => upto <= self.made_by(from) as u64,
            Mark::Draw { number } => number > 0 && number - 1 == self.draws,
            Mark::Fence { number } => number <= self.draws,
        }
    }

    // Whether the thread has an event left, which may be made now.
    fn may_go_on(&self, threads: &[List<Note>], thread: usize) -> bool
        requires there { thread < length threads.now }
        requires counted { length self.now.made.items ≡ length threads.now }
        ensures { IsTrue result ↔ MayGoOn threads.now self.now.made.items self.now.draws thread }
    {
        let made = self.made[thread];
        let notes = threads[thread].as_slice();
        made < notes.len() && self.may_make(notes[made].event)
    }

    // The lowest thread whose next event may be made.
    fn next(&self, threads: &[List<Note>]) -> Option<u8>
        requires few { length threads.now ≤ MAX_THREADS }
        requires counted { length self.now.made.items ≡ length threads.now }
        ensures there { IfSome result (λ thread. thread < length threads.now) }
        ensures goes_on { IfSome result (MayGoOn threads.now self.now.made.items self.now.draws) }
        ensures none { IfNone result (NoneGoesOn threads.now self.now.made.items self.now.draws) }
    {
        for thread in 0..threads.len() {
            if self.may_go_on(threads, thread) {
                return Some(thread as u8);
            }
        }
        None
    }

    // How many draws there are with this event.
    fn draws_with(&self, event: Event) -> u64
        requires { may_be_made self.now.made.items self.now.draws event ≡ true }
        ensures { result ≡ draws_after (operation_of event) self.now.draws }
    {
        match event {
            Event::Marked {
                mark: Mark::Draw { number },
            } => number,
            _ => self.draws,
        }
    }

    // Makes the next event of a thread.
    fn make(&mut self, threads: &[List<Note>], thread: u8) -> Result<(), OutOfMemory>
        requires course { IsCourse threads.now self.old.steps.items self.old.made.items self.old.draws }
        requires there { thread < length threads.now }
        requires next { MayGoOn threads.now self.old.made.items self.old.draws thread }
        ensures course { OnOk result (IsCourse threads.now self.new.steps.items self.new.made.items self.new.draws) }
        ensures made { OnOk result (self.new.made.items ≡ slice_set self.old.made.items thread (get_or self.old.made.items thread 0 + 1)) }
    {
        let place = self.made[thread as usize];
        let event = event_of(threads, thread, place);
        let draws = self.draws_with(event);
        self.steps.push(Step { thread, event })?;
        self.made[thread as usize] = place + 1;
        self.draws = draws;
        Ok(())
    }

    // Whether each thread has made all that is noted of it.
    fn has_made_all(&self, threads: &[List<Note>]) -> bool
        requires counted { length self.now.made.items ≡ length threads.now }
        ensures { IsTrue result ↔ AllMade threads.now self.now.made.items }
    {
        for thread in 0..threads.len() {
            if self.made[thread] < threads[thread].len() {
                return false;
            }
        }
        true
    }
}

/// All that is noted of the threads, in an order that the marks allow. Refused where there is none, and so no history.
pub(crate) fn steps_of(alloc: Global, threads: &[List<Note>]) -> Result<Vec<Step>, Refusal>
    requires few { length threads.now ≤ MAX_THREADS }
    ensures all { IfOk result (λ steps. AreAllSteps threads.now steps.items) }
    ensures refused { IfErr result (IsStuck threads.now) }
{
    let mut course = Course::new(alloc, threads)?;
    while let Some(thread) = course.next(threads) {
        course.make(threads, thread)?;
    }
    if !course.has_made_all(threads) {
        return Err(Refusal::NoHistory);
    }
    Ok(course.steps)
}
