//! The check of journals alone, along their lowest play.
ghost use Rattle.std.specs.Prelude.{◌≡◌, ◌<◌, ◌↔◌, suc, true, Some, [], length, slice_get, slice_index, IfOk, OnOk, IsTrue};
ghost use Rattle.octet_model.specs.HappensBefore.{event_at, is_access, IsOrdered};
ghost use Rattle.octet_model.specs.Plays.{next_in, lowest_play};
ghost use Rattle.octet_replay.specs.declared.need.Need.TheVariants.{Free};
ghost use Rattle.octet_replay.specs.Needs.{after_step, is_ready, IsLowestReady, NamesThread};
ghost use Rattle.octet_replay.specs.Replayed.{is_draw};
ghost use Rattle.octet_replay.specs.Threads.{need_of};
ghost use Rattle.octet_clock.specs.declared.verdict.Verdict.TheVariants.{Ordered};
ghost use Rattle.octet_clock.specs.Following.{counted};
ghost use Rattle.octet_clock.specs.Ordered.{AreNeedsAtStart, AreOfLawfulOrder, ChecksAt};

use crate::checker::Checker;
use crate::sharing::nothing_conflicts;
use crate::verdict::Verdict;
use octet_model::{Event, List, OutOfMemory};
use octet_replay::{Need, Waits, is_draw};
use std::alloc::Global;

// The event at a place of a thread's journal.
fn event_at(journals: &[List<Event>], thread: usize, place: u32) -> Option<Event>
    ensures { result ≡ event_at journals.now (record { thread = thread; event = place }) }
{
    journals.get(thread)?.get(place as usize).copied()
}

// What a thread waits for whose next event this is.
fn need_of(next: Option<Event>) -> Need
    ensures { result ≡ need_of (next_in next) }
{
    match next {
        Some(Event::Marked { mark }) => Need::of_mark(mark),
        Some(Event::Read { .. } | Event::Write { .. } | Event::Update { .. }) => Need::Free,
        None => Need::Never,
    }
}

fn needs_at_start(alloc: Global, journals: &[List<Event>]) -> Result<List<Need>, OutOfMemory>
    ensures { IfOk result (AreNeedsAtStart journals.now) }
{
    let mut needs = List::new(alloc);
    for journal in journals {
        needs.push(need_of(journal.get(0).copied()))?;
    }
    Ok(needs)
}

/// What is known of the events so far, and what each thread waits for.
#[derive(Drop)]
struct JournalCheck {
    checker: Checker,
    waits: Waits,
}

impl JournalCheck {
    fn new(alloc: Global, journals: &[List<Event>]) -> Result<JournalCheck, OutOfMemory>
        requires { AreOfLawfulOrder journals.now }
        ensures at { IfOk result (ChecksAt journals.now) }
        ensures ordered { IfOk result (λ check. check.checker.verdict ≡ Ordered) }
    {
        let needs = needs_at_start(alloc, journals)?;
        Ok(JournalCheck {
            checker: Checker::new(alloc, journals.len())?,
            waits: Waits::new(alloc, &needs)?,
        })
    }

    // Takes in the next event of the lowest thread that may step.
    #[inline(always)]
    fn step(&mut self, journals: &[List<Event>], thread: u8) -> Result<(), OutOfMemory>
        requires lawful { AreOfLawfulOrder journals.now }
        requires at { ChecksAt journals.now self.old }
        requires lowest { IsLowestReady self.old.waits thread }
        ensures at { OnOk result (ChecksAt journals.now self.new) }
        ensures within { counted self.old.waits < length (lowest_play [] journals.now) }
        ensures more { OnOk result (counted self.new.waits ≡ suc (counted self.old.waits)) }
    {
        let place = self.checker.made.count(thread as usize);
        let Some(event) = event_at(journals, thread as usize, place) else {
            unreachable!()
        };
        self.checker.take_in(thread as usize, event)?;
        let next = need_of(event_at(journals, thread as usize, place + 1));
        count_event(&mut self.waits, thread, event, next);
        Ok(())
    }
}

// Counts an event of a thread and gives the thread its next need. Mostly it has none before and after.
#[inline(always)]
fn count_event(waits: &mut Waits, thread: u8, event: Event, next: Need)
    requires met { is_ready waits.old thread ≡ true }
    requires names { NamesThread (length waits.old.needs) next }
    requires events { slice_index waits.old.events thread < u64.MAX }
    requires draws { is_draw event ≡ true → waits.old.draws < u64.MAX }
    requires free { is_access event ≡ true → slice_get waits.old.needs thread ≡ Some Free }
    ensures { waits.new ≡ after_step waits.old thread (is_draw event) next }
{
    match next {
        Need::Free if event.is_access() => waits.count(thread, 1),
        _ => waits.step(thread, is_draw(event), next),
    }
}

/// Whether the journals of a lawful order are ordered: whether of every two conflicting accesses
/// one happens before the other. Takes time in proportion to the events.
pub fn ordered(alloc: Global, journals: &List<List<Event>>) -> Result<bool, OutOfMemory>
    requires { AreOfLawfulOrder journals.now }
    ensures { IfOk result (λ ordered. IsTrue ordered ↔ IsOrdered journals.now) }
{
    let journals = journals.as_slice();
    if nothing_conflicts(alloc, journals)? {
        return Ok(true);
    }
    let mut check = JournalCheck::new(alloc, journals)?;
    while let Some(thread) = check.waits.lowest() {
        check.step(journals, thread)?;
        if let Verdict::Unordered { .. } = check.checker.verdict {
            return Ok(false);
        }
    }
    Ok(true)
}
