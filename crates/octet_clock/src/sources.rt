//! What a mark takes into the past of its thread.
ghost use Rattle.std.specs.Prelude.{◌≡◌, ◌<◌, ◌≤◌, ◌+◌, ◌^◌, ℕ, suc, true, List, length, OnOk};
ghost use Rattle.octet_clock.specs.declared.sources.Prefix.{Prefix};
ghost use Rattle.octet_model.specs.declared.event.Event.{Event};
ghost use Rattle.octet_model.specs.declared.event.Event.TheVariants.{Marked};
ghost use Rattle.octet_clock.specs.Past.{IsPastOf};
ghost use Rattle.octet_clock.specs.Play.{made_by, IsWholePlay};
ghost use Rattle.octet_clock.specs.Sources.{IsNextStep, IsSource, KeepsDraws, KeepsAllMarks, TakesIn, draw_of, draws_with};

use crate::clock::Clock;
use crate::marks::Marks;
use octet_model::{MAX_THREADS, Mark, OutOfMemory};

/// A thread, and how many of its first events are meant.
#[derive(Clone, Copy)]
pub(crate) struct Prefix {
    pub(crate) thread: u8,
    pub(crate) count: u32,
}

// The draw of a number, with the events of its thread before it.
fn draw_of(draws: &[Prefix], number: u64) -> Option<Prefix>
    ensures { result ≡ draw_of draws.now number }
{
    if number == 0 {
        return None;
    }
    draws.get((number - 1) as usize).copied()
}

// Whose past a mark takes in: of a Join the events that it names; of a Draw the draw before it,
// and of a Fence the draw of its number, since all earlier ones lie in its past.
fn source_of(draws: &[Prefix], mark: Mark) -> Option<Prefix>
    ensures { (journals : List (List Event)) (play : List ℕ) (index thread : ℕ) → IsNextStep journals play index thread (Marked mark) → KeepsDraws journals play index draws.now → TakesIn journals play index thread result }
{
    match mark {
        Mark::Join { from, upto } => match u32::try_from(upto) {
            Ok(count) => Some(Prefix {
                thread: from,
                count,
            }),
            Err(_) => None,
        },
        Mark::Draw { number } => draw_of(draws, number.saturating_sub(1)),
        Mark::Fence { number } => draw_of(draws, number),
    }
}

/// The clock of a thread's first events.
pub(crate) fn clock_after(marks: &[Marks], thread: usize, count: u32) -> Clock
    requires { length marks.now ≤ MAX_THREADS }
    ensures { (journals : List (List Event)) (play : List ℕ) (index : ℕ) → IsWholePlay journals play → index ≤ length play → KeepsAllMarks journals play index marks.now → count ≤ made_by play index thread → IsPastOf journals thread count result }
{
    if thread < marks.len() {
        marks[thread].clock_after(thread, count)
    } else {
        Clock::new()
    }
}

// The clock after a mark that a thread makes after `count` events, where it takes in the past of
// another's first ones.
fn clock_with(marks: &[Marks], thread: usize, count: u32, first: Prefix) -> Clock
    requires threads { length marks.now ≤ MAX_THREADS }
    requires thread { thread < length marks.now }
    requires room { count + 1 < 2 ^ 32 }
    ensures { (journals : List (List Event)) (play : List ℕ) (index : ℕ) (event : Event) → IsNextStep journals play index thread event → IsSource journals play index thread first → KeepsAllMarks journals play index marks.now → count ≡ made_by play index thread → IsPastOf journals thread (suc count) result }
{
    let mut own = clock_after(marks, thread, count);
    let taken = clock_after(marks, first.thread as usize, first.count);
    own.join(&taken);
    own.raise(thread, count + 1);
    own
}

/// Whether a mark is a `Join` of events that its thread knows of already. Then nothing is to be kept
/// of it, and one comparison tells so.
#[inline(always)]
pub(crate) fn joins_known(marks: &[Marks], thread: usize, mark: Mark) -> bool
    requires { thread < length marks.now }
    ensures stay { result ≡ true → (journals : List (List Event)) (play : List ℕ) (index : ℕ) → IsNextStep journals play index thread (Marked mark) → KeepsAllMarks journals play index marks.now → KeepsAllMarks journals play (suc index) marks.now }
    ensures no_draw { result ≡ true → (draws : List Prefix) (upto : Prefix) → draws_with draws mark upto ≡ draws }
{
    match mark {
        Mark::Join { from, upto } => upto <= u64::from(marks[thread].last_known(from as usize)),
        Mark::Draw { .. } | Mark::Fence { .. } => false,
    }
}

/// Keeps the clock after a mark that a thread makes after `count` events, unless the thread knew
/// before it all that it takes in.
#[inline(never)]
pub(crate) fn keep_mark(
    marks: &mut [Marks],
    draws: &[Prefix],
    thread: usize,
    count: u32,
    mark: Mark,
) -> Result<(), OutOfMemory>
    requires threads { length marks.old ≤ MAX_THREADS }
    requires thread { thread < length marks.old }
    requires room { count + 1 < 2 ^ 32 }
    ensures { OnOk result ((journals : List (List Event)) (play : List ℕ) (index : ℕ) → IsNextStep journals play index thread (Marked mark) → KeepsDraws journals play index draws.now → KeepsAllMarks journals play index marks.old → count ≡ made_by play index thread → KeepsAllMarks journals play (suc index) marks.new) }
{
    let Some(first) = source_of(draws, mark) else {
        return Ok(());
    };
    if marks[thread].knows(thread, first) {
        return Ok(());
    }
    let clock = clock_with(marks, thread, count, first);
    marks[thread].keep(count, &clock)
}

/// Notes a draw, with the events of its thread up to it.
pub(crate) fn note_draw(
    draws: &mut Vec<Prefix>,
    mark: Mark,
    upto: Prefix,
) -> Result<(), OutOfMemory>
    ensures { OnOk result (draws.new.items ≡ draws_with draws.old.items mark upto) }
{
    if let Mark::Draw { .. } = mark {
        draws.push(upto)?;
    }
    Ok(())
}
