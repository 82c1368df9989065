//! What a thread makes in a window, as notes.
ghost use Rattle.std.specs.Prelude.{◌≡◌, ◌++◌, ◌∷◌, [], IfOk, OnOk};
ghost use Rattle.octet_window.specs.Fronts.{made_in};
ghost use Rattle.octet_window.specs.Noting.{events_of, notes_in};
ghost use Rattle.octet_window.specs.Ordering.{accesses_in};
ghost use Rattle.octet_tail.specs.Merging.{merged, of_thread};

use crate::placed::Placed;
use octet_model::{Event, List, OutOfMemory};
use octet_window::{Front, Notes};
use std::alloc::Global;

/// Of these marks those of the thread that the front has, in order.
pub fn marks_of(
    alloc: Global,
    thread: u8,
    upto: &Front,
    marks: &[Placed],
) -> Result<List<Placed>, OutOfMemory>
    ensures { IfOk result (λ own. own ≡ of_thread thread upto.now marks.now) }
{
    let mut own = List::new(alloc);
    for placed in marks {
        if placed.thread == thread && placed.events <= made_by(upto, thread) {
            own.push(*placed)?;
        }
    }
    Ok(own)
}

/// How many events the front has of the thread.
pub fn made_by(front: &Front, thread: u8) -> u64
    ensures { result ≡ made_in front.now thread }
{
    front
        .made
        .as_slice()
        .get(thread as usize)
        .copied()
        .unwrap_or(0)
}

// Notes one event more.
fn note(notes: &mut Notes, event: Event) -> Result<(), OutOfMemory>
    ensures { OnOk result (events_of (notes_in notes.new) ≡ events_of (notes_in notes.old) ++ event ∷ []) }
{
    if notes.note(event) {
        Ok(())
    } else {
        Err(OutOfMemory)
    }
}

// Notes these events.
fn note_all(notes: &mut Notes, events: &[Event]) -> Result<(), OutOfMemory>
    ensures { OnOk result (events_of (notes_in notes.new) ≡ events_of (notes_in notes.old) ++ events.now) }
{
    for event in events {
        note(notes, *event)?;
    }
    Ok(())
}

// The accesses and the marks of a thread, noted in their order.
fn merge(
    alloc: Global,
    front: &Front,
    before: u64,
    accesses: &[Event],
    marks: &[Placed],
) -> Result<Notes, OutOfMemory>
    ensures events { IfOk result (λ notes. events_of (notes_in notes) ≡ merged front.now before accesses.now marks.now) }
{
    let mut notes = Notes::new(alloc, accesses.len().saturating_add(marks.len()))?;
    let mut come = before;
    let mut left = accesses;
    for placed in marks {
        let gap = placed.accesses.saturating_sub(come);
        let (now, later) = left.split_at(left.len().min(gap as usize));
        note_all(&mut notes, now)?;
        note(
            &mut notes,
            Event::Marked {
                mark: front.shifted(placed.mark),
            },
        )?;
        come = come.max(placed.accesses);
        left = later;
    }
    note_all(&mut notes, left)?;
    Ok(notes)
}

/// The notes of a thread from a front on, before which it has made so many accesses. These are its accesses after the
/// front, and its marks.
pub fn notes_after(
    alloc: Global,
    front: &Front,
    before: u64,
    accesses: &[Event],
    marks: &[Placed],
) -> Result<Notes, OutOfMemory>
    ensures events { IfOk result (λ notes. events_of (notes_in notes) ≡ merged front.now before accesses.now marks.now) }
    ensures accesses { IfOk result (λ notes. accesses_in (events_of (notes_in notes)) ≡ accesses_in accesses.now) }
{
    let notes = merge(alloc, front, before, accesses, marks)?;
    Ok(notes)
}
