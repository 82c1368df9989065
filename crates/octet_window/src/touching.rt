//! The objects that threads access, and their places among these.
ghost use Rattle.std.specs.Prelude.{◌≡◌, ◌<◌, ◌≤◌, ℕ, true, [], length, map, Some, IfOk, OnOk};
ghost use Rattle.octet_model.specs.declared.limits.TheConstants.{MAX_OBJECTS};
ghost use Rattle.octet_model.specs.HappensBefore.{object_of};
ghost use Rattle.octet_window.specs.Noting.{has, place_of, renamed, renamed_note, notes_in, touched_by, touched_in, AreIn, AreOf, IsEventIn};

use crate::notes::{Note, Notes};
use octet_model::{Event, List, OutOfMemory};
use std::alloc::Global;

// Whether the object is one of these.
fn has(objects: &[u16], object: u16) -> bool
    ensures { result ≡ has objects.now object }
{
    for other in objects {
        if *other == object {
            return true;
        }
    }
    false
}

// The place of an object among these.
fn place_of(objects: &[u16], object: u16) -> u16
    requires few { length objects.now ≤ MAX_OBJECTS }
    requires there { has objects.now object ≡ true }
    ensures place { result ≡ place_of objects.now object }
    ensures inside { result < length objects.now }
{
    let mut place = 0;
    for other in objects {
        if *other == object {
            return place;
        }
        place += 1;
    }
    place
}

// Adds the objects that the notes access.
fn add_touched(objects: &mut Vec<u16>, notes: &[Note]) -> Result<(), OutOfMemory>
    ensures { OnOk result (objects.new.items ≡ touched_by objects.old.items notes.now) }
{
    for note in notes {
        let Some(object) = note.event.object() else {
            continue;
        };
        if !has(objects, object) {
            objects.push(object)?;
        }
    }
    Ok(())
}

/// The objects that the threads access, in the order in which they come up.
pub(crate) fn touched_in(alloc: Global, threads: &[Notes]) -> Result<Vec<u16>, OutOfMemory>
    ensures { IfOk result (λ objects. objects.items ≡ touched_in [] threads.now) }
{
    let mut objects = Vec::new(alloc);
    for thread in threads {
        add_touched(&mut objects, thread.notes.as_slice())?;
    }
    Ok(objects)
}

// The event with the place of its object.
fn renamed(objects: &[u16], event: Event) -> Event
    requires few { length objects.now ≤ MAX_OBJECTS }
    requires there { (object : ℕ) → object_of event ≡ Some object → has objects.now object ≡ true }
    ensures renamed { result ≡ renamed objects.now event }
    ensures inside { IsEventIn (length objects.now) result }
{
    match event {
        Event::Read { object, value } => Event::Read {
            object: place_of(objects, object),
            value,
        },
        Event::Write { object, value } => Event::Write {
            object: place_of(objects, object),
            value,
        },
        Event::Update {
            object,
            before,
            after,
        } => Event::Update {
            object: place_of(objects, object),
            before,
            after,
        },
        Event::Marked { .. } => event,
    }
}

// The note with the place of its object.
fn renamed_note(objects: &[u16], note: Note) -> Note
    requires few { length objects.now ≤ MAX_OBJECTS }
    requires there { (object : ℕ) → object_of note.event ≡ Some object → has objects.now object ≡ true }
    ensures renamed { result ≡ renamed_note objects.now note }
    ensures inside { IsEventIn (length objects.now) result.event }
{
    Note {
        event: renamed(objects, note.event),
        region: note.region,
    }
}

/// The notes with the places of their objects.
pub(crate) fn renamed_notes(
    alloc: Global,
    objects: &[u16],
    notes: &[Note],
) -> Result<List<Note>, OutOfMemory>
    requires few { length objects.now ≤ MAX_OBJECTS }
    requires there { AreOf objects.now notes.now }
    ensures renamed { IfOk result (λ others. others ≡ map (renamed_note objects.now) notes.now) }
    ensures inside { IfOk result (AreIn (length objects.now)) }
{
    let mut others = List::new(alloc);
    for note in notes {
        others.push(renamed_note(objects, *note))?;
    }
    Ok(others)
}
