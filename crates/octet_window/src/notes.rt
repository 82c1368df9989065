//! What is noted of a thread in a window.
ghost use Rattle.std.specs.Prelude.{◌≡◌, ◌≤◌, ◌++◌, ◌∷◌, [], true, false, length, IfOk};
ghost use Rattle.std.specs.Vec.{vec_capacity};
ghost use Rattle.octet_window.specs.Noting.{notes_in, note_of, region_left, room_of};

use octet_model::{Event, OutOfMemory};
use std::alloc::Global;

/// An event that a thread has made after a front, and whether a region begins with it.
#[derive(Clone, Copy, Debug, PartialEq, Eq)]
pub struct Note {
    pub event: Event,
    pub region: bool,
}

/// The events of one thread after a front, up to a room.
#[derive(Debug, Drop)]
pub struct Notes {
    pub(crate) notes: Vec<Note>,
    // Whether a region begins with the next access.
    pub(crate) region: bool,
}

impl Notes {
    /// No event yet, with room for so many.
    pub fn new(alloc: Global, room: usize) -> Result<Notes, OutOfMemory>
        ensures none { IfOk result (λ notes. notes_in notes ≡ []) }
        ensures region { IfOk result (λ notes. notes.region ≡ false) }
        ensures room { IfOk result (λ notes. room_of notes ≡ room) }
    {
        Ok(Notes {
            notes: Vec::with_capacity(alloc, room)?,
            region: false,
        })
    }

    /// Begins a region with the next access. A region without an access leaves no trace.
    pub fn begin_region(&mut self)
        ensures region { self.new.region ≡ true }
        ensures notes { self.new.notes ≡ self.old.notes }
    {
        self.region = true;
    }

    /// Notes an event that the thread has made, a mark as it stands after the front. False where there is no
    /// room, and then nothing is noted.
    pub fn note(&mut self, event: Event) -> bool
        ensures noted { result ≡ true → notes_in self.new ≡ notes_in self.old ++ note_of self.old.region event ∷ [] }
        ensures region { result ≡ true → self.new.region ≡ region_left self.old.region event }
        ensures full { result ≡ false → (self.new ≡ self.old) × (room_of self.old ≤ length (notes_in self.old)) }
        ensures room { room_of self.new ≡ room_of self.old }
    {
        if self.notes.len() >= self.notes.capacity() {
            return false;
        }
        let region = self.region && event.is_access();
        self.notes.push_reserved(Note { event, region });
        self.region = self.region && !event.is_access();
        true
    }
}
