//! The room of journals, kept from one run to the next.
ghost use Rattle.std.specs.Prelude.{◌≡◌, ◌≤◌, [], vec_capacity, IfOk};

use crate::journal::Journal;
use octet_model::{Event, OutOfMemory};
use std::alloc::Global;

/// Room for the journals of machines that run one after another. To reserve it anew takes nine tenths
/// of the time of a short run, since a run may be as long as its script's fuel.
#[derive(Debug, Drop)]
pub struct Rooms {
    buffers: Vec<Vec<Event>>,
}

impl Rooms {
    /// No room yet.
    pub fn new(alloc: Global) -> Rooms {
        Rooms {
            buffers: Vec::new(alloc),
        }
    }

    /// An empty journal with room for so many events at least, from what was kept or new.
    pub(crate) fn journal(&mut self, alloc: Global, room: usize) -> Result<Journal, OutOfMemory>
        ensures events { IfOk result (λ journal. journal.events.items ≡ []) }
        ensures room { IfOk result (λ journal. room ≤ vec_capacity journal.events) }
    {
        match self.buffers.pop() {
            Some(events) if events.capacity() >= room => Ok(Journal::emptied(events)),
            _ => Journal::with_room(alloc, room),
        }
    }

    /// Keeps the room of a journal.
    pub(crate) fn keep(&mut self, journal: Journal) -> Result<(), OutOfMemory> {
        self.buffers.push(journal.events)?;
        Ok(())
    }
}
