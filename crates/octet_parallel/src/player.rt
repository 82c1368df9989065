//! A player: one thread as far as it is replayed, with its seat on the words.
ghost use Rattle.std.specs.Prelude.{◌≡◌, ◌<◌, ◌++◌, ◌∷◌, []};
ghost use Rattle.std.specs.Vec.{vec_len, vec_capacity};
ghost use Rattle.octet_replay.specs.Threads.{Grown, HasRoomFor, StandsFor};

use crate::fate::Fate;
use crate::words::Seat;
use octet_model::Event;
use octet_replay::ThreadReplay;

/// As many words as two lines of memory hold, which a processor may take in together.
pub(crate) const WORDS_APART: usize = 16;

/// One thread of the script as far as it is replayed, on its seat. Its journal has room for all
/// events of its log.
#[derive(Drop)]
pub struct Player {
    pub(crate) seat: Seat,
    pub(crate) number: u8,
    pub(crate) fate: Fate,
    pub(crate) replay: ThreadReplay,
    pub(crate) journal: Vec<Event>,
    /// Keeps players apart, so that no two threads write to one line of memory.
    pub(crate) padding: [u64; WORDS_APART],
}

/// Takes an event that was made into the journal.
#[inline(always)]
pub(crate) fn note(replay: &mut ThreadReplay, journal: &mut Vec<Event>, event: Event)
    requires stands { StandsFor event replay.old }
    requires room { HasRoomFor event replay.old }
    requires journal { vec_len journal.old < vec_capacity journal.old }
    ensures replay { Grown replay.old event replay.new }
    ensures journal { journal.new.items ≡ journal.old.items ++ event ∷ [] }
    ensures room { vec_capacity journal.new ≡ vec_capacity journal.old }
{
    replay.make(event);
    journal.push_reserved(event);
}
