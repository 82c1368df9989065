//! The end of a ring by which a thread that follows is fed.
ghost use Rattle.std.specs.Prelude.{◌≡◌, ◌++◌, ◌∷◌, [], IfSome, IfNone};
ghost use Rattle.rtrb.specs.Ring.{sent, known_free, SameProducer};

use crate::item::Item;
use rtrb::{Producer, PushError};

/// The end of a ring by which one thread that follows is fed its recording. It may be moved to a thread of its own.
#[derive(Drop)]
pub struct Feeder {
    pub(crate) end: Producer<Item>,
    pub(crate) thread: u8,
}

impl Feeder {
    /// The number of the thread that it feeds.
    pub fn thread(&self) -> u8
        ensures { result ≡ self.now.thread }
    {
        self.thread
    }

    /// Gives the thread an item, or hands it back where the ring is full as far as the feeder knows. It looks whether
    /// more was taken before it hands an item back, and does not wait.
    pub fn give(&mut self, item: Item) -> Option<Item>
        ensures same { SameProducer self.old.end self.new.end × (self.new.thread ≡ self.old.thread) }
        ensures given { IfNone result (sent self.new.end ≡ sent self.old.end ++ item ∷ []) }
        ensures back { IfSome result (λ back. (back ≡ item) × (sent self.new.end ≡ sent self.old.end)) }
        ensures full { IfSome result (λ _. known_free self.old.end ≡ 0) }
    {
        match self.end.push(item) {
            Ok(()) => None,
            Err(PushError::Full(back)) => Some(back),
        }
    }
}
