//! The end of a ring from which a thread's items are taken.
ghost use Rattle.std.specs.Prelude.{◌≡◌, ◌≤◌, ◌++◌, ◌+◌, ◌∷◌, [], length, IfSome, IfNone};
ghost use Rattle.rtrb.specs.Ring.{sent, received, known_items, IsPair, SameConsumer, ConsumerLooked};
ghost use Rattle.octet_stream.specs.Tracks.{SameTrack};

use crate::item::Item;
use crate::track::Track;
use rtrb::Consumer;

/// The end of a ring from which the items of one thread are taken, in the order in which it handed them on. It may be
/// moved to a thread of its own.
#[derive(Drop)]
pub struct Receiver {
    pub(crate) end: Consumer<Item>,
    pub(crate) thread: u8,
}

impl Receiver {
    /// The number of the thread whose items it takes.
    pub fn thread(&self) -> u8
        ensures { result ≡ self.now.thread }
    {
        self.thread
    }

    /// Takes the oldest item that was not taken yet, or none where it knows of none. It looks whether more was handed on
    /// before it answers none, and does not wait.
    pub fn take(&mut self) -> Option<Item>
        ensures same { SameConsumer self.old.end self.new.end × (self.new.thread ≡ self.old.thread) }
        ensures received { IfSome result (λ item. received self.new.end ≡ received self.old.end ++ item ∷ []) }
        ensures some { IfSome result (λ _. length (known_items self.old.end) ≤ length (known_items self.new.end) + 1) }
        ensures none { IfNone result ((received self.new.end ≡ received self.old.end) × (known_items self.old.end ≡ [])) }
    {
        let Ok(item) = self.end.pop() else {
            return None;
        };
        Some(item)
    }

    /// How many items of the track were handed on and not taken. So many calls of `take` give one each, while the track
    /// hands nothing on. Where it answers 0, what was taken is all that was handed on.
    pub fn rest(&mut self, track: &mut Track) -> usize
        requires pair { IsPair track.old.sender self.old.end }
        ensures same { SameConsumer self.old.end self.new.end × (self.new.thread ≡ self.old.thread) }
        ensures received { received self.new.end ≡ received self.old.end }
        ensures track { SameTrack track.old track.new }
        ensures left { received self.new.end ++ known_items self.new.end ≡ sent track.new.sender }
        ensures count { result ≡ length (known_items self.new.end) }
        ensures all { result ≡ 0 → received self.new.end ≡ sent track.new.sender }
    {
        self.end.slots_beside(&mut track.sender)
    }
}
