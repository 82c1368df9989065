//! The end of a ring that sends.
ghost use Rattle.std.specs.Prelude.{◌≡◌, ◌+◌, ◌≤◌, ◌++◌, ◌∷◌, [], length, IfSome, IfNone};
ghost use Rattle.octet_ring.specs.Views.{SameSender};

use octet_model::Gapped;
use rtrb::{Producer, PushError};
use std::marker::Model;

/// The end at which one thread sends its marks. Contracts see its thread, its room, the marks that it sent, and how
/// many of these it knows as taken. It can move to a thread of its own.
#[derive(Drop)]
pub struct Sender {
    pub(crate) end: Producer<Gapped>,
    pub(crate) thread: u8,
}

impl Model for Sender {
    ghost use Rattle.octet_ring.specs.Views.{SenderView};

    ghost Value = { SenderView };

    ghost use Rattle.octet_ring.specs.Ends.{sender_view, HasRoom};

    ghost view = { sender_view };

    ghost invariant = { HasRoom };
}

impl Sender {
    /// Sends a mark, or hands it back where the ring is full as far as the sender knows. It looks whether more
    /// was taken before it hands a mark back, and does not wait.
    pub fn send(&mut self, mark: Gapped) -> Option<Gapped>
        ensures ring { SameSender self.old self.new }
        ensures sent { IfNone result (self.new.sent ≡ self.old.sent ++ mark ∷ []) }
        ensures taken { self.old.taken ≤ self.new.taken }
        ensures back { IfSome result (λ back. (back ≡ mark) × (self.new ≡ self.old)) }
        ensures full { IfSome result (λ _. length self.old.sent ≡ self.old.taken + self.old.room) }
    {
        match self.end.push(mark) {
            Ok(()) => None,
            Err(PushError::Full(back)) => Some(back),
        }
    }
}
