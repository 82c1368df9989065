//! What a thread sends of its marks.
ghost use Rattle.std.specs.Prelude.{◌≡◌};
ghost use Rattle.octet_live.specs.Feeds.{HasSent, end_of};

use octet_model::Gapped;
use octet_ring::Sender;

/// A thread's end of its ring, and how many of its marks were sent.
#[derive(Drop)]
pub struct Feed {
    pub(crate) sender: Sender,
    pub(crate) sent: usize,
}

impl Feed {
    /// Sends those of its thread's marks that were not sent yet, in order, as far as the ring has room.
    /// The others stay to be sent. Does not wait, and takes no memory.
    #[inline]
    pub fn send(&mut self, marks: &[Gapped])
        requires { HasSent self.old marks.now }
        ensures sent { HasSent self.new marks.now }
        ensures same { end_of self.new ≡ end_of self.old }
    {
        while self.sent < marks.len() {
            if self.sender.send(marks[self.sent]).is_some() {
                return;
            }
            self.sent += 1;
        }
    }
}
