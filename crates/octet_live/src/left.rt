//! What is left to be added to the file once a thread has ended.
ghost use Rattle.std.specs.Prelude.{◌≡◌, ◌<◌, ◌≤◌, IsSome};
ghost use Rattle.octet_model.specs.declared.limits.TheConstants.{MAX_THREADS};
ghost use Rattle.octet_live.specs.Feeds.{HasSent, end_of};
ghost use Rattle.octet_live.specs.Drained.{threads_of, IsFeedOf, AddsFront, AddsLeft};

use crate::drainer::Drainer;
use crate::feed::Feed;
use crate::pieces::add_marks;
use octet_base::Desk;
use octet_model::Gapped;

impl Drainer {
    // Adds marks of a thread, where no piece was refused before.
    fn add_last<D: Desk>(&mut self, desk: &mut D, thread: u8, marks: &[Gapped])
        requires begun { IsSome (D.state desk.old).begun }
        requires thread { thread < MAX_THREADS }
        ensures added { AddsFront thread marks.now self.old.kept (D.state desk.old) self.new.kept (D.state desk.new) }
        ensures drain { self.new.drain ≡ self.old.drain }
        ensures begun { (D.state desk.new).begun ≡ (D.state desk.old).begun }
    {
        if self.kept.is_none() {
            self.kept = add_marks(self.alloc, desk, thread, marks);
        }
    }

    /// Adds what is left of a thread that has ended, whose own marks these are: what its feed has sent and
    /// the drainer has not taken yet, and then the marks that it never sent. Where a piece was refused
    /// before, it adds nothing. Does not wait.
    pub fn add_left<D: Desk>(&mut self, desk: &mut D, thread: u8, feed: &mut Feed, own: &[Gapped])
        requires begun { IsSome (D.state desk.old).begun }
        requires thread { (thread < threads_of self.old) × (threads_of self.old ≤ MAX_THREADS) }
        requires feed { IsFeedOf self.old thread feed.old }
        requires sent { HasSent feed.old own.now }
        ensures sent { HasSent feed.new own.now }
        ensures same { end_of feed.new ≡ end_of feed.old }
        ensures left { AddsLeft thread own.now self.old (D.state desk.old) self.new (D.state desk.new) }
        ensures begun { (D.state desk.new).begun ≡ (D.state desk.old).begun }
    {
        self.drain.rest(&mut feed.sender);
        self.add_sent(desk, thread);
        let waiting = self.drain.rest(&mut feed.sender) as usize;
        self.add_last(desk, thread, &own[feed.sent - waiting..]);
    }
}
