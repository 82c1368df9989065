//! A session whose threads note their last accesses.
ghost use Rattle.std.specs.Prelude.{◌≡◌, ◌++◌, ◌∷◌, [], List, IfSome};
ghost use Rattle.octet_model.specs.declared.event.Event.{Event};
ghost use Rattle.octet_rerun.specs.Events.{event_of};
ghost use Rattle.octet_window.specs.Ordering.{accesses_in};
ghost use Rattle.octet_tail.specs.Tails.{IsTail};

use crate::tail::Tail;
use octet_model::Event;
use octet_recorder::Access;
use octet_session::{NotMade, Session};

/// A session whose threads note the last accesses that they make. Each call goes on to the session within.
#[derive(Drop)]
pub struct Tailed<S> {
    pub session: S,
}

/// A thread of such a session, with its last accesses, if they are noted.
#[derive(Drop)]
pub struct TailedThread<T> {
    pub thread: T,
    pub tail: Option<Tail>,
}

// The access that was made, which found this value, or wrote it.
fn event_of(wanted: Access, value: u64) -> Event
    ensures { result ≡ event_of wanted value }
{
    match wanted {
        Access::Read { object } => Event::Read { object, value },
        Access::Write {
            object,
            value: written,
        } => Event::Write {
            object,
            value: written,
        },
        Access::Update { object, change } => Event::Update {
            object,
            before: value,
            after: change.changed(value),
        },
    }
}

// Notes an access that was made, if any are noted.
fn note(tail: &mut Option<Tail>, access: Event)
    requires some { IfSome tail.old (λ tail. (accesses : List Event) × IsTail accesses tail) }
    ensures noted { (accesses : List Event) → IfSome tail.old (IsTail accesses) → IfSome tail.new (IsTail (accesses ++ access ∷ [])) }
{
    if let Some(tail) = tail {
        tail.note(access);
    }
}

impl<S: Session> Session for Tailed<S> {
    type Thread = TailedThread<S::Thread>;

    type Halt = S::Halt;

    ghost IsThreadOf = { λ tailed thread. S.IsThreadOf tailed.session thread.thread × IfSome thread.tail (IsTail (accesses_in (S.standing tailed.session thread.thread).journal)) };

    ghost standing = { λ tailed thread. S.standing tailed.session thread.thread };

    ghost objects = { λ tailed. S.objects tailed.session };

    ghost recorded = { λ tailed thread. S.recorded tailed.session thread.thread };

    ghost Runs = { λ thread. S.Runs thread.thread };

    ghost Rests = { λ thread. S.Rests thread.thread };

    ghost HasEnded = { λ tailed thread. S.HasEnded tailed.session thread.thread };

    ghost IsReason = { λ tailed wanted before after why. S.IsReason tailed.session wanted before.thread after.thread why };

    ghost HasMade = { λ tailed wanted before after. S.HasMade tailed.session wanted before.thread after.thread };

    fn ask(&self, thread: &mut Self::Thread, wanted: Access) -> Result<u64, NotMade<S::Halt>> {
        let value = self.session.ask(&mut thread.thread, wanted)?;
        note(&mut thread.tail, event_of(wanted, value));
        Ok(value)
    }

    fn region(&self, thread: &mut Self::Thread) {
        self.session.region(&mut thread.thread);
    }

    fn safe_point(&self, thread: &mut Self::Thread) {
        self.session.safe_point(&mut thread.thread);
    }

    fn block(&self, thread: &mut Self::Thread) {
        self.session.block(&mut thread.thread);
    }

    fn unblock(&self, thread: &mut Self::Thread) {
        self.session.unblock(&mut thread.thread);
    }

    fn finish(&self, thread: &mut Self::Thread) -> Result<(), NotMade<S::Halt>> {
        self.session.finish(&mut thread.thread)
    }
}
