//! A poll of a recorder, with the safe point after it where it waits.
ghost use Rattle.std.specs.Prelude.{◌≡◌};
ghost use Rattle.octet_state.specs.declared.phase.Due.TheVariants.{Nothing};
ghost use Rattle.octet_state.specs.declared.phase.Phase.TheVariants.{Idle};
ghost use Rattle.octet_rule.specs.Seats.{view};
ghost use Rattle.octet_heap.specs.Calls.{Polls};
ghost use Rattle.octet_heap.specs.Recorders.{CanAccess, KeepsSeatAfter};
ghost use Rattle.octet_heap.specs.SlowPath.{TellsPath, is_idle};
ghost use Rattle.octet_heap.specs.Standing.{update_of};
ghost use Rattle.octet_heap.specs.Updates.{answer_after, PollsToChange};
ghost use Rattle.octet_heap.specs.Waiting.{StandsIn, HasBegun, EndsPoll};

use crate::heap::Heap;
use crate::pending_access::PendingAccess;
use crate::poll::Poll;
use crate::recorder::Recorder;
use crate::updated::Updated;
use octet_rule::Change;
use octet_state::Phase;

// Whether the thread has not loaded a state yet.
fn is_idle(phase: Phase) -> bool
    ensures { result ≡ is_idle phase }
{
    match phase {
        Phase::Idle => true,
        _ => false,
    }
}

impl Heap {
    // Of a thread that has begun nothing. Tells too whether an access that is made took the fast path.
    #[inline(always)]
    pub(crate) fn start(&self, recorder: &mut Recorder, access: PendingAccess) -> (Poll, bool)
        requires can { CanAccess self.now access recorder.old }
        requires stands { StandsIn Idle (view recorder.old.seat) }
        ensures keeps { KeepsSeatAfter self.now.words result.0 recorder.old recorder.new }
        ensures polls { Polls access (view recorder.old.seat) result.0 (view recorder.new.seat) }
        ensures number { (view recorder.new.seat).number ≡ (view recorder.old.seat).number }
        ensures ends { EndsPoll access result.0 (view recorder.new.seat) }
        ensures path { TellsPath access (view recorder.old.seat) result.0 result.1 (view recorder.new.seat) }
    {
        let (poll, passes) = self.load(recorder, access);
        match poll {
            Poll::Ready { .. } => {}
            Poll::Pending { .. } => {
                recorder.safe_point(&self.words);
            }
        }
        (poll, passes)
    }

    // Of a thread that has begun this access.
    pub(crate) fn resume(&self, recorder: &mut Recorder, access: PendingAccess) -> (Poll, bool)
        requires can { CanAccess self.now access recorder.old }
        requires due { (view recorder.old.seat).thread.due ≡ Nothing }
        requires begun { HasBegun (view recorder.old.seat).threads access (view recorder.old.seat).thread.phase }
        ensures keeps { KeepsSeatAfter self.now.words result.0 recorder.old recorder.new }
        ensures polls { Polls access (view recorder.old.seat) result.0 (view recorder.new.seat) }
        ensures number { (view recorder.new.seat).number ≡ (view recorder.old.seat).number }
        ensures ends { EndsPoll access result.0 (view recorder.new.seat) }
        ensures path { TellsPath access (view recorder.old.seat) result.0 result.1 (view recorder.new.seat) }
    {
        if is_idle(recorder.seat.phase()) {
            return self.start(recorder, access);
        }
        let poll = self.go_on(recorder, access);
        match poll {
            Poll::Ready { .. } => {}
            Poll::Pending { .. } => {
                recorder.safe_point(&self.words);
            }
        }
        (poll, false)
    }

    // As `start`.
    #[inline(always)]
    pub(crate) fn start_change(
        &self,
        recorder: &mut Recorder,
        object: u16,
        change: Change,
    ) -> (Updated, bool)
        requires can { CanAccess self.now (update_of object) recorder.old }
        requires stands { StandsIn Idle (view recorder.old.seat) }
        ensures keeps { KeepsSeatAfter self.now.words (answer_after change result.0) recorder.old recorder.new }
        ensures polls { PollsToChange object change (view recorder.old.seat) result.0 (view recorder.new.seat) }
        ensures number { (view recorder.new.seat).number ≡ (view recorder.old.seat).number }
        ensures ends { EndsPoll (update_of object) (answer_after change result.0) (view recorder.new.seat) }
        ensures path { TellsPath (update_of object) (view recorder.old.seat) (answer_after change result.0) result.1 (view recorder.new.seat) }
    {
        let (updated, passes) = self.load_to_change(recorder, object, change);
        match updated {
            Updated::Made { .. } => {}
            Updated::Pending { .. } => {
                recorder.safe_point(&self.words);
            }
        }
        (updated, passes)
    }

    // As `resume`.
    pub(crate) fn resume_change(
        &self,
        recorder: &mut Recorder,
        object: u16,
        change: Change,
    ) -> (Updated, bool)
        requires can { CanAccess self.now (update_of object) recorder.old }
        requires due { (view recorder.old.seat).thread.due ≡ Nothing }
        requires begun { HasBegun (view recorder.old.seat).threads (update_of object) (view recorder.old.seat).thread.phase }
        ensures keeps { KeepsSeatAfter self.now.words (answer_after change result.0) recorder.old recorder.new }
        ensures polls { PollsToChange object change (view recorder.old.seat) result.0 (view recorder.new.seat) }
        ensures number { (view recorder.new.seat).number ≡ (view recorder.old.seat).number }
        ensures ends { EndsPoll (update_of object) (answer_after change result.0) (view recorder.new.seat) }
        ensures path { TellsPath (update_of object) (view recorder.old.seat) (answer_after change result.0) result.1 (view recorder.new.seat) }
    {
        if is_idle(recorder.seat.phase()) {
            return self.start_change(recorder, object, change);
        }
        let updated = self.go_on_to_change(recorder, object, change);
        match updated {
            Updated::Made { .. } => {}
            Updated::Pending { .. } => {
                recorder.safe_point(&self.words);
            }
        }
        (updated, false)
    }
}
