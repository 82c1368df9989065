//! What a marker does on the heap. None of it takes memory or waits.
ghost use Rattle.std.specs.Prelude.{◌≡◌, ◌<◌, ℕ, true, false, Some, None};
ghost use Rattle.std.specs.Option.{is_some, ForSome};
ghost use Rattle.octet_model.specs.Journals.{access_count};
ghost use Rattle.octet_state.specs.Steps.{ToBlock, ToUnblock};
ghost use Rattle.octet_rule.specs.Rule.{Steps};
ghost use Rattle.octet_rule.specs.Seats.{objects_of};
ghost use Rattle.octet_safe.specs.Replies.{PassesSafePoint};
ghost use Rattle.octet_heap.specs.Calls.{access_to, Polls};
ghost use Rattle.octet_heap.specs.Standing.{update_of};
ghost use Rattle.octet_heap.specs.Updates.{answer_after, update_to, PollsToChange, PollsUpdate};
ghost use Rattle.octet_heap.specs.UpdateCalls.{UpdatesMarker};
ghost use Rattle.octet_heap.specs.Waiting.{accesses_after};
ghost use Rattle.octet_heap.specs.Workers.{pending_after};
ghost use Rattle.octet_heap.specs.Builders.{Idle, Accessing, Blocked, now_standing, AnswersAccess, AnswersUpdate, AnswersPoll};
ghost use Rattle.octet_heap.specs.Models.{heap_model, marker_model};
ghost use Rattle.octet_heap.specs.Markers.{marker_seat, IsMarkerOf, Rests, IsIdle, IsUnderWay, StandsAfter, IsIdleIfMade, HasRoom, MayUpdate, IsSameBuffer, CountsSlow};

use crate::heap::Heap;
use crate::heap::calls::{answer_after, slow_by};
use crate::marker::Marker;
use crate::pending_access::PendingAccess;
use crate::pending_update::PendingUpdate;
use crate::poll::Poll;
use crate::updated::Updated;
use octet_rule::Change;
use octet_state::Mode;

impl Marker {
    /// Begins an access, which `poll` makes, as `Heap::begin` does.
    pub fn begin(&mut self, heap: &Heap, object: u16, mode: Mode, value: u64)
        requires own { IsMarkerOf heap.now self.old }
        requires idle { IsIdle self.old }
        requires object { object < (heap_model heap.now).objects }
        requires room { HasRoom self.old }
        ensures own { IsMarkerOf heap.now self.new }
        ensures begun { IsUnderWay self.new }
        ensures thread { marker_model self.new ≡ now_standing (Accessing (access_to object mode value)) (marker_model self.old) }
        // Step by step:
        ensures pending { self.new.pending ≡ Some (access_to object mode value) }
        ensures changing { self.new.changing ≡ None }
        ensures seat { marker_seat self.new ≡ marker_seat self.old }
        ensures slow { self.new.slow ≡ self.old.slow }
        ensures same { IsSameBuffer self.old self.new }
    {
        self.pending = Some(PendingAccess {
            object,
            mode,
            value,
        });
    }

    /// Goes on with the access or the update that was begun, as `Heap::poll` does.
    pub fn poll(&mut self, heap: &Heap) -> Poll
        requires own { IsMarkerOf heap.now self.old }
        requires begun { IsUnderWay self.old }
        ensures own { IsMarkerOf heap.now self.new }
        ensures stands { StandsAfter result self.new }
        ensures thread { AnswersPoll (marker_model self.old).standing result (marker_model self.old) (marker_model self.new) }
        // Step by step:
        ensures pending { self.new.pending ≡ pending_after result self.old.pending }
        ensures changing { self.new.changing ≡ pending_after result self.old.changing }
        ensures idle { IsIdleIfMade result self.new }
        ensures polls { ForSome self.old.pending (λ access. Polls access (marker_seat self.old) result (marker_seat self.new)) }
        ensures updates { ForSome self.old.changing (λ update. PollsUpdate update (marker_seat self.old) result (marker_seat self.new)) }
        ensures number { (marker_seat self.new).number ≡ (marker_seat self.old).number }
        ensures counts { access_count (marker_seat self.new).journal ≡ accesses_after result (access_count (marker_seat self.old).journal) }
        ensures slow { ForSome self.old.pending (λ access. CountsSlow access self.old result self.new) }
        ensures slow_updates { ForSome self.old.changing (λ update. CountsSlow (update_of update.object) self.old result self.new) }
        ensures same { IsSameBuffer self.old self.new }
    {
        match self.pending {
            Some(access) => self.poll_access(heap, access),
            None => self.poll_update(heap),
        }
    }

    // Of a marker that has begun this access.
    fn poll_access(&mut self, heap: &Heap, access: PendingAccess) -> Poll
        requires own { IsMarkerOf heap.now self.old }
        requires begun { self.old.pending ≡ Some access }
        ensures own { IsMarkerOf heap.now self.new }
        ensures pending { self.new.pending ≡ pending_after result (Some access) }
        ensures changing { self.new.changing ≡ None }
        ensures idle { IsIdleIfMade result self.new }
        ensures polls { Polls access (marker_seat self.old) result (marker_seat self.new) }
        ensures number { (marker_seat self.new).number ≡ (marker_seat self.old).number }
        ensures counts { access_count (marker_seat self.new).journal ≡ accesses_after result (access_count (marker_seat self.old).journal) }
        ensures slow { CountsSlow access self.old result self.new }
        ensures same { IsSameBuffer self.old self.new }
    {
        let (poll, fast) = heap.resume(&mut self.recorder, access);
        match poll {
            Poll::Ready { .. } => {
                self.pending = None;
                self.slow = slow_by(fast, self.slow);
            }
            Poll::Pending { .. } => {}
        }
        poll
    }

    /// `begin` and then `poll`: where the access is made at once, no access was begun between.
    #[inline(always)]
    pub fn access_or_begin(&mut self, heap: &Heap, object: u16, mode: Mode, value: u64) -> Poll
        requires own { IsMarkerOf heap.now self.old }
        requires idle { IsIdle self.old }
        requires object { object < (heap_model heap.now).objects }
        requires room { HasRoom self.old }
        ensures own { IsMarkerOf heap.now self.new }
        ensures stands { StandsAfter result self.new }
        ensures thread { AnswersAccess (access_to object mode value) result (marker_model self.old) (marker_model self.new) }
        // Step by step:
        ensures pending { self.new.pending ≡ pending_after result (Some (access_to object mode value)) }
        ensures changing { self.new.changing ≡ None }
        ensures idle { IsIdleIfMade result self.new }
        ensures polls { Polls (access_to object mode value) (marker_seat self.old) result (marker_seat self.new) }
        ensures number { (marker_seat self.new).number ≡ (marker_seat self.old).number }
        ensures counts { access_count (marker_seat self.new).journal ≡ accesses_after result (access_count (marker_seat self.old).journal) }
        ensures slow { CountsSlow (access_to object mode value) self.old result self.new }
        ensures same { IsSameBuffer self.old self.new }
    {
        let access = PendingAccess {
            object,
            mode,
            value,
        };
        let (poll, fast) = heap.start(&mut self.recorder, access);
        match poll {
            Poll::Ready { .. } => self.slow = slow_by(fast, self.slow),
            Poll::Pending { .. } => self.pending = Some(access),
        }
        poll
    }

    /// Updates the object by a change of the value that it finds, as `Heap::update` does.
    #[inline(always)]
    pub fn update(&mut self, heap: &Heap, object: u16, change: Change) -> Updated
        requires own { IsMarkerOf heap.now self.old }
        requires may { MayUpdate object change self.old }
        requires object { object < (heap_model heap.now).objects }
        ensures own { IsMarkerOf heap.now self.new }
        ensures stands { StandsAfter (answer_after change result) self.new }
        ensures thread { AnswersUpdate (update_to object change) result (marker_model self.old) (marker_model self.new) }
        // Step by step:
        ensures pending { self.new.pending ≡ None }
        ensures changing { self.new.changing ≡ pending_after (answer_after change result) (Some (update_to object change)) }
        ensures idle { IsIdleIfMade (answer_after change result) self.new }
        ensures polls { PollsToChange object change (marker_seat self.old) result (marker_seat self.new) }
        ensures number { (marker_seat self.new).number ≡ (marker_seat self.old).number }
        ensures counts { access_count (marker_seat self.new).journal ≡ accesses_after (answer_after change result) (access_count (marker_seat self.old).journal) }
        ensures slow { CountsSlow (update_of object) self.old (answer_after change result) self.new }
        ensures same { IsSameBuffer self.old self.new }
    {
        match self.changing {
            None => self.begin_update(heap, object, change),
            Some(_) => self.go_on_with_update(heap, object, change),
        }
    }

    // Of a marker that has begun nothing.
    #[inline(always)]
    fn begin_update(&mut self, heap: &Heap, object: u16, change: Change) -> Updated
        requires own { IsMarkerOf heap.now self.old }
        requires idle { IsIdle self.old }
        requires object { object < objects_of heap.now.words }
        requires room { HasRoom self.old }
        ensures { UpdatesMarker heap.now object change self.old result self.new }
    {
        let (updated, fast) = heap.start_change(&mut self.recorder, object, change);
        match updated {
            Updated::Made { .. } => self.slow = slow_by(fast, self.slow),
            Updated::Pending { .. } => self.changing = Some(PendingUpdate { object, change }),
        }
        updated
    }

    // Of a marker that has begun this update. What goes out of line is copied to memory here.
    #[inline(always)]
    fn go_on_with_update(&mut self, heap: &Heap, object: u16, change: Change) -> Updated
        requires own { IsMarkerOf heap.now self.old }
        requires begun { self.old.changing ≡ Some (update_to object change) }
        ensures { UpdatesMarker heap.now object change self.old result self.new }
    {
        self.resume_update(heap, object, change)
    }

    // The same, out of line.
    #[inline(never)]
    fn resume_update(&mut self, heap: &Heap, object: u16, change: Change) -> Updated
        requires own { IsMarkerOf heap.now self.old }
        requires begun { self.old.changing ≡ Some (update_to object change) }
        ensures { UpdatesMarker heap.now object change self.old result self.new }
    {
        let (updated, fast) = heap.resume_change(&mut self.recorder, object, change);
        match updated {
            Updated::Made { .. } => {
                self.changing = None;
                self.slow = slow_by(fast, self.slow);
            }
            Updated::Pending { .. } => {}
        }
        updated
    }

    // A poll of a marker that has begun an update by a change.
    fn poll_update(&mut self, heap: &Heap) -> Poll
        requires own { IsMarkerOf heap.now self.old }
        requires begun { is_some self.old.changing ≡ true }
        ensures own { IsMarkerOf heap.now self.new }
        ensures pending { self.new.pending ≡ None }
        ensures changing { self.new.changing ≡ pending_after result self.old.changing }
        ensures idle { IsIdleIfMade result self.new }
        ensures polls { ForSome self.old.changing (λ update. PollsUpdate update (marker_seat self.old) result (marker_seat self.new)) }
        ensures number { (marker_seat self.new).number ≡ (marker_seat self.old).number }
        ensures counts { access_count (marker_seat self.new).journal ≡ accesses_after result (access_count (marker_seat self.old).journal) }
        ensures slow { ForSome self.old.changing (λ update. CountsSlow (update_of update.object) self.old result self.new) }
        ensures same { IsSameBuffer self.old self.new }
    {
        let update = self.changing.unwrap();
        let updated = self.go_on_with_update(heap, update.object, update.change);
        answer_after(updated, &update.change)
    }

    /// Answers the threads that have asked this one. Tells whether any has.
    #[inline(always)]
    pub fn safe_point(&mut self, heap: &Heap) -> bool
        requires own { IsMarkerOf heap.now self.old }
        requires idle { IsIdle self.old }
        ensures own { IsMarkerOf heap.now self.new }
        ensures idle { IsIdle self.new }
        ensures thread { marker_model self.new ≡ marker_model self.old }
        // Step by step:
        ensures journal { (marker_seat self.new).journal ≡ (marker_seat self.old).journal }
        ensures number { (marker_seat self.new).number ≡ (marker_seat self.old).number }
        ensures slow { self.new.slow ≡ self.old.slow }
        ensures same { IsSameBuffer self.old self.new }
        ensures step { PassesSafePoint (marker_seat self.old) result (marker_seat self.new) }
    {
        self.recorder.safe_point(&heap.words)
    }

    /// Answers the threads that have asked this one, and lets what it has begun wait on. Tells whether any has.
    pub fn answer(&mut self, heap: &Heap) -> bool
        requires own { IsMarkerOf heap.now self.old }
        requires begun { IsUnderWay self.old }
        ensures own { IsMarkerOf heap.now self.new }
        ensures begun { IsUnderWay self.new }
        ensures thread { marker_model self.new ≡ marker_model self.old }
        // Step by step:
        ensures pending { self.new.pending ≡ self.old.pending }
        ensures changing { self.new.changing ≡ self.old.changing }
        ensures journal { (marker_seat self.new).journal ≡ (marker_seat self.old).journal }
        ensures number { (marker_seat self.new).number ≡ (marker_seat self.old).number }
        ensures slow { self.new.slow ≡ self.old.slow }
        ensures same { IsSameBuffer self.old self.new }
        ensures step { PassesSafePoint (marker_seat self.old) result (marker_seat self.new) }
    {
        self.recorder.safe_point(&heap.words)
    }

    /// Marks the thread as blocked, so that no other thread has to wait for it.
    pub fn block(&mut self, heap: &Heap)
        requires own { IsMarkerOf heap.now self.old }
        requires idle { IsIdle self.old }
        ensures own { IsMarkerOf heap.now self.new }
        ensures rests { Rests self.new }
        ensures thread { marker_model self.new ≡ now_standing Blocked (marker_model self.old) }
        // Step by step:
        ensures pending { self.new.pending ≡ None }
        ensures changing { self.new.changing ≡ None }
        ensures journal { (marker_seat self.new).journal ≡ (marker_seat self.old).journal }
        ensures number { (marker_seat self.new).number ≡ (marker_seat self.old).number }
        ensures slow { self.new.slow ≡ self.old.slow }
        ensures same { IsSameBuffer self.old self.new }
        ensures step { (found : ℕ) × Steps (ToBlock false) (marker_seat self.old) found (marker_seat self.new) }
    {
        octet_safe::block(&heap.words, &mut self.recorder.seat);
    }

    /// Marks the thread as running. The first one starts it.
    pub fn unblock(&mut self, heap: &Heap)
        requires own { IsMarkerOf heap.now self.old }
        requires rests { Rests self.old }
        ensures own { IsMarkerOf heap.now self.new }
        ensures idle { IsIdle self.new }
        ensures thread { marker_model self.new ≡ now_standing Idle (marker_model self.old) }
        // Step by step:
        ensures journal { (marker_seat self.new).journal ≡ (marker_seat self.old).journal }
        ensures number { (marker_seat self.new).number ≡ (marker_seat self.old).number }
        ensures slow { self.new.slow ≡ self.old.slow }
        ensures same { IsSameBuffer self.old self.new }
        ensures step { (found : ℕ) × Steps ToUnblock (marker_seat self.old) found (marker_seat self.new) }
    {
        octet_safe::unblock(&heap.words, &mut self.recorder.seat);
    }
}
