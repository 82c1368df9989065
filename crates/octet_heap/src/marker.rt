//! One thread at work on the heap, of which nothing is kept but its marks. What it calls on the heap stands in
//! `calls`; what it tells of its thread, and the emptying of its buffer, stand here.
ghost use Rattle.std.specs.Prelude.{◌≤◌, ◌≡◌, ◌↔◌, ◌<◌, true, drop, [], IfOk};
ghost use Rattle.octet_model.specs.Journals.{gap_after, gapped_marks};
ghost use Rattle.octet_model.specs.declared.limits.TheConstants.{MAX_MARKS_BEFORE_ACCESS};
ghost use Rattle.octet_state.specs.declared.limits.TheConstants.{MAX_ACCESSES_OF_THREAD};
ghost use Rattle.octet_rule.specs.Seats.{view};

mod calls;

use crate::heap::Heap;
use crate::pending_access::PendingAccess;
use crate::pending_update::PendingUpdate;
use crate::recorder::Recorder;
use octet_model::{Gapped, OutOfMemory};
use octet_rule::Seat;
use std::alloc::Global;

/// One thread at work on the heap, with the access or the update by a change that it has begun, if any. Its
/// marks are in a buffer of fixed room, which its user empties. Nothing else is kept of an access.
#[derive(Drop)]
pub struct Marker {
    pub(crate) recorder: Recorder,
    pub(crate) pending: Option<PendingAccess>,
    pub(crate) changing: Option<PendingUpdate>,
    // How many of its accesses took the slow path.
    pub(crate) slow: u64,
    ghost least: { slow ≤ recorder.log.accesses },
}

impl Marker {
    ghost use Rattle.octet_heap.specs.Builders.{accesses_of};
    ghost use Rattle.octet_heap.specs.Models.{marker_model};
    ghost use Rattle.octet_heap.specs.Markers.{marker_seat, base_of, room_of, slow_of, IsMarkerOf, HasRoom, HasWholeRoom, IsEmptied, IsPlain};

    pub(crate) fn new(alloc: Global, seat: Seat, marks: usize) -> Result<Marker, OutOfMemory>
        requires fresh { (view seat).journal ≡ [] }
        ensures { IfOk result (λ marker. (marker.recorder.seat ≡ seat) × IsPlain marks marker) }
    {
        Ok(Marker {
            recorder: Recorder::new(alloc, seat, marks)?,
            pending: None,
            changing: None,
            slow: 0,
        })
    }

    /// The number of its thread.
    pub fn thread(&self) -> u8
        ensures { result ≡ (marker_model self.now).number }
    {
        self.recorder.seat.thread()
    }

    /// How many accesses it has made.
    pub fn accesses(&self) -> u64
        ensures { result ≡ accesses_of (marker_model self.now) }
    {
        self.recorder.log.accesses
    }

    /// How many of them took the slow path, as `Worker::slow_accesses` counts them.
    pub fn slow_accesses(&self) -> u64
        ensures count { result ≡ slow_of self.now }
        ensures most { result ≤ accesses_of (marker_model self.now) }
    {
        self.slow
    }

    /// How many of its thread's events came before the marks that it has.
    pub fn base(&self) -> u64
        ensures { result ≡ base_of self.now }
    {
        self.recorder.base
    }

    /// Its marks since they were last cleared, each with the accesses since the mark before it, or since
    /// then.
    pub fn marks(&self) -> &[Gapped]
        ensures { result.now ≡ gapped_marks 0 (drop (base_of self.now) (marker_model self.now).journal) }
    {
        self.recorder.log.marks.as_slice()
    }

    /// The accesses after the last of these marks, or since they were cleared.
    pub fn gap(&self) -> u32
        ensures { result ≡ gap_after 0 (drop (base_of self.now) (marker_model self.now).journal) }
    {
        self.recorder.log.gap()
    }

    /// Whether it has room for one more access and for fifteen marks more, which is enough for any access.
    /// Where it has none, clearing its marks makes it, or the thread has made all accesses that the words
    /// can count.
    #[inline(always)]
    pub fn has_room(&self) -> bool
        ensures whole { (result ≡ true) ↔ HasWholeRoom self.now }
        ensures enough { result ≡ true → HasRoom self.now }
    {
        self.recorder.log.accesses < self.recorder.log.limit
    }

    /// Drops its marks, which its user has handed on. A buffer for fifteen marks or more then has room.
    pub fn clear(&mut self, heap: &Heap)
        requires own { IsMarkerOf heap.now self.old }
        ensures own { IsMarkerOf heap.now self.new }
        ensures thread { marker_model self.new ≡ marker_model self.old }
        ensures room { MAX_MARKS_BEFORE_ACCESS ≤ room_of self.old → accesses_of (marker_model self.old) < MAX_ACCESSES_OF_THREAD → HasWholeRoom self.new × HasRoom self.new }
        // In the words of seats:
        ensures seat { marker_seat self.new ≡ marker_seat self.old }
        ensures pending { self.new.pending ≡ self.old.pending }
        ensures changing { self.new.changing ≡ self.old.changing }
        ensures slow { self.new.slow ≡ self.old.slow }
        ensures emptied { IsEmptied self.old self.new }
    {
        self.recorder.clear();
    }
}
