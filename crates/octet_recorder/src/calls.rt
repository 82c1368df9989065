//! What a track does. None of it takes memory or waits.
ghost use Rattle.std.specs.Prelude.{◌≡◌, ℕ, ◌+◌, ◌<◌, ◌≤◌, true, false, Some, None};
ghost use Rattle.std.specs.Option.{is_some, ForSome};
ghost use Rattle.octet_rule.specs.Conditions.{IsResting};
ghost use Rattle.octet_rule.specs.Rule.{Steps};
ghost use Rattle.octet_safe.specs.Replies.{PassesSafePoint};
ghost use Rattle.octet_state.specs.Steps.{ToBlock, ToUnblock};
ghost use Rattle.octet_state.specs.declared.act.Mode.TheVariants as mode;
ghost use Rattle.octet_heap.specs.Calls.{access_to};
ghost use Rattle.octet_heap.specs.Workers.{seat_of, pending_after};
ghost use Rattle.octet_recorder.specs.declared.access.Access.TheVariants as want;
ghost use Rattle.octet_recorder.specs.Tracks.{objects_in, lines_in, number_of, lines_noted, pending_of, changing_of, IsTrackOf, IsIdle, IsIdleIfMade, Notes, NotesFew, NotesNothing};
ghost use Rattle.octet_recorder.specs.Polls.{NotesPoll};

use crate::access::Access;
use crate::recorder::Recorder;
use crate::track::{LINES_OF_ACCESS, Track};
use octet_heap::{PendingAccess, Poll};
use octet_state::Mode;

// A read in the words of the heap.
fn read_of(object: u16) -> PendingAccess
    ensures { result ≡ access_to object mode.Read 0 }
{
    PendingAccess {
        value: 0,
        object,
        mode: Mode::Read,
    }
}

// And a write.
fn write_of(object: u16, value: u64) -> PendingAccess
    ensures { result ≡ access_to object mode.Write value }
{
    PendingAccess {
        value,
        object,
        mode: Mode::Write,
    }
}

impl Recorder {
    // Begins a read or a write, and makes it if it can be made at once.
    fn begin(&self, track: &mut Track, wanted: Access, access: PendingAccess) -> Poll
        requires own { IsTrackOf self.now track.old }
        requires idle { IsIdle track.old }
        requires object { access.object < objects_in self.now }
        requires more { lines_noted track.old + LINES_OF_ACCESS ≤ lines_in self.now }
        requires wanted { pending_of (Some wanted) ≡ Some access }
        requires no_update { changing_of (Some wanted) ≡ None }
        ensures own { IsTrackOf self.now track.new }
        ensures idle { IsIdleIfMade result track.new }
        ensures begun { track.new.begun ≡ pending_after result (Some wanted) }
        ensures notes { Notes access track.old result track.new }
        ensures number { number_of track.new ≡ number_of track.old }
        ensures few { NotesFew result (lines_noted track.old) (lines_noted track.new) }
    {
        let poll = self.heap.access_or_begin(
            &mut track.worker,
            access.object,
            access.mode,
            access.value,
        );
        track.take_in(poll, wanted, access);
        poll
    }

    // Goes on with a read or a write that was begun.
    fn go_on(&self, track: &mut Track, wanted: Access, access: PendingAccess) -> Poll
        requires own { IsTrackOf self.now track.old }
        requires begun { track.old.begun ≡ Some wanted }
        requires wanted { pending_of (Some wanted) ≡ Some access }
        requires no_update { changing_of (Some wanted) ≡ None }
        ensures own { IsTrackOf self.now track.new }
        ensures idle { IsIdleIfMade result track.new }
        ensures begun { track.new.begun ≡ pending_after result (Some wanted) }
        ensures notes { Notes access track.old result track.new }
        ensures number { number_of track.new ≡ number_of track.old }
        ensures few { NotesFew result (lines_noted track.old) (lines_noted track.new) }
    {
        let poll = self.heap.poll(&mut track.worker);
        track.take_in(poll, wanted, access);
        poll
    }

    /// Reads an object. Answers `Ready` with its value, or `Pending` with the reason; then `poll`
    /// goes on with the access.
    pub fn read(&self, track: &mut Track, object: u16) -> Poll
        requires own { IsTrackOf self.now track.old }
        requires idle { IsIdle track.old }
        requires object { object < objects_in self.now }
        requires more { lines_noted track.old + LINES_OF_ACCESS ≤ lines_in self.now }
        ensures own { IsTrackOf self.now track.new }
        ensures idle { IsIdleIfMade result track.new }
        ensures begun { track.new.begun ≡ pending_after result (Some (want.Read object)) }
        ensures notes { Notes (access_to object mode.Read 0) track.old result track.new }
        ensures number { number_of track.new ≡ number_of track.old }
        ensures few { NotesFew result (lines_noted track.old) (lines_noted track.new) }
    {
        self.begin(track, Access::Read { object }, read_of(object))
    }

    /// Writes a value to an object. Answers as `read` does, with the value that was written.
    pub fn write(&self, track: &mut Track, object: u16, value: u64) -> Poll
        requires own { IsTrackOf self.now track.old }
        requires idle { IsIdle track.old }
        requires object { object < objects_in self.now }
        requires more { lines_noted track.old + LINES_OF_ACCESS ≤ lines_in self.now }
        ensures own { IsTrackOf self.now track.new }
        ensures idle { IsIdleIfMade result track.new }
        ensures begun { track.new.begun ≡ pending_after result (Some (want.Write object value)) }
        ensures notes { Notes (access_to object mode.Write value) track.old result track.new }
        ensures number { number_of track.new ≡ number_of track.old }
        ensures few { NotesFew result (lines_noted track.old) (lines_noted track.new) }
    {
        self.begin(
            track,
            Access::Write { object, value },
            write_of(object, value),
        )
    }

    /// Goes on with the access that was begun, as `Heap::poll` does: of an update `Ready` has the value
    /// after it.
    pub fn poll(&self, track: &mut Track) -> Poll
        requires own { IsTrackOf self.now track.old }
        requires begun { is_some track.old.begun ≡ true }
        ensures own { IsTrackOf self.now track.new }
        ensures idle { IsIdleIfMade result track.new }
        ensures begun { track.new.begun ≡ pending_after result track.old.begun }
        ensures notes { ForSome track.old.begun (λ access. NotesPoll access track.old result track.new) }
        ensures number { number_of track.new ≡ number_of track.old }
        ensures few { NotesFew result (lines_noted track.old) (lines_noted track.new) }
    {
        let wanted = track.begun.unwrap();
        match wanted {
            Access::Read { object } => self.go_on(track, wanted, read_of(object)),
            Access::Write { object, value } => self.go_on(track, wanted, write_of(object, value)),
            Access::Update { object, change } => self.poll_update(track, object, change),
        }
    }

    /// Begins a region with the next access. A region without an access leaves no trace.
    pub fn begin_region(&self, track: &mut Track)
        requires own { IsTrackOf self.now track.old }
        requires idle { IsIdle track.old }
        ensures own { IsTrackOf self.now track.new }
        ensures idle { IsIdle track.new }
        ensures worker { track.new.worker ≡ track.old.worker }
        ensures commands { track.new.commands ≡ track.old.commands }
        ensures region { track.new.region ≡ true }
    {
        track.region = true;
    }

    /// Answers the threads that have asked this one. Tells whether any has.
    pub fn safe_point(&self, track: &mut Track) -> bool
        requires own { IsTrackOf self.now track.old }
        requires idle { IsIdle track.old }
        ensures own { IsTrackOf self.now track.new }
        ensures idle { IsIdle track.new }
        ensures same { NotesNothing track.old track.new }
        ensures step { PassesSafePoint (seat_of track.old.worker) result (seat_of track.new.worker) }
    {
        self.heap.safe_point(&mut track.worker)
    }

    /// Marks the thread as blocked, so that no other thread has to wait for it.
    pub fn block(&self, track: &mut Track)
        requires own { IsTrackOf self.now track.old }
        requires idle { IsIdle track.old }
        ensures own { IsTrackOf self.now track.new }
        ensures rests { IsResting (seat_of track.new.worker).thread.phase }
        ensures same { NotesNothing track.old track.new }
        ensures step { (found : ℕ) × Steps (ToBlock false) (seat_of track.old.worker) found (seat_of track.new.worker) }
    {
        self.heap.block(&mut track.worker);
    }

    /// Marks the thread as running. The first one starts it.
    pub fn unblock(&self, track: &mut Track)
        requires own { IsTrackOf self.now track.old }
        requires rests { IsResting (seat_of track.old.worker).thread.phase }
        ensures own { IsTrackOf self.now track.new }
        ensures idle { IsIdle track.new }
        ensures same { NotesNothing track.old track.new }
        ensures step { (found : ℕ) × Steps ToUnblock (seat_of track.old.worker) found (seat_of track.new.worker) }
    {
        self.heap.unblock(&mut track.worker);
    }
}
