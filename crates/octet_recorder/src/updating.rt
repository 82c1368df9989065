//! An update by a change is noted as the amount that it added.
ghost use Rattle.std.specs.Prelude.{◌≡◌, ◌+◌, ◌<◌, ◌≤◌, Some};
ghost use Rattle.octet_heap.specs.Workers.{pending_after};
ghost use Rattle.octet_heap.specs.Updates.{amount_made, answer_after};
ghost use Rattle.octet_recorder.specs.declared.access.Access.TheVariants as want;
ghost use Rattle.octet_recorder.specs.Tracks.{objects_in, lines_in, number_of, lines_noted, IsTrackOf, IsIdleIfMade, MayUpdate, NotesFew};
ghost use Rattle.octet_recorder.specs.Polls.{NotesUpdate, NotesPoll};

use crate::access::Access;
use crate::recorder::Recorder;
use crate::track::{LINES_OF_ACCESS, Track};
use octet_heap::{Change, PendingAccess, Poll, Updated};
use octet_state::Mode;

// What `poll` answers of an update, which tells the value after.
fn answer_after(updated: Updated, change: Change) -> Poll
    ensures { result ≡ answer_after change updated }
{
    match updated {
        Updated::Made { before } => Poll::Ready {
            value: change.changed(before),
        },
        Updated::Pending { why } => Poll::Pending { why },
    }
}

// The amount that an update has added, once it is made.
fn amount_made(updated: Updated, change: Change) -> u64
    ensures { result ≡ amount_made change updated }
{
    match updated {
        Updated::Made { before } => change.amount(before),
        Updated::Pending { .. } => 0,
    }
}

impl Recorder {
    /// Updates an object by a change of the value that it finds, as one access. Answers `Made` with the
    /// value before, as Rust's atomics do, or `Pending` with the reason. The same call again goes on with
    /// it, and so does `poll`.
    pub fn update(&self, track: &mut Track, object: u16, change: Change) -> Updated
        requires own { IsTrackOf self.now track.old }
        requires may { MayUpdate object change track.old }
        requires object { object < objects_in self.now }
        requires more { lines_noted track.old + LINES_OF_ACCESS ≤ lines_in self.now }
        ensures own { IsTrackOf self.now track.new }
        ensures idle { IsIdleIfMade (answer_after change result) track.new }
        ensures begun { track.new.begun ≡ pending_after (answer_after change result) (Some (want.Update object change)) }
        ensures notes { NotesUpdate object change track.old result track.new }
        ensures number { number_of track.new ≡ number_of track.old }
        ensures few { NotesFew (answer_after change result) (lines_noted track.old) (lines_noted track.new) }
    {
        let updated = self.heap.update(&mut track.worker, object, change);
        let access = PendingAccess {
            value: amount_made(updated, change),
            object,
            mode: Mode::Update,
        };
        let wanted = Access::Update { object, change };
        track.take_in(answer_after(updated, change), wanted, access);
        updated
    }

    // A poll of a track that has begun this update.
    pub(crate) fn poll_update(&self, track: &mut Track, object: u16, change: Change) -> Poll
        requires own { IsTrackOf self.now track.old }
        requires begun { track.old.begun ≡ Some (want.Update object change) }
        ensures own { IsTrackOf self.now track.new }
        ensures idle { IsIdleIfMade result track.new }
        ensures begun { track.new.begun ≡ pending_after result track.old.begun }
        ensures notes { NotesPoll (want.Update object change) track.old result track.new }
        ensures number { number_of track.new ≡ number_of track.old }
        ensures few { NotesFew result (lines_noted track.old) (lines_noted track.new) }
    {
        let updated = self.update(track, object, change);
        answer_after(updated, change)
    }
}
