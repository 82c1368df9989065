//! A recorder is a session: its threads are tracks.
ghost use Rattle.std.specs.Prelude.{◌≡◌, ◌<◌, ◌≤◌, ◌+◌, Some, None, IfErr, OnOk};
ghost use Rattle.octet_state.specs.declared.act.Mode.TheVariants as mode;
ghost use Rattle.octet_heap.specs.Calls.{access_to};
ghost use Rattle.octet_heap.specs.Workers.{pending_after};
ghost use Rattle.octet_recorder.specs.declared.access.Access.TheVariants as want;
ghost use Rattle.octet_recorder.specs.Tracks.{objects_in, lines_in, lines_noted, number_of, IsTrackOf, IsIdleIfMade, Notes};
ghost use Rattle.octet_session.specs.Recording.{track_standing, TrackRuns, TrackRests, IsPending, IsMade, Answers, AnswersAndMakes, IsTrackReason};
ghost use Rattle.octet_session.specs.Asking.{object_of, MayAsk, Asks};
ghost use Rattle.octet_session.specs.Standing.{Keeps};

use crate::answers::{poll_answer, update_answer};
use crate::not_made::NotMade;
use crate::session::Session;
use octet_recorder::{Access, LINES_OF_ACCESS, Poll, Recorder, Track};
use std::convert::Infallible;

// Begins a read, or goes on with it.
fn read_on(recorder: &Recorder, track: &mut Track, object: u16) -> Poll
    requires own { IsTrackOf recorder.now track.old }
    requires runs { TrackRuns track.old }
    requires may { MayAsk (want.Read object) track.old.begun }
    requires object { object < objects_in recorder.now }
    requires more { lines_noted track.old + LINES_OF_ACCESS ≤ lines_in recorder.now }
    ensures own { IsTrackOf recorder.now track.new }
    ensures idle { IsIdleIfMade result track.new }
    ensures begun { track.new.begun ≡ pending_after result (Some (want.Read object)) }
    ensures notes { Notes (access_to object mode.Read 0) track.old result track.new }
    ensures number { number_of track.new ≡ number_of track.old }
{
    match track.begun() {
        None => recorder.read(track, object),
        Some(_) => recorder.poll(track),
    }
}

// Begins a write, or goes on with it.
fn write_on(recorder: &Recorder, track: &mut Track, object: u16, value: u64) -> Poll
    requires own { IsTrackOf recorder.now track.old }
    requires runs { TrackRuns track.old }
    requires may { MayAsk (want.Write object value) track.old.begun }
    requires object { object < objects_in recorder.now }
    requires more { lines_noted track.old + LINES_OF_ACCESS ≤ lines_in recorder.now }
    ensures own { IsTrackOf recorder.now track.new }
    ensures idle { IsIdleIfMade result track.new }
    ensures begun { track.new.begun ≡ pending_after result (Some (want.Write object value)) }
    ensures notes { Notes (access_to object mode.Write value) track.old result track.new }
    ensures number { number_of track.new ≡ number_of track.old }
{
    match track.begun() {
        None => recorder.write(track, object, value),
        Some(_) => recorder.poll(track),
    }
}

// Begins an access, or goes on with it.
fn access_on(
    recorder: &Recorder,
    track: &mut Track,
    wanted: Access,
) -> Result<u64, NotMade<Infallible>>
    requires own { IsTrackOf recorder.now track.old }
    requires runs { TrackRuns track.old }
    requires may { MayAsk wanted track.old.begun }
    requires object { object_of wanted < objects_in recorder.now }
    requires more { lines_noted track.old + LINES_OF_ACCESS ≤ lines_in recorder.now }
    ensures own { IsTrackOf recorder.now track.new }
    ensures runs { TrackRuns track.new }
    ensures asks { Asks wanted (track_standing recorder.now track.old) result (track_standing recorder.now track.new) }
    ensures reason { IfErr result (IsPending wanted track.old track.new) }
    ensures made { OnOk result (IsMade wanted track.old track.new) }
{
    match wanted {
        Access::Read { object } => poll_answer(read_on(recorder, track, object)),
        Access::Write { object, value } => poll_answer(write_on(recorder, track, object, value)),
        Access::Update { object, change } => update_answer(recorder.update(track, object, change)),
    }
}

// Begins an access, once it has answered the threads that have asked. A thread that owns all that it accesses would else
// answer nobody.
fn begin(recorder: &Recorder, track: &mut Track, wanted: Access) -> Result<u64, NotMade<Infallible>>
    requires own { IsTrackOf recorder.now track.old }
    requires runs { TrackRuns track.old }
    requires idle { track.old.begun ≡ None }
    requires object { object_of wanted < objects_in recorder.now }
    requires more { lines_noted track.old + LINES_OF_ACCESS ≤ lines_in recorder.now }
    ensures own { IsTrackOf recorder.now track.new }
    ensures runs { TrackRuns track.new }
    ensures asks { Asks wanted (track_standing recorder.now track.old) result (track_standing recorder.now track.new) }
    ensures reason { IfErr result (IsTrackReason (Some wanted) track.old track.new) }
    ensures made { OnOk result (AnswersAndMakes wanted track.old track.new) }
{
    recorder.safe_point(track);
    access_on(recorder, track, wanted)
}

impl Session for Recorder {
    type Thread = Track;

    // It has no recording to leave.
    type Halt = Infallible;

    ghost IsThreadOf = { IsTrackOf };

    ghost standing = { track_standing };

    ghost objects = { objects_in };

    ghost recorded = { λ _ _. None };

    ghost Runs = { TrackRuns };

    ghost Rests = { TrackRests };

    ghost HasEnded = { λ _ track. TrackRests track };

    ghost IsReason = { λ _. IsTrackReason };

    ghost HasMade = { λ _. AnswersAndMakes };

    fn ask(&self, thread: &mut Track, wanted: Access) -> Result<u64, NotMade<Infallible>> {
        if self.lines_left(thread) < LINES_OF_ACCESS {
            return Err(NotMade::NoRoom);
        }
        match thread.begun() {
            Some(_) => access_on(self, thread, wanted),
            None => begin(self, thread, wanted),
        }
    }

    fn region(&self, thread: &mut Track) {
        self.begin_region(thread);
    }

    fn safe_point(&self, thread: &mut Track)
        requires own { IsTrackOf self.now thread.old }
        requires runs { TrackRuns thread.old }
        requires idle { thread.old.begun ≡ None }
        ensures own { IsTrackOf self.now thread.new }
        ensures runs { TrackRuns thread.new }
        ensures keeps { Keeps (track_standing self.now thread.old) (track_standing self.now thread.new) }
        ensures answers { Answers thread.old thread.new }
    {
        self.safe_point(thread);
    }

    fn block(&self, thread: &mut Track) {
        self.block(thread);
    }

    fn unblock(&self, thread: &mut Track) {
        self.unblock(thread);
    }

    fn finish(&self, thread: &mut Track) -> Result<(), NotMade<Infallible>> {
        self.block(thread);
        Ok(())
    }
}
