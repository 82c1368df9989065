//! A long run is a session: its threads are tracks.
ghost use Rattle.std.specs.Prelude.{◌≡◌, ◌<◌, Some, None, Err, true, false, IfErr, OnOk};
ghost use Rattle.octet_safe.specs.Replies.{PassesSafePoint};
ghost use Rattle.octet_heap.specs.Markers.{marker_seat, IsIdle, HasRoom};
ghost use Rattle.octet_heap.specs.Models.{heap_model};
ghost use Rattle.octet_session.specs.Asking.{object_of, MayAsk, Asks};
ghost use Rattle.octet_session.specs.Standing.{Keeps};
ghost use Rattle.octet_stream.specs.declared.track.Stage.TheVariants as stage;
ghost use Rattle.octet_stream.specs.Tracks.{wanted_in, IsTrackOf, HandsOn};
ghost use Rattle.octet_stream.specs.Accesses.{track_standing, TrackRuns, TrackRests, TrackHasEnded, IsReady, IsFirstReason, Answers, AnswersAndMakes, IsTrackReason};

use crate::accessing::go_on;
use crate::long_run::{Full, LongRun};
use crate::track::{Stage, Track};
use octet_recorder::Access;
use octet_session::{NotMade, Session};

impl LongRun {
    /// Answers the threads that have asked this one, which makes nothing. Tells whether any has.
    pub fn glance(&self, track: &mut Track) -> bool
        requires own { IsTrackOf self.now track.old }
        requires runs { TrackRuns track.old }
        requires idle { (track_standing track.old).begun ≡ None }
        ensures own { IsTrackOf self.now track.new }
        ensures runs { TrackRuns track.new }
        ensures keeps { Keeps (track_standing track.old) (track_standing track.new) }
        ensures step { PassesSafePoint (marker_seat track.old.marker) result (marker_seat track.new.marker) }
    {
        track.marker.safe_point(&self.heap)
    }
}

impl Track {
    // Whether it has nothing to do before its next access: nothing waits, and no block is due.
    #[inline(always)]
    fn is_ready(&self) -> bool
        ensures { result ≡ true → (self.now.stage ≡ stage.Free) × HasRoom self.now.marker }
    {
        match self.stage {
            Stage::Free => !self.is_due(),
            _ => false,
        }
    }
}

impl LongRun {
    // Begins an access, once it has answered the threads that have asked. A thread that owns all that it accesses would else
    // answer nobody.
    #[inline(always)]
    fn begin(&self, track: &mut Track, wanted: Access) -> Result<u64, NotMade<Full>>
        requires own { IsTrackOf self.now track.old }
        requires ready { IsReady wanted track.old }
        requires object { object_of wanted < (heap_model self.now.heap).objects }
        ensures own { IsTrackOf self.now track.new }
        ensures runs { TrackRuns track.new }
        ensures asks { Asks wanted (track_standing track.old) result (track_standing track.new) }
        ensures reason { IfErr result (IsFirstReason wanted track.old track.new) }
        ensures made { OnOk result (AnswersAndMakes wanted track.old track.new) }
    {
        let heap = &self.heap;
        track.marker.safe_point(heap);
        go_on(self, track, false, wanted)
    }

    // Goes on with the access that was begun, or lets this poll pass.
    fn go_on(&self, track: &mut Track, wanted: Access) -> Result<u64, NotMade<Full>>
        requires own { IsTrackOf self.now track.old }
        requires begun { track.old.stage ≡ stage.Begun wanted }
        requires running { track.old.ended ≡ false }
        requires object { object_of wanted < (heap_model self.now.heap).objects }
        ensures own { IsTrackOf self.now track.new }
        ensures runs { TrackRuns track.new }
        ensures asks { Asks wanted (track_standing track.old) result (track_standing track.new) }
        ensures reason { IfErr result (IsTrackReason (Some wanted) track.old track.new) }
        ensures made { OnOk result (AnswersAndMakes wanted track.old track.new) }
    {
        if track.backoff > 0 {
            track.backoff -= 1;
            track.marker.answer(&self.heap);
            return Err(NotMade::Waits);
        }
        go_on(self, track, true, wanted)
    }

    // Hands on the block that is due, if one is. Refused where the ring has no room for it; the track answers others all the
    // same.
    fn make_room(&self, track: &mut Track, wanted: Access) -> Result<(), NotMade<Full>>
        requires own { IsTrackOf self.now track.old }
        requires idle { IsIdle track.old.marker }
        requires running { track.old.ended ≡ false }
        requires may { MayAsk wanted (wanted_in track.old.stage) }
        ensures own { IsTrackOf self.now track.new }
        ensures runs { TrackRuns track.new }
        ensures made { OnOk result (HandsOn track.old track.new × IsReady wanted track.new) }
        ensures asks { IfErr result (λ why. Asks wanted (track_standing track.old) (Err why) (track_standing track.new)) }
        ensures reason { IfErr result (IsTrackReason (Some wanted) track.old track.new) }
    {
        if !track.is_due() {
            return Ok(());
        }
        if !self.hand_on(track, false) {
            track.marker.safe_point(&self.heap);
            track.stage = Stage::Asked { wanted };
            return Err(NotMade::Waits);
        }
        if !track.marker.has_room() {
            track.stage = Stage::Free;
            return Err(NotMade::Left { halt: Full });
        }
        Ok(())
    }

    // Asks a track that waits, or that has a block to hand on first. What goes out of line is copied to memory here, and so
    // stays in registers where the track is ready.
    #[inline(always)]
    fn ask_on(&self, track: &mut Track, wanted: Access) -> Result<u64, NotMade<Full>>
        requires own { IsTrackOf self.now track.old }
        requires runs { TrackRuns track.old }
        requires may { MayAsk wanted (track_standing track.old).begun }
        requires object { object_of wanted < (heap_model self.now.heap).objects }
        ensures own { IsTrackOf self.now track.new }
        ensures runs { TrackRuns track.new }
        ensures asks { Asks wanted (track_standing track.old) result (track_standing track.new) }
        ensures reason { IfErr result (IsTrackReason (Some wanted) track.old track.new) }
        ensures made { OnOk result (AnswersAndMakes wanted track.old track.new) }
    {
        self.ask_in_full(track, wanted)
    }

    // The same, out of line.
    #[inline(never)]
    fn ask_in_full(&self, track: &mut Track, wanted: Access) -> Result<u64, NotMade<Full>>
        requires own { IsTrackOf self.now track.old }
        requires runs { TrackRuns track.old }
        requires may { MayAsk wanted (track_standing track.old).begun }
        requires object { object_of wanted < (heap_model self.now.heap).objects }
        ensures own { IsTrackOf self.now track.new }
        ensures runs { TrackRuns track.new }
        ensures asks { Asks wanted (track_standing track.old) result (track_standing track.new) }
        ensures reason { IfErr result (IsTrackReason (Some wanted) track.old track.new) }
        ensures made { OnOk result (AnswersAndMakes wanted track.old track.new) }
    {
        if let Stage::Begun { .. } = track.stage {
            return self.go_on(track, wanted);
        }
        if let Err(why) = self.make_room(track, wanted) {
            return Err(why);
        }
        self.begin(track, wanted)
    }
}

impl Session for LongRun {
    type Thread = Track;

    type Halt = Full;

    ghost IsThreadOf = { IsTrackOf };

    ghost standing = { λ _. track_standing };

    ghost objects = { λ run. (heap_model run.heap).objects };

    ghost recorded = { λ _ _. None };

    ghost Runs = { TrackRuns };

    ghost Rests = { TrackRests };

    ghost HasEnded = { λ _. TrackHasEnded };

    ghost IsReason = { λ _. IsTrackReason };

    ghost HasMade = { λ _. AnswersAndMakes };

    #[inline(always)]
    fn ask(&self, thread: &mut Track, wanted: Access) -> Result<u64, NotMade<Full>> {
        if thread.is_ready() {
            self.begin(thread, wanted)
        } else {
            self.ask_on(thread, wanted)
        }
    }

    fn region(&self, thread: &mut Track) {
        thread.region = true;
    }

    fn safe_point(&self, thread: &mut Track)
        requires own { IsTrackOf self.now thread.old }
        requires runs { TrackRuns thread.old }
        requires idle { (track_standing thread.old).begun ≡ None }
        ensures own { IsTrackOf self.now thread.new }
        ensures runs { TrackRuns thread.new }
        ensures keeps { Keeps (track_standing thread.old) (track_standing thread.new) }
        ensures answers { Answers (marker_seat thread.old.marker) (marker_seat thread.new.marker) }
    {
        self.glance(thread);
    }

    fn block(&self, thread: &mut Track) {
        thread.marker.block(&self.heap);
    }

    fn unblock(&self, thread: &mut Track) {
        thread.marker.unblock(&self.heap);
    }

    fn finish(&self, thread: &mut Track) -> Result<(), NotMade<Full>> {
        if !self.hand_on(thread, true) {
            thread.marker.safe_point(&self.heap);
            return Err(NotMade::Waits);
        }
        thread.marker.block(&self.heap);
        Ok(())
    }
}
