//! A track makes an access right after the one before it, so that the right to the objects of both stands.
ghost use Rattle.std.specs.Prelude.{◌≡◌, ◌<◌, None, true, false};
ghost use Rattle.octet_state.specs.declared.limits.TheConstants.{MAX_ACCESSES_OF_THREAD};
ghost use Rattle.octet_heap.specs.Builders.{accesses_of};
ghost use Rattle.octet_heap.specs.Markers.{HasWholeRoom};
ghost use Rattle.octet_heap.specs.Models.{heap_model, marker_model};
ghost use Rattle.octet_session.specs.Asking.{object_of};
ghost use Rattle.octet_stream.specs.Accesses.{track_standing, TrackRuns};
ghost use Rattle.octet_stream.specs.Next.{ComesNext};
ghost use Rattle.octet_stream.specs.Tracks.{IsTrackOf, HandsOn, LacksRing};

use crate::accessing::go_on;
use crate::long_run::{Full, LongRun};
use crate::track::Track;
use octet_recorder::Access;
use octet_session::NotMade;

/// What an access comes to that is asked for right after another one.
#[derive(Clone, Copy, Debug, PartialEq, Eq)]
pub enum Next {
    /// It is made, with this value. No thread was answered since the access before it, and no mark was made.
    Joined { value: u64 },
    /// It is made after marks, or is not made yet, as `ask` answers.
    Asked { answer: Result<u64, NotMade<Full>> },
    /// The ring has no room for the block that is due. Nothing has changed.
    Lacks,
}

impl LongRun {
    // Makes room for one access more, if it can. Refused where the ring has none for the block that is due.
    fn room_for_next(&self, track: &mut Track) -> bool
        requires own { IsTrackOf self.now track.old }
        requires running { track.old.ended ≡ false }
        ensures own { IsTrackOf self.now track.new }
        ensures same { HandsOn track.old track.new }
        ensures running { track.new.ended ≡ false }
        ensures room { result ≡ true → accesses_of (marker_model track.old.marker) < MAX_ACCESSES_OF_THREAD → HasWholeRoom track.new.marker }
        ensures lacks { result ≡ false → LacksRing track.new }
    {
        track.marker.has_room() || self.hand_on(track, false)
    }

    /// Asks for an access as `ask` does, but answers no thread before it begins it.
    pub fn ask_next(&self, track: &mut Track, wanted: Access) -> Next
        requires own { IsTrackOf self.now track.old }
        requires runs { TrackRuns track.old }
        requires idle { (track_standing track.old).begun ≡ None }
        requires object { object_of wanted < (heap_model self.now.heap).objects }
        ensures own { IsTrackOf self.now track.new }
        ensures runs { TrackRuns track.new }
        ensures comes { ComesNext wanted track.old result track.new }
    {
        if !self.room_for_next(track) {
            return Next::Lacks;
        }
        if !track.marker.has_room() {
            return Next::Asked {
                answer: Err(NotMade::Left { halt: Full }),
            };
        }
        let marks = track.marker.marks().len();
        let answer = go_on(self, track, false, wanted);
        match answer {
            Ok(value) if track.marker.marks().len() == marks => Next::Joined { value },
            _ => Next::Asked { answer },
        }
    }
}
