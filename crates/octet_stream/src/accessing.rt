//! A track makes the access that it was asked for, or begins it.
ghost use Rattle.std.specs.Prelude.{◌≡◌, ◌<◌, Some, None, Ok, Err, false, IfErr, OnOk};
ghost use Rattle.octet_state.specs.declared.act.Mode.TheVariants as mode;
ghost use Rattle.octet_heap.specs.Calls.{access_to, Polls};
ghost use Rattle.octet_heap.specs.Workers.{pending_after};
ghost use Rattle.octet_heap.specs.Models.{heap_model};
ghost use Rattle.octet_heap.specs.Markers.{marker_seat, IsMarkerOf, IsIdleIfMade, IsSameBuffer};
ghost use Rattle.octet_recorder.specs.declared.access.Access.TheVariants as want;
ghost use Rattle.octet_session.specs.declared.not_made.NotMade.TheVariants as not_made;
ghost use Rattle.octet_session.specs.Asking.{object_of, Asks};
ghost use Rattle.octet_stream.specs.declared.track.Stage.TheVariants as stage;
ghost use Rattle.octet_stream.specs.Tracks.{IsTrackOf};
ghost use Rattle.octet_stream.specs.Accesses.{MayAccess, MayGoOn, track_standing, TrackRuns, IsMarkerReason, PollsReady, backoff_after};

use crate::long_run::{Full, LongRun};
use crate::track::{POLLS_OF_BACKOFF, Stage, Track};
use octet_digest::Digest;
use octet_heap::{Change, Heap, Marker, Poll, Updated};
use octet_recorder::Access;
use octet_session::NotMade;
use octet_state::{Mode, Why};

type Answer = Result<u64, NotMade<Full>>;

// Begins a read or a write, or goes on with it where it is begun.
#[inline(always)]
fn access_on(
    heap: &Heap,
    marker: &mut Marker,
    begun: bool,
    object: u16,
    mode: Mode,
    value: u64,
) -> Poll
    requires own { IsMarkerOf heap.now marker.old }
    requires may { MayAccess begun (access_to object mode value) marker.old }
    requires object { object < (heap_model heap.now).objects }
    ensures own { IsMarkerOf heap.now marker.new }
    ensures idle { IsIdleIfMade result marker.new }
    ensures pending { marker.new.pending ≡ pending_after result (Some (access_to object mode value)) }
    ensures changing { marker.new.changing ≡ None }
    ensures polls { Polls (access_to object mode value) (marker_seat marker.old) result (marker_seat marker.new) }
    ensures number { (marker_seat marker.new).number ≡ (marker_seat marker.old).number }
    ensures same { IsSameBuffer marker.old marker.new }
{
    if begun {
        marker.poll(heap)
    } else {
        marker.access_or_begin(heap, object, mode, value)
    }
}

// How many polls a track lets pass after one that was pending.
fn backoff_after(why: Why) -> u8
    ensures { result ≡ backoff_after why }
{
    match why {
        Why::Held { .. } | Why::Changed { .. } => POLLS_OF_BACKOFF,
        Why::Unanswered { .. } => 0,
    }
}

impl Stage {
    // One that was free already stores nothing.
    #[inline(always)]
    fn become_free(&mut self)
        ensures { self.new ≡ stage.Free }
    {
        match *self {
            Stage::Free => {}
            _ => *self = Stage::Free,
        }
    }
}

impl Track {
    // An access is made, and stands in the digest.
    #[inline(always)]
    fn made(&mut self, digest: Digest, value: u64) -> Answer
        ensures made { self.new ≡ record self.old { digest = digest; stage = stage.Free; region = false } }
        ensures told { result ≡ Ok value }
    {
        self.digest = digest;
        self.stage.become_free();
        self.region = false;
        Ok(value)
    }

    // An access waits. What goes out of line is copied to memory here, and so stays in registers where the access is made.
    #[inline(always)]
    fn waits(&mut self, wanted: Access, why: Why) -> Answer
        ensures stays { self.new ≡ record self.old { stage = stage.Begun wanted; backoff = backoff_after why } }
        ensures told { result ≡ Err not_made.Waits }
    {
        self.stay_begun(wanted, why);
        Err(NotMade::Waits)
    }

    // The same, out of line.
    #[inline(never)]
    fn stay_begun(&mut self, wanted: Access, why: Why)
        ensures { self.new ≡ record self.old { stage = stage.Begun wanted; backoff = backoff_after why } }
    {
        self.stage = Stage::Begun { wanted };
        self.backoff = backoff_after(why);
    }
}

// A read.
#[inline(always)]
fn read_on(run: &LongRun, track: &mut Track, begun: bool, object: u16) -> Answer
    requires own { IsTrackOf run.now track.old }
    requires may { MayGoOn begun (want.Read object) track.old }
    requires object { object < (heap_model run.now.heap).objects }
    ensures own { IsTrackOf run.now track.new }
    ensures runs { TrackRuns track.new }
    ensures asks { Asks (want.Read object) (track_standing track.old) result (track_standing track.new) }
    ensures reason { IfErr result (IsMarkerReason (want.Read object) track.old track.new) }
    ensures made { OnOk result (PollsReady (want.Read object) (marker_seat track.old.marker) (marker_seat track.new.marker)) }
    ensures same { IsSameBuffer track.old.marker track.new.marker }
{
    match access_on(&run.heap, &mut track.marker, begun, object, Mode::Read, 0) {
        Poll::Ready { value } => track.made(track.digest.read(object, value), value),
        Poll::Pending { why } => track.waits(Access::Read { object }, why),
    }
}

// A write.
#[inline(always)]
fn write_on(run: &LongRun, track: &mut Track, begun: bool, object: u16, value: u64) -> Answer
    requires own { IsTrackOf run.now track.old }
    requires may { MayGoOn begun (want.Write object value) track.old }
    requires object { object < (heap_model run.now.heap).objects }
    ensures own { IsTrackOf run.now track.new }
    ensures runs { TrackRuns track.new }
    ensures asks { Asks (want.Write object value) (track_standing track.old) result (track_standing track.new) }
    ensures reason { IfErr result (IsMarkerReason (want.Write object value) track.old track.new) }
    ensures made { OnOk result (PollsReady (want.Write object value) (marker_seat track.old.marker) (marker_seat track.new.marker)) }
    ensures same { IsSameBuffer track.old.marker track.new.marker }
{
    match access_on(
        &run.heap,
        &mut track.marker,
        begun,
        object,
        Mode::Write,
        value,
    ) {
        Poll::Ready { value: written } => track.made(track.digest.write(object, value), written),
        Poll::Pending { why } => track.waits(Access::Write { object, value }, why),
    }
}

// An update.
#[inline(always)]
fn update_on(run: &LongRun, track: &mut Track, begun: bool, object: u16, change: Change) -> Answer
    requires own { IsTrackOf run.now track.old }
    requires may { MayGoOn begun (want.Update object change) track.old }
    requires object { object < (heap_model run.now.heap).objects }
    ensures own { IsTrackOf run.now track.new }
    ensures runs { TrackRuns track.new }
    ensures asks { Asks (want.Update object change) (track_standing track.old) result (track_standing track.new) }
    ensures reason { IfErr result (IsMarkerReason (want.Update object change) track.old track.new) }
    ensures made { OnOk result (PollsReady (want.Update object change) (marker_seat track.old.marker) (marker_seat track.new.marker)) }
    ensures same { IsSameBuffer track.old.marker track.new.marker }
{
    match track.marker.update(&run.heap, object, change) {
        Updated::Made { before } => {
            track.made(
                track.digest.update(object, before, change.changed(before)),
                before,
            )
        }
        Updated::Pending { why } => track.waits(Access::Update { object, change }, why),
    }
}

// Begins an access, or goes on with it.
#[inline(always)]
pub(crate) fn go_on(run: &LongRun, track: &mut Track, begun: bool, wanted: Access) -> Answer
    requires own { IsTrackOf run.now track.old }
    requires may { MayGoOn begun wanted track.old }
    requires object { object_of wanted < (heap_model run.now.heap).objects }
    ensures own { IsTrackOf run.now track.new }
    ensures runs { TrackRuns track.new }
    ensures asks { Asks wanted (track_standing track.old) result (track_standing track.new) }
    ensures reason { IfErr result (IsMarkerReason wanted track.old track.new) }
    ensures made { OnOk result (PollsReady wanted (marker_seat track.old.marker) (marker_seat track.new.marker)) }
    ensures same { IsSameBuffer track.old.marker track.new.marker }
{
    match wanted {
        Access::Read { object } => read_on(run, track, begun, object),
        Access::Write { object, value } => write_on(run, track, begun, object, value),
        Access::Update { object, change } => update_on(run, track, begun, object, change),
    }
}
