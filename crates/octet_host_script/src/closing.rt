//! What a recorded run leaves, once all its threads are handed back.
ghost use Rattle.std.specs.Prelude.{◌≡◌, ◌<◌, ◌≤◌, ◌⊎◌, All, Any, length, true, false, IfOk, IfErr, OnOk};
ghost use Rattle.std.specs.Arc.{arc_value};
ghost use Rattle.octet_model.specs.Orders.{IsFaithful};
ghost use Rattle.octet_log.specs.v2.Pieces.{marks_in};
ghost use Rattle.octet_recorder.specs.Tracks.{number_of, EachRests, IsTrackOf};
ghost use Rattle.octet_host.specs.declared.fault.CloseFault.TheVariants.{OutOfMemory as MemoryRefused, TwoRuns as OfTwoRuns};
ghost use Rattle.octet_host.specs.HandedBack.{AreAsOne};
ghost use Rattle.octet_host.specs.Sealed.{IsSealed, AreFound, ShareOne};
ghost use Rattle.octet_session.specs.Recording.{TrackRests};
ghost use Rattle.octet_host_script.specs.HandedBack.{IsRecordedAt, IsRecordedAmong, IsRecordedAs, RecordsTooMany, RefusesToKeep, RefusesRecorded};
ghost use Rattle.octet_host_script.specs.Records.{Keeps, KeepsRecording};
ghost use Rattle.octet_host_script.specs.Theirs.{KeepsThreads};
ghost use Rattle.octet_host_script.specs.Threads.{recorder_of, IsRecorded};

use crate::kept::Kept;
use crate::recorded::{
    Heap, LeftTrack, NotedTrack, Place, Recorded, SealedRun, SealedTrack, TrackNote,
};
use octet_host::{CloseFault, HandIn, Left, Stage, agree, hand_in_all, lay, seal};
use octet_log::{MAX_MARKS, digest, encode_v2};
use octet_model::{List, Outcome, ThreadLog};
use octet_recorder::{Recording, Track};
use octet_script::print;
use std::alloc::Global;
use std::sync::Arc;

impl Heap {
    // Lays a track down, if its place is there and free.
    fn lay(&self, number: usize, left: Left<NotedTrack>)
        requires own { IsTrackOf self.now.recorder left.loose.value.track }
        requires rests { TrackRests left.loose.value.track }
        requires sealed { IsSealed self.now.seals.items (number_of left.loose.value.track) left.loose.value.track left.loose.value.note }
    {
        if let Some(place) = self.desk.get(number) {
            lay(place, LeftTrack { left });
        }
    }
}

impl HandIn for Recorded {
    type Shared = Heap;

    type Note = TrackNote;

    ghost IsGood = { IsRecorded };

    ghost stage = { λ it. it.stage };

    ghost shared = { λ it. arc_value it.heap };

    ghost IsAt = { IsRecordedAt };

    ghost IsAmong = { IsRecordedAmong };

    ghost IsNotWhole = { λ _. ⊥ };

    ghost IsTooLong = { λ it. RecordsTooMany (recorder_of it) };

    ghost IsNoted = { λ number it note. IsSealed (arc_value it.heap).seals.items number it.track note };

    fn hand_in(
        self,
        alloc: Global,
        number: usize,
        threads: usize,
    ) -> Result<(Option<Heap>, TrackNote), CloseFault> {
        let Recorded {
            heap,
            track,
            stage,
            ..
        } = self;
        let (Stage::Resting | Stage::Ended) = stage else {
            return Err(CloseFault::StillRunning);
        };
        if heap.desk.len() != threads {
            return Err(CloseFault::OtherSessions);
        }
        if track.thread() as usize != number {
            return Err(CloseFault::OutOfOrder);
        }
        let mut note = seal(alloc, heap.seals.as_slice(), number, SealedTrack, &track)?;
        let noted = NotedTrack {
            track,
            note: note.again(),
        };
        let left = Left::new(alloc, noted)?;
        heap.lay(number, left);
        Ok((Arc::into_inner(heap), note))
    }
}

// The tracks that lie on the desk of a run, in order: those of which these are the notes.
fn tracks_on(
    alloc: Global,
    run: &SealedRun,
    desk: Vec<Place>,
    notes: Vec<TrackNote>,
) -> Result<List<Track>, CloseFault>
    requires tags { All (λ tag. tag ≡ run.now) desk.items }
    ensures all { IfOk result (λ tracks. length tracks ≡ length desk.items) }
    ensures rest { IfOk result (EachRests run.now.recorder) }
    ensures found { IfOk result (AreFound (λ it. it) run.now.seals.items notes.items) }
    ensures refused { IfErr result (λ fault. (fault ≡ MemoryRefused) ⊎ (fault ≡ OfTwoRuns)) }
{
    let mut tracks = List::new(alloc);
    let mut noted = notes.into_iter();
    for place in desk {
        let Some(left) = place.into_inner() else {
            return Err(CloseFault::TwoRuns);
        };
        let Some(mut mine) = noted.next() else {
            return Err(CloseFault::TwoRuns);
        };
        let NotedTrack { track, mut note } = left.left.into_inner();
        if track.thread() as usize != tracks.len() {
            return Err(CloseFault::TwoRuns);
        }
        agree(&mut mine, &mut note);
        tracks.push(track)?;
    }
    Ok(tracks)
}

// Whether they have no more marks than version 2 of the format may hold.
fn are_short(logs: &[ThreadLog]) -> bool
    ensures short { result ≡ true → marks_in logs.now ≤ MAX_MARKS }
    ensures long { result ≡ false → MAX_MARKS < marks_in logs.now }
{
    let mut total = 0;
    for log in logs {
        let marks = log.marks.len();
        if marks > MAX_MARKS as usize - total {
            return false;
        }
        total += marks;
    }
    true
}

// What is kept of a recording.
fn kept_of(alloc: Global, recording: Recording) -> Result<Kept, CloseFault>
    requires { IsFaithful recording.script recording.log.threads recording.outcome }
    ensures keeps { IfOk result (Keeps recording) }
    ensures refused { IfErr result (RefusesToKeep recording) }
{
    let Recording {
        script,
        log,
        outcome,
    } = recording;
    if !are_short(log.threads.as_slice()) {
        return Err(CloseFault::TooLong);
    }
    let script = print(alloc, &script)?;
    let log = encode_v2(alloc, &log, &digest(script.as_slice()))?;
    let Outcome { heap, .. } = outcome;
    Ok(Kept {
        script,
        log,
        values: heap,
    })
}

/// Ends the run. Every thread of the heap is handed in, in order, off or blocked; else there is no record, and the threads
/// are gone.
pub fn close_recorded(alloc: Global, threads: Vec<Recorded>) -> Result<Kept, CloseFault>
    requires { All IsRecorded threads.items }
    ensures as_one { OnOk result (AreAsOne IsRecordedAs threads.items) }
    ensures keeps { IfOk result (λ kept. Any (λ it. KeepsRecording (recorder_of it) kept) threads.items) }
    ensures theirs { IfOk result (λ kept. ShareOne (λ it. arc_value it.heap) threads.items → KeepsThreads threads.items kept) }
    ensures refused { IfErr result (RefusesRecorded threads.items) }
{
    let (heap, notes) = hand_in_all(alloc, threads)?;
    let Heap {
        recorder,
        seals,
        desk,
    } = heap;
    let run = SealedRun { recorder, seals };
    let tracks = tracks_on(alloc, &run, desk, notes)?;
    let recording = run.recorder.close(alloc, tracks)?;
    kept_of(alloc, recording)
}
