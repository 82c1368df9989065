//! What a recorded run of any length leaves, once all its threads are handed back.
ghost use Rattle.std.specs.Prelude.{◌≡◌, ◌⊎◌, All, Any, length, IfOk, IfErr, OnOk};
ghost use Rattle.std.specs.Arc.{arc_value};
ghost use Rattle.octet_heap.specs.Markers.{Rests};
ghost use Rattle.octet_stream.specs.Runs.{EachRests};
ghost use Rattle.octet_stream.specs.Tracks.{number_of, IsTrackOf};
ghost use Rattle.octet_host.specs.declared.fault.CloseFault.TheVariants.{OutOfMemory as MemoryRefused, TwoRuns as OfTwoRuns};
ghost use Rattle.octet_host.specs.HandedBack.{AreAsOne};
ghost use Rattle.octet_host.specs.Sealed.{IsSealed, AreFound, ShareOne};
ghost use Rattle.octet_host_long.specs.Closed.{IsClosedRecording};
ghost use Rattle.octet_host_long.specs.HandedBack.{IsRecordedAt, IsRecordedAmong, IsRecordedAs, RefusesRecorded};
ghost use Rattle.octet_host_long.specs.Theirs.{RecordsThreads};
ghost use Rattle.octet_host_long.specs.Threads.{run_of, IsLongRecorded};

use crate::recorded::{
    LeftTrack, LongHeap, LongRecorded, NotedTrack, Place, SealedRun, SealedTrack, TrackNote,
};
use octet_host::{CloseFault, HandIn, Left, Stage, agree, hand_in_all, lay, seal};
use octet_model::List;
use octet_stream::Track;
use std::alloc::Global;
use std::sync::Arc;

impl LongHeap {
    // Lays a track down, if its place is there and free.
    fn lay(&self, number: usize, left: Left<NotedTrack>)
        requires own { IsTrackOf self.now.run left.loose.value.track }
        requires rests { Rests left.loose.value.track.marker }
        requires sealed { IsSealed self.now.seals.items (number_of left.loose.value.track) left.loose.value.track left.loose.value.note }
    {
        if let Some(place) = self.desk.get(number) {
            lay(place, LeftTrack { left });
        }
    }
}

impl HandIn for LongRecorded {
    type Shared = LongHeap;

    type Note = TrackNote;

    ghost IsGood = { IsLongRecorded };

    ghost stage = { λ it. it.stage };

    ghost shared = { λ it. arc_value it.heap };

    ghost IsAt = { IsRecordedAt };

    ghost IsAmong = { IsRecordedAmong };

    ghost IsNotWhole = { λ _. ⊥ };

    ghost IsTooLong = { λ _. ⊥ };

    ghost IsNoted = { λ number it note. IsSealed (arc_value it.heap).seals.items number it.track note };

    fn hand_in(
        self,
        alloc: Global,
        number: usize,
        threads: usize,
    ) -> Result<(Option<LongHeap>, TrackNote), CloseFault> {
        let LongRecorded {
            heap,
            track,
            stage,
            ..
        } = self;
        let (Stage::Resting | Stage::Ended) = stage else {
            return Err(CloseFault::StillRunning);
        };
        if heap.desk.len() != threads {
            return Err(CloseFault::OtherSessions);
        }
        if track.thread() as usize != number {
            return Err(CloseFault::OutOfOrder);
        }
        let mut note = seal(alloc, heap.seals.as_slice(), number, SealedTrack, &track)?;
        let noted = NotedTrack {
            track,
            note: note.again(),
        };
        let left = Left::new(alloc, noted)?;
        heap.lay(number, left);
        Ok((Arc::into_inner(heap), note))
    }
}

// The tracks that lie on the desk of a run, in order: those of which these are the notes.
fn tracks_on(
    alloc: Global,
    sealed: &SealedRun,
    desk: Vec<Place>,
    notes: Vec<TrackNote>,
) -> Result<List<Track>, CloseFault>
    requires tags { All (λ tag. tag ≡ sealed.now) desk.items }
    ensures all { IfOk result (λ tracks. length tracks ≡ length desk.items) }
    ensures rest { IfOk result (EachRests sealed.now.run) }
    ensures found { IfOk result (AreFound (λ it. it) sealed.now.seals.items notes.items) }
    ensures refused { IfErr result (λ fault. (fault ≡ MemoryRefused) ⊎ (fault ≡ OfTwoRuns)) }
{
    let mut tracks = List::new(alloc);
    let mut noted = notes.into_iter();
    for place in desk {
        let Some(left) = place.into_inner() else {
            return Err(CloseFault::TwoRuns);
        };
        let Some(mut mine) = noted.next() else {
            return Err(CloseFault::TwoRuns);
        };
        let NotedTrack { track, mut note } = left.left.into_inner();
        if track.thread() as usize != tracks.len() {
            return Err(CloseFault::TwoRuns);
        }
        agree(&mut mine, &mut note);
        tracks.push(track)?;
    }
    Ok(tracks)
}

/// Ends a recorded run, and answers the objects' final values. Every thread of it is handed in, in order, off, blocked or
/// ended; else the threads are gone.
pub fn close_recorded(alloc: Global, threads: Vec<LongRecorded>) -> Result<List<u64>, CloseFault>
    requires { All IsLongRecorded threads.items }
    ensures as_one { OnOk result (AreAsOne IsRecordedAs threads.items) }
    ensures closed { IfOk result (λ values. Any (λ it. IsClosedRecording (run_of it) values) threads.items) }
    ensures theirs { IfOk result (λ values. ShareOne (λ it. arc_value it.heap) threads.items → RecordsThreads threads.items values) }
    ensures refused { IfErr result (RefusesRecorded threads.items) }
{
    let (heap, notes) = hand_in_all(alloc, threads)?;
    let LongHeap { run, seals, desk } = heap;
    let sealed = SealedRun { run, seals };
    let tracks = tracks_on(alloc, &sealed, desk, notes)?;
    Ok(sealed.run.close(alloc, tracks)?)
}
