//! The threads of a new heap.
ghost use Rattle.std.specs.Prelude.{◌≡◌, All, length, IfOk, IfErr};
ghost use Rattle.std.specs.Arc.{arc_value};
ghost use Rattle.octet_recorder.specs.Tracks.{objects_in, threads_in, lines_in, number_of, IsTrackOf, EachNew};
ghost use Rattle.octet_script.specs.Spelling.{Spells};
ghost use Rattle.octet_session.specs.Recording.{track_standing, TrackRests};
ghost use Rattle.octet_host_script.specs.Opened.{EachFirst, IsFirst, IsFirstOf, Opens};
ghost use Rattle.octet_host_script.specs.Refusals.{RefusesToOpen};
ghost use Rattle.octet_host_script.specs.Threads.{IsRecorded};

use crate::fault::OpenFault;
use crate::recorded::{CACHE_PADDING, Heap, Recorded, SealedRun};
use octet_host::{Stage, places, seals};
use octet_model::{MAX_SCRIPT_FILE, OutOfMemory, Script};
use octet_recorder::{Recorder, Track};
use octet_script::parse;
use std::alloc::Global;
use std::sync::Arc;

/// How many objects a script has.
#[tactic(auto, using(octet_model::proofs::lemmas::Validity::valid_script))]
pub(crate) fn objects_of(script: &Script) -> u16
    ensures { result ≡ length script.now.objects }
{
    script.objects.len() as u16
}

// What the threads of a recorder share.
fn shared(
    alloc: Global,
    recorder: Recorder,
    threads: usize,
) -> Result<Arc<Heap, Global>, OutOfMemory>
    requires { threads ≡ threads_in recorder }
    ensures { IfOk result (λ heap. (arc_value heap).recorder ≡ recorder) }
{
    let run = SealedRun {
        recorder,
        seals: seals(alloc, threads)?,
    };
    let desk = places(alloc, threads, &run)?;
    let SealedRun { recorder, seals } = run;
    let heap = Heap {
        recorder,
        seals,
        desk,
    };
    match Arc::new(alloc, heap) {
        Ok(heap) => Ok(heap),
        Err(_) => Err(OutOfMemory),
    }
}

// The thread of a track, which is off.
fn seat(heap: &Arc<Heap, Global>, objects: u16, track: Track) -> Result<Recorded, OutOfMemory>
    requires own { IsTrackOf (arc_value heap.now).recorder track }
    requires off { TrackRests track }
    requires first { IsFirst (number_of track) (lines_in (arc_value heap.now).recorder) (track_standing (arc_value heap.now).recorder track) }
    requires objects { objects ≡ objects_in (arc_value heap.now).recorder }
    ensures good { IfOk result IsRecorded }
    ensures first { IfOk result (IsFirstOf (arc_value heap.now).recorder (number_of track)) }
    ensures share { IfOk result (λ it. arc_value it.heap ≡ arc_value heap.now) }
{
    Ok(Recorded {
        heap: Arc::try_clone(heap)?,
        track,
        stage: Stage::Resting,
        objects,
        padding: [0; CACHE_PADDING],
    })
}

// A thread for each track.
fn seat_all(
    alloc: Global,
    heap: &Arc<Heap, Global>,
    objects: u16,
    tracks: Vec<Track>,
) -> Result<Vec<Recorded>, OutOfMemory>
    requires new { EachNew (arc_value heap.now).recorder tracks.items }
    requires objects { objects ≡ objects_in (arc_value heap.now).recorder }
    ensures count { IfOk result (λ threads. length threads.items ≡ length tracks.items) }
    ensures good { IfOk result (λ threads. All IsRecorded threads.items) }
    ensures first { IfOk result (λ threads. EachFirst (arc_value heap.now).recorder threads.items) }
    ensures share { IfOk result (λ threads. All (λ it. arc_value it.heap ≡ arc_value heap.now) threads.items) }
{
    let mut threads = Vec::new(alloc);
    for track in tracks {
        threads.push(seat(heap, objects, track)?)?;
    }
    Ok(threads)
}

/// The script by which a text declares a heap.
pub fn declared(alloc: Global, text: &[u8]) -> Result<Script, OpenFault>
    ensures spelled { IfOk result (λ script. Spells text.now script) }
    ensures refused { IfErr result (RefusesToOpen text.now) }
{
    if text.len() > MAX_SCRIPT_FILE as usize {
        return Err(OpenFault::BadText);
    }
    Ok(parse(alloc, text)?)
}

/// The threads of a heap as the text declares it, off: its `fuel`, its objects with their starting values, and a thread
/// for each of its threads, whose commands are left aside.
pub fn open(alloc: Global, text: &[u8]) -> Result<Vec<Recorded>, OpenFault>
    ensures good { IfOk result (λ threads. All IsRecorded threads.items) }
    ensures opens { IfOk result (λ threads. Opens text.now threads.items) }
    ensures refused { IfErr result (RefusesToOpen text.now) }
{
    let script = declared(alloc, text)?;
    let objects = objects_of(&script);
    let (recorder, tracks) = Recorder::new(alloc, script)?;
    let tracks = tracks.into_vec();
    let heap = shared(alloc, recorder, tracks.len())?;
    Ok(seat_all(alloc, &heap, objects, tracks)?)
}
