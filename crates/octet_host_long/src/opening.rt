//! The threads of a new run of any length, with their streams.
ghost use Rattle.std.specs.Prelude.{◌≡◌, ◌<◌, ◌≤◌, All, length, map, IfOk};
ghost use Rattle.std.specs.Arc.{arc_value};
ghost use Rattle.rtrb.specs.Ring.{received};
ghost use Rattle.octet_model.specs.declared.limits.TheConstants.{MAX_THREADS};
ghost use Rattle.octet_rule.specs.declared.limits.TheConstants.{MAX_OBJECTS_OF_HEAP};
ghost use Rattle.octet_heap.specs.Models.{heap_model};
ghost use Rattle.octet_host_long.specs.Opened.{IsSeat, IsOutlet, Opens};
ghost use Rattle.octet_host_long.specs.Threads.{IsLongRecorded};

use crate::outlet::Outlet;
use crate::recorded::{CACHE_PADDING, LongHeap, LongRecorded, SealedRun};
use octet_host::{Stage, places, seals};
use octet_model::{List, OutOfMemory};
use octet_stream::{LongRun, Receiver, Room, Track};
use std::alloc::Global;
use std::sync::Arc;

/// How long blocks are, and how many of them a thread may have made before they are taken.
pub const ROOM: Room = Room {
    marks: 256,
    accesses: 65_536,
    blocks: 16,
};

// What the threads of a run share.
fn shared(alloc: Global, run: LongRun, threads: usize) -> Result<Arc<LongHeap, Global>, OutOfMemory>
    requires { threads ≡ (heap_model run.heap).threads }
    ensures { IfOk result (λ heap. (arc_value heap).run ≡ run) }
{
    let sealed = SealedRun {
        run,
        seals: seals(alloc, threads)?,
    };
    let desk = places(alloc, threads, &sealed)?;
    let SealedRun { run, seals } = sealed;
    match Arc::new(alloc, LongHeap { run, seals, desk }) {
        Ok(heap) => Ok(heap),
        Err(_) => Err(OutOfMemory),
    }
}

// The thread of a track, which is off.
fn seat(
    heap: &Arc<LongHeap, Global>,
    objects: u16,
    track: Track,
) -> Result<LongRecorded, OutOfMemory>
    ensures seat { IfOk result (IsSeat (arc_value heap.now).run objects) }
    ensures track { IfOk result (λ it. it.track ≡ track) }
    ensures share { IfOk result (λ it. arc_value it.heap ≡ arc_value heap.now) }
{
    Ok(LongRecorded {
        heap: Arc::try_clone(heap)?,
        track,
        stage: Stage::Resting,
        objects,
        padding: [0; CACHE_PADDING],
    })
}

// A thread for each track.
fn seat_all(
    alloc: Global,
    heap: &Arc<LongHeap, Global>,
    objects: u16,
    tracks: Vec<Track>,
) -> Result<Vec<LongRecorded>, OutOfMemory>
    ensures seats { IfOk result (λ threads. All (IsSeat (arc_value heap.now).run objects) threads.items) }
    ensures tracks { IfOk result (λ threads. map (λ it. it.track) threads.items ≡ tracks.items) }
    ensures share { IfOk result (λ threads. All (λ it. arc_value it.heap ≡ arc_value heap.now) threads.items) }
{
    let mut threads = Vec::new(alloc);
    for track in tracks {
        threads.push(seat(heap, objects, track)?)?;
    }
    Ok(threads)
}

// A stream for each receiver.
fn outlets_of(alloc: Global, receivers: Vec<Receiver>) -> Result<Vec<Outlet>, OutOfMemory>
    ensures each { IfOk result (λ outlets. All IsOutlet outlets.items) }
    ensures receivers { IfOk result (λ outlets. map (λ outlet. outlet.writer.receiver) outlets.items ≡ receivers.items) }
{
    let mut outlets = Vec::new(alloc);
    for receiver in receivers {
        outlets.push(Outlet::new(alloc, receiver))?;
    }
    Ok(outlets)
}

/// The threads of a new run, off, over objects with these starting values, and the stream of each. Refused only where
/// memory is.
pub fn open(
    alloc: Global,
    threads: u8,
    starts: &[u64],
) -> Result<(Vec<LongRecorded>, Vec<Outlet>), OutOfMemory>
    requires threads { (0 < threads) × (threads ≤ MAX_THREADS) }
    requires objects { length starts.now ≤ MAX_OBJECTS_OF_HEAP }
    ensures good { IfOk result (λ opened. All IsLongRecorded opened.0.items) }
    ensures opens { IfOk result (λ opened. Opens threads starts.now opened.0.items opened.1.items) }
{
    let values = List::from_vec(Vec::from_slice(alloc, starts)?);
    let (run, tracks, receivers) = LongRun::new(alloc, threads, &values, ROOM)?;
    let heap = shared(alloc, run, usize::from(threads))?;
    let sessions = seat_all(alloc, &heap, starts.len() as u16, tracks.into_vec())?;
    let outlets = outlets_of(alloc, receivers.into_vec())?;
    Ok((sessions, outlets))
}
