//! A long run at first.
ghost use Rattle.std.specs.Prelude.{◌≡◌, ◌<◌, ◌≤◌, length, IfOk};
ghost use Rattle.octet_model.specs.declared.limits.TheConstants.{MAX_MARKS_BEFORE_ACCESS, MAX_THREADS};
ghost use Rattle.octet_rule.specs.declared.limits.TheConstants.{MAX_OBJECTS_OF_HEAP};
ghost use Rattle.octet_heap.specs.Markers as marker_of;
ghost use Rattle.octet_heap.specs.Models.{heap_model};
ghost use Rattle.octet_stream.specs.Runs.{IsNew, EachNew};

use crate::long_run::LongRun;
use crate::receiver::Receiver;
use crate::track::{Stage, Track};
use octet_digest::Digest;
use octet_heap::{Heap, Marker};
use octet_model::{List, OutOfMemory};
use rtrb::RingBuffer;
use std::alloc::Global;

/// How long blocks are, and for how many of them there is room.
#[derive(Clone, Copy, Debug, PartialEq, Eq)]
pub struct Room {
    /// For how many marks a block has room. Fifteen are the least that serve.
    pub marks: u32,
    /// After how many accesses a block ends, if its marks leave room for so many.
    pub accesses: u32,
    /// For how many whole blocks the ring of a thread has room. One is the least that serves.
    pub blocks: u32,
}

impl LongRun {
    /// Objects with these starting values, and a track for each of so many threads, in order, which is off, with the
    /// receiver of its items. Reserves all the room that a run needs. Refused only where memory is.
    pub fn new(
        alloc: Global,
        threads: u8,
        starts: &List<u64>,
        room: Room,
    ) -> Result<(LongRun, List<Track>, List<Receiver>), OutOfMemory>
        requires threads { (0 < threads) × (threads ≤ MAX_THREADS) }
        requires objects { length starts.now ≤ MAX_OBJECTS_OF_HEAP }
        requires marks { MAX_MARKS_BEFORE_ACCESS ≤ room.marks }
        requires blocks { 0 < room.blocks }
        ensures run { IfOk result (λ new. heap_model new.0.heap ≡ record { threads = threads; objects = length starts.now; starts = starts.now; fuel = 0 }) }
        ensures count { IfOk result (λ new. (length new.1 ≡ threads) × (length new.2 ≡ threads)) }
        ensures ends { IfOk result (λ new. EachNew new.0 new.1 new.2) }
    {
        let (heap, markers) = Heap::for_markers(alloc, threads, starts, room.marks as usize)?;
        let every = room.accesses;
        let run = LongRun { heap, every };
        let (tracks, receivers) = run.tracks(alloc, markers.into_vec(), room)?;
        Ok((run, List::from_vec(tracks), List::from_vec(receivers)))
    }

    // A track and a receiver for each marker.
    fn tracks(
        &self,
        alloc: Global,
        markers: Vec<Marker>,
        room: Room,
    ) -> Result<(Vec<Track>, Vec<Receiver>), OutOfMemory>
        requires new { marker_of.EachNew self.now.heap room.marks markers.items }
        requires few { length markers.items ≤ MAX_THREADS }
        requires marks { MAX_MARKS_BEFORE_ACCESS ≤ room.marks }
        requires blocks { 0 < room.blocks }
        ensures count { IfOk result (λ new. (length new.0.items ≡ length markers.items) × (length new.1.items ≡ length markers.items)) }
        ensures ends { IfOk result (λ new. EachNew self.now new.0.items new.1.items) }
    {
        let mut tracks = Vec::new(alloc);
        let mut receivers = Vec::new(alloc);
        let mut thread = 0;
        for marker in markers {
            let (track, receiver) = self.track(alloc, thread, marker, room)?;
            tracks.push(track)?;
            receivers.push(receiver)?;
            thread += 1;
        }
        Ok((tracks, receivers))
    }

    // The two ends of a ring that has room for whole blocks, each with the end of a thread.
    fn track(
        &self,
        alloc: Global,
        thread: u8,
        marker: Marker,
        room: Room,
    ) -> Result<(Track, Receiver), OutOfMemory>
        requires new { marker_of.IsNew self.now.heap room.marks thread marker }
        requires marks { MAX_MARKS_BEFORE_ACCESS ≤ room.marks }
        requires blocks { 0 < room.blocks }
        ensures { IfOk result (λ new. IsNew self.now thread new.0 new.1) }
    {
        let items = (room.marks as usize + 2) * room.blocks as usize;
        let (sender, end) = RingBuffer::new(alloc, items)?;
        let track = Track {
            marker,
            digest: Digest::new(),
            stage: Stage::Free,
            region: false,
            due: u64::from(self.every),
            sender,
            ended: false,
            backoff: 0,
        };
        Ok((track, Receiver { end, thread }))
    }
}
