//! What a long run leaves, once all its threads are still.
ghost use Rattle.std.specs.Prelude.{◌≡◌, length, map, IfOk};
ghost use Rattle.octet_heap.specs.Models.{heap_model};
ghost use Rattle.octet_stream.specs.Recordings.{IsRecorded};
ghost use Rattle.octet_stream.specs.Runs.{journals_of, EachRests};

use crate::long_run::LongRun;
use crate::track::Track;
use octet_heap::Marker;
use octet_model::{List, OutOfMemory};
use std::alloc::Global;

// The markers of all tracks.
fn all_markers(alloc: Global, tracks: Vec<Track>) -> Result<List<Marker>, OutOfMemory>
    ensures { IfOk result (λ markers. markers ≡ map (λ track. track.marker) tracks.items) }
{
    let mut markers = List::new(alloc);
    for track in tracks {
        markers.push(track.marker)?;
    }
    Ok(markers)
}

impl LongRun {
    /// Ends the run, and answers the objects' final values. With the log of what the tracks have made they are a faithful
    /// recording. Every track of the run is handed in, in order, off or blocked. Refused only where memory is.
    pub fn close(self, alloc: Global, tracks: List<Track>) -> Result<List<u64>, OutOfMemory>
        requires all { length tracks ≡ (heap_model self.heap).threads }
        requires still { EachRests self tracks }
        ensures { IfOk result (λ values. IsRecorded (heap_model self.heap).starts (journals_of tracks) values) }
    {
        let LongRun { heap, .. } = self;
        heap.close_markers(alloc, all_markers(alloc, tracks.into_vec())?)
    }
}
