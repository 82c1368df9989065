//! The recorder and its tracks at first.
ghost use Rattle.std.specs.Prelude.{◌≡◌, length, IfOk};
ghost use Rattle.octet_heap.specs.Seated as seated;
ghost use Rattle.octet_recorder.specs.Tracks.{threads_in, IsNew, EachNew};

use crate::recorder::Recorder;
use crate::track::Track;
use octet_heap::{Heap, Worker};
use octet_model::{List, OutOfMemory, Script};
use std::alloc::Global;

impl Recorder {
    /// The objects of a script with their starting values, and one track for each of its threads, in
    /// order, which is off. What the threads are to do by that script is of no account. Reserves all
    /// the room that a run needs: for each thread, a line and a value read for each unit of the script's
    /// fuel, and fifteen marks.
    pub fn new(alloc: Global, opening: Script) -> Result<(Recorder, List<Track>), OutOfMemory>
        ensures opening { IfOk result (λ new. new.0.opening ≡ opening) }
        ensures tracks { IfOk result (λ new. (length new.1 ≡ threads_in new.0) × EachNew new.0 new.1) }
    {
        let (heap, workers) = Heap::new(alloc, &opening)?;
        let recorder = Recorder { heap, opening };
        let tracks = recorder.tracks(alloc, workers.into_vec())?;
        Ok((recorder, List::from_vec(tracks)))
    }

    // With room for all lines that it may note.
    fn track(&self, alloc: Global, thread: u8, worker: Worker) -> Result<Track, OutOfMemory>
        requires new { seated.IsNew self.now.heap thread worker }
        ensures { IfOk result (λ track. IsNew self.now thread track) }
    {
        Ok(Track {
            worker,
            begun: None,
            commands: Vec::with_capacity(alloc, self.opening.fuel as usize)?,
            region: false,
        })
    }

    // A track for each worker.
    fn tracks(&self, alloc: Global, workers: Vec<Worker>) -> Result<Vec<Track>, OutOfMemory>
        requires as_many { length workers.items ≡ threads_in self.now }
        requires new { seated.EachNew self.now.heap workers.items }
        ensures as_many { IfOk result (λ tracks. length tracks.items ≡ length workers.items) }
        ensures new { IfOk result (λ tracks. EachNew self.now tracks.items) }
    {
        let mut tracks = Vec::new(alloc);
        let mut thread = 0;
        for worker in workers {
            tracks.push(self.track(alloc, thread, worker)?)?;
            thread += 1;
        }
        Ok(tracks)
    }
}
