//! What a run leaves, once all its threads are still.
ghost use Rattle.std.specs.Prelude.{◌≡◌, length, IfOk};
ghost use Rattle.octet_model.specs.Orders.{IsFaithful};
ghost use Rattle.octet_recorder.specs.Tracks.{threads_in, EachRests};
ghost use Rattle.octet_recorder.specs.Recordings.{workers_in, programs_in, ends_in, IsRecordingOf};

use crate::recorder::Recorder;
use crate::recording::Recording;
use crate::track::Track;
use octet_heap::{Closed, Worker};
use octet_model::{Command, End, List, Log, OutOfMemory, Outcome, Script};
use std::alloc::Global;

// The workers, the programs and the ends of all tracks.
fn all_parts(
    alloc: Global,
    tracks: Vec<Track>,
) -> Result<(List<Worker>, List<List<Command>>, List<End>), OutOfMemory>
    ensures workers { IfOk result (λ parts. parts.0 ≡ workers_in tracks.items) }
    ensures programs { IfOk result (λ parts. parts.1 ≡ programs_in tracks.items) }
    ensures ends { IfOk result (λ parts. parts.2 ≡ ends_in tracks.items) }
{
    let mut workers = List::new(alloc);
    let mut programs = List::new(alloc);
    let mut ends = List::new(alloc);
    for track in tracks {
        workers.push(track.worker)?;
        programs.push(List::from_vec(track.commands))?;
        ends.push(End::Done)?;
    }
    Ok((workers, programs, ends))
}

impl Recorder {
    /// Ends the run, and answers it as a script with its log and its outcome, which are a faithful
    /// recording. Every track of the recorder is handed in, in order, off or blocked. Refused only
    /// where memory is.
    pub fn close(self, alloc: Global, tracks: List<Track>) -> Result<Recording, OutOfMemory>
        requires all { length tracks ≡ threads_in self }
        requires still { EachRests self tracks }
        ensures faithful { IfOk result (λ r. IsFaithful r.script r.log.threads r.outcome) }
        ensures of { IfOk result (IsRecordingOf self.opening tracks) }
    {
        let Recorder { heap, opening } = self;
        let (workers, threads, ends) = all_parts(alloc, tracks.into_vec())?;
        let Closed { logs, reads, heap } = heap.close(alloc, workers)?;
        let log = Log { threads: logs };
        let Script { fuel, objects, .. } = opening;
        let script = Script {
            fuel,
            objects,
            threads,
        };
        let outcome = Outcome { ends, reads, heap };
        Ok(Recording {
            script,
            log,
            outcome,
        })
    }
}
