//! What a run leaves, once all its threads are still.
ghost use Rattle.std.specs.Prelude.{◌≡◌, length, map, IfOk};
ghost use Rattle.octet_model.specs.Journals.{log_of, log_of_journal};
ghost use Rattle.octet_model.specs.Orders.{values_read};
ghost use Rattle.octet_heap.specs.Builders.{IsRecordOf};
ghost use Rattle.octet_heap.specs.Models.{heap_model, worker_journals};
ghost use Rattle.octet_heap.specs.Workers.{seat_of};
ghost use Rattle.octet_heap.specs.Seated.{seats_in, journals_of, EachRests};
ghost use Rattle.octet_heap.specs.Closings.{IsClosed};

use crate::closed::Closed;
use crate::heap::Heap;
use crate::worker::Worker;
use octet_model::{List, OutOfMemory, ThreadLog};
use octet_rule::Seat;
use std::alloc::Global;

// A worker's seat, its log, and the values that it has read.
fn parts(worker: Worker) -> (Seat, ThreadLog, List<u64>)
    ensures seat { result.0 ≡ worker.recorder.seat }
    ensures log { result.1 ≡ log_of_journal (seat_of worker).journal }
    ensures reads { result.2 ≡ values_read (seat_of worker).journal }
{
    let Worker {
        recorder,
        reads,
        ..
    } = worker;
    let log = recorder.log;
    let thread_log = ThreadLog {
        accesses: log.accesses as u32,
        marks: List::from_vec(log.marks),
    };
    (recorder.seat, thread_log, List::from_vec(reads))
}

// Those of all workers.
fn all_parts(
    alloc: Global,
    workers: Vec<Worker>,
) -> Result<(Vec<Seat>, Vec<ThreadLog>, Vec<List<u64>>), OutOfMemory>
    ensures seats { IfOk result (λ parts. parts.0.items ≡ seats_in workers.items) }
    ensures logs { IfOk result (λ parts. parts.1.items ≡ log_of (journals_of workers.items)) }
    ensures reads { IfOk result (λ parts. parts.2.items ≡ map values_read (journals_of workers.items)) }
{
    let mut seats = Vec::new(alloc);
    let mut logs = Vec::new(alloc);
    let mut all_reads = Vec::new(alloc);
    for worker in workers {
        let (seat, log, reads) = parts(worker);
        seats.push(seat)?;
        logs.push(log)?;
        all_reads.push(reads)?;
    }
    Ok((seats, logs, all_reads))
}

impl Heap {
    /// Ends the run, and answers each thread's log and the values that it read, and the objects'
    /// final values. Every worker of the heap is handed in, in order, off or blocked. Refused only
    /// where memory is.
    pub fn close(self, alloc: Global, workers: List<Worker>) -> Result<Closed, OutOfMemory>
        requires all { length workers ≡ (heap_model self).threads }
        requires still { EachRests self workers }
        ensures record_of { IfOk result (λ closed. IsRecordOf (heap_model self).starts (worker_journals workers) closed) }
        // In the words of seats, and as a recording of a script:
        ensures closed { IfOk result (λ closed. IsClosed self workers closed) }
    {
        let Heap { words, .. } = self;
        let (seats, logs, reads) = all_parts(alloc, workers.into_vec())?;
        let heap = words.close(alloc, List::from_vec(seats))?;
        Ok(Closed {
            logs: List::from_vec(logs),
            reads: List::from_vec(reads),
            heap,
        })
    }
}
