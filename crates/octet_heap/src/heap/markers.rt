//! The heap and its markers at first, and what a run of markers leaves.
ghost use Rattle.std.specs.Prelude.{◌≡◌, ◌<◌, ◌≤◌, length, IfOk};
ghost use Rattle.octet_model.specs.declared.limits.TheConstants.{MAX_THREADS};
ghost use Rattle.octet_rule.specs.declared.limits.TheConstants.{MAX_OBJECTS_OF_HEAP};
ghost use Rattle.octet_rule.specs.Seats.{threads_of, starts_of, EachFresh, Closes};
ghost use Rattle.octet_heap.specs.Builders.{IsExplained};
ghost use Rattle.octet_heap.specs.Models.{heap_model, marker_journals};
ghost use Rattle.octet_heap.specs.Markers.{marker_seats, ArePlain, EachNew, EachStarts, EachRests};

use crate::heap::Heap;
use crate::marker::Marker;
use octet_model::{List, OutOfMemory};
use octet_rule::{Seat, Words};
use std::alloc::Global;

impl Heap {
    /// Objects with these starting values, and one marker for each of so many threads, in order, which
    /// is off and has room for so many marks. Fifteen are the least that serve.
    pub fn for_markers(
        alloc: Global,
        threads: u8,
        starts: &List<u64>,
        marks: usize,
    ) -> Result<(Heap, List<Marker>), OutOfMemory>
        requires threads { (0 < threads) × (threads ≤ MAX_THREADS) }
        requires objects { length starts.now ≤ MAX_OBJECTS_OF_HEAP }
        ensures model { IfOk result (λ new. heap_model new.0 ≡ record { threads = threads; objects = length starts.now; starts = starts.now; fuel = 0 }) }
        ensures threads { IfOk result (λ new. (length new.1 ≡ threads) × EachStarts new.0 new.1) }
        // In the words of seats:
        ensures heap { IfOk result (λ new. (threads_of new.0.words ≡ threads) × (starts_of new.0.words ≡ starts.now)) }
        ensures markers { IfOk result (λ new. (length new.1 ≡ threads) × EachNew new.0 marks new.1) }
    {
        let (words, seats) = Words::new(alloc, threads, starts)?;
        let heap = Heap {
            words,
            threads,
            fuel: 0,
        };
        let markers = heap.mark_all(alloc, seats.into_vec(), marks)?;
        Ok((heap, List::from_vec(markers)))
    }

    /// Ends a run of markers, and answers the objects' final values. Every marker of the heap is handed
    /// in, in order, off or blocked. Refused only where memory is.
    pub fn close_markers(
        self,
        alloc: Global,
        markers: List<Marker>,
    ) -> Result<List<u64>, OutOfMemory>
        requires all { length markers ≡ (heap_model self).threads }
        requires still { EachRests self markers }
        ensures values { IfOk result (λ values. IsExplained (heap_model self).starts (marker_journals markers) values) }
        // In the words of seats:
        ensures cells { IfOk result (λ values. Closes (starts_of self.words) (marker_seats markers) values) }
    {
        let Heap { words, .. } = self;
        let seats = all_seats(alloc, markers.into_vec())?;
        words.close(alloc, List::from_vec(seats))
    }

    // A marker for each seat.
    fn mark_all(
        &self,
        alloc: Global,
        seats: Vec<Seat>,
        marks: usize,
    ) -> Result<Vec<Marker>, OutOfMemory>
        requires fresh { EachFresh self.now.words seats.items }
        ensures seats { IfOk result (λ markers. marker_seats markers.items ≡ seats.items) }
        ensures plain { IfOk result (λ markers. ArePlain marks markers.items) }
    {
        let mut markers = Vec::new(alloc);
        for seat in seats {
            markers.push(Marker::new(alloc, seat, marks)?)?;
        }
        Ok(markers)
    }
}

// The seats of all markers.
fn all_seats(alloc: Global, markers: Vec<Marker>) -> Result<Vec<Seat>, OutOfMemory>
    ensures { IfOk result (λ seats. seats.items ≡ marker_seats markers.items) }
{
    let mut seats = Vec::new(alloc);
    for marker in markers {
        let Marker { recorder, .. } = marker;
        seats.push(recorder.seat)?;
    }
    Ok(seats)
}
