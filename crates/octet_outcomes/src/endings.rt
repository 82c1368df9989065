//! The ways to the final heaps of a script's runs.
ghost use Rattle.std.specs.Prelude.{◌≡◌, ◌<◌, ◌≤◌, ◌↔◌, ◌++◌, ◌∷◌, [], true, length, get_or, map, IfOk, OnOk};
ghost use Rattle.std.specs.List.{All};
ghost use Rattle.std.specs.List.Sorted.{IsPermutation};
ghost use Rattle.octet_outcomes.specs.Endings.{AreEnds, IsEnding, heap_at, heap_of, IsEnd};
ghost use Rattle.octet_outcomes.specs.Moments.{no_moment, AllDone};
ghost use Rattle.octet_outcomes.specs.Runs.{AreAllOutcomes};
ghost use Rattle.octet_outcomes.specs.Searches.{IsSearched};

use crate::rows::Rows;
use crate::search::Searched;
use octet_model::{List, OutOfMemory, Script};
use std::alloc::Global;
use std::cmp::Ordering;

/// A final heap of a run whose threads are all done, and a way to it.
#[derive(Debug, Drop)]
pub struct Ending {
    pub heap: List<u64>,
    /// The thread of each access, in order.
    pub picks: List<u8>,
}

/// Whether all threads are done in a moment.
pub(crate) fn are_done(script: &Script, found: &Searched, place: usize) -> bool
    requires searched { IsSearched script.now found.now }
    requires there { place < length found.now.moments.moments }
    ensures { result ≡ true ↔ AllDone script.now (get_or found.now.moments.moments place no_moment) }
{
    for thread in 0..found.guides.len() {
        let stand = found.moments.stand(place, thread);
        if !found.guides[thread].is_done(&stand) {
            return false;
        }
    }
    true
}

// Notes the place of a heap that is the newest of so many.
fn note_first(places: &mut Vec<usize>, many: usize, place: usize) -> Result<(), OutOfMemory>
    ensures same { many ≤ length places.old.items → OnOk result (places.new.items ≡ places.old.items) }
    ensures more { length places.old.items < many → OnOk result (places.new.items ≡ places.old.items ++ place ∷ []) }
{
    if many > places.len() {
        places.push(place)?;
    }
    Ok(())
}

// The first places at which each final heap is found.
fn final_places(alloc: Global, script: &Script, found: &Searched) -> Result<Vec<usize>, OutOfMemory>
    requires { IsSearched script.now found.now }
    ensures { IfOk result (λ places. AreEnds script.now found.now.moments.moments (length found.now.moments.moments) places.items) }
{
    let mut heaps = Rows::new(alloc, found.moments.objects())?;
    let mut places = Vec::new(alloc);
    for place in 0..found.moments.len() {
        if are_done(script, found, place) {
            let _row = heaps.add(found.moments.heap(place))?;
            heaps.widen(alloc)?;
            note_first(&mut places, heaps.len(), place)?;
        }
    }
    Ok(places)
}

// The ending at a place.
fn ending_at(
    alloc: Global,
    script: &Script,
    found: &Searched,
    place: usize,
) -> Result<Ending, OutOfMemory>
    requires searched { IsSearched script.now found.now }
    requires there { IsEnd script.now found.now.moments.moments place }
    ensures is { IfOk result (IsEnding script.now) }
    ensures heap { IfOk result (λ ending. ending.heap ≡ heap_at found.now.moments.moments place) }
{
    let heap = Vec::from_slice(alloc, found.moments.heap(place))?;
    Ok(Ending {
        heap: List::from_vec(heap),
        picks: found.picks_to(alloc, script, place)?,
    })
}

// The endings at these places.
fn endings_at(
    alloc: Global,
    script: &Script,
    found: &Searched,
    places: &[usize],
) -> Result<Vec<Ending>, OutOfMemory>
    requires searched { IsSearched script.now found.now }
    requires there { All (IsEnd script.now found.now.moments.moments) places.now }
    ensures each { IfOk result (λ endings. All (IsEnding script.now) endings.items) }
    ensures heaps { IfOk result (λ endings. map heap_of endings.items ≡ map (heap_at found.now.moments.moments) places.now) }
{
    let mut endings = Vec::new(alloc);
    for place in places {
        endings.push(ending_at(alloc, script, found, *place)?)?;
    }
    Ok(endings)
}

fn by_heap(ending: &Ending, other: &Ending) -> Ordering {
    ending.heap.as_slice().cmp(other.heap.as_slice())
}

// The same, in the order of their heaps.
fn in_order(endings: Vec<Ending>) -> Vec<Ending>
    ensures { IsPermutation endings.items result.items }
{
    let mut ordered = endings;
    ordered.sort_unstable_by(|ending, other| by_heap(ending, other));
    ordered
}

/// An ending for each final heap of the moments that were found, in the order of these heaps.
pub(crate) fn endings_of(
    alloc: Global,
    script: &Script,
    found: &Searched,
) -> Result<List<Ending>, OutOfMemory>
    requires { IsSearched script.now found.now }
    ensures each { IfOk result (λ endings. All (IsEnding script.now) endings) }
    ensures all { IfOk result (λ endings. length found.now.moments.moments ≤ length found.now.edges.rows → AreAllOutcomes script.now (map heap_of endings)) }
{
    let places = final_places(alloc, script, found)?;
    let endings = endings_at(alloc, script, found, &places)?;
    Ok(List::from_vec(in_order(endings)))
}
