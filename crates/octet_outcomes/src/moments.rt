//! Moments of a run, each kept once, and named by its place.
ghost use Rattle.octet_interp.specs.Demands.{IsPossible};
ghost use Rattle.std.specs.Prelude.{◌≡◌, ℕ, List, true, suc, All, ◌+◌, ◌<◌, ◌≤◌, length, get_or, map, [], ◌∷◌, ◌++◌, Some, None, IfOk, OnErr, OnOk, slice_index, slice_set};
ghost use Rattle.octet_model.specs.declared.limits.TheConstants.{MAX_FUEL};
ghost use Rattle.octet_interp.specs.Standing.{access_at};
ghost use Rattle.octet_outcomes.specs.Ahead.{FindsNext, MayStandAlike};
ghost use Rattle.octet_outcomes.specs.Moments.{heap_after, heap_past, moment_of, no_moment, stand_after, stand_in, start_of, value_given, IsRowOf, Names};

use crate::guide::Guide;
use crate::rows::Rows;
use crate::stands::Stands;
use octet_interp::{Demand, Stand};
use octet_model::OutOfMemory;
use std::alloc::Global;
use std::marker::Model;

/// Moments, in the order in which they came. Where threads stand, and heaps, are kept in sets of
/// their own: of each moment only their numbers are kept.
#[derive(Drop)]
pub(crate) struct Moments {
    stands: Stands,
    heaps: Rows<u64>,
    rows: Rows<u32>,
}

impl Model for Moments {
    ghost use Rattle.std.specs.Prelude.{◌≡◌, ◌-◌, ◌<◌, length, map};
    ghost use Rattle.std.specs.List.{All};
    ghost use Rattle.octet_outcomes.specs.Moments.{moment_of, IsRowOf, MomentsState};

    ghost Value = { MomentsState };

    ghost view = { λ m. record { threads = m.rows.width - 1; objects = m.heaps.width; moments = map (moment_of m.stands m.heaps.rows) m.rows.rows } };

    ghost invariant = { λ m. (0 < m.rows.width) × All (IsRowOf (length m.stands) (length m.heaps.rows)) m.rows.rows };
}

// The value that an access gives its thread.
fn value_given(demand: Demand, heap: &[u64]) -> u64
    requires { IsPossible (length heap.now) demand }
    ensures { result ≡ value_given demand heap.now }
{
    match demand {
        Demand::Read { object } => heap[object as usize],
        _ => 0,
    }
}

// The heap after an access.
fn put_access(demand: Demand, heap: &mut [u64])
    requires { IsPossible (length heap.old) demand }
    ensures { heap.new ≡ heap_past demand heap.old }
{
    match demand {
        Demand::Write { object, value } => heap[object as usize] = value,
        Demand::Bump { object, amount } => {
            heap[object as usize] = heap[object as usize].wrapping_add(amount)
        }
        _ => {}
    }
}

// Makes the access at which a thread stands, if it stands at one, and answers a stand from which it
// goes on alike.
fn access(guide: &Guide, stand: &Stand, heap: &mut [u64], fuel: u32) -> Option<Stand>
    requires objects { guide.now.objects ≡ length heap.old }
    requires some { 0 < fuel }
    requires few { fuel ≤ MAX_FUEL }
    ensures stand { MayStandAlike guide.now.commands fuel (stand_after guide.now.commands fuel stand.now heap.old (access_at guide.now.commands stand.now)) result }
    ensures heap { heap.new ≡ heap_after (access_at guide.now.commands stand.now) heap.old }
{
    let demand = guide.access(stand)?;
    let value = value_given(demand, heap);
    put_access(demand, heap);
    Some(guide.past(stand, value, fuel))
}

fn copy_into<N: Copy>(copy: &mut Vec<N>, numbers: &[N]) -> Result<(), OutOfMemory>
    ensures { OnOk result (copy.new.items ≡ numbers.now) }
{
    copy.clear();
    copy.extend_from_slice(numbers)?;
    Ok(())
}

/// Room for a row and a heap, which is used again.
#[derive(Drop)]
pub(crate) struct Scratch {
    row: Vec<u32>,
    heap: Vec<u64>,
}

impl Scratch {
    pub(crate) fn new(alloc: Global) -> Scratch {
        Scratch {
            row: Vec::new(alloc),
            heap: Vec::new(alloc),
        }
    }
}

// Names the moment in which a thread of a row stands elsewhere, on this heap. Writes over the row.
fn name_moment(
    stands: &mut Stands,
    heaps: &mut Rows<u64>,
    rows: &mut Rows<u32>,
    row: &mut [u32],
    thread: usize,
    stand: Stand,
    heap: &[u64],
) -> Result<u32, OutOfMemory>
    requires named { All (IsRowOf (length stands.old) (length heaps.old.rows)) rows.old.rows }
    requires row { IsRowOf (length stands.old) (length heaps.old.rows) row.old }
    requires width { length row.old ≡ rows.old.width }
    requires thread { suc thread < length row.old }
    requires heap { length heap.now ≡ heaps.old.width }
    ensures named { All (IsRowOf (length stands.new) (length heaps.new.rows)) rows.new.rows }
    ensures width { rows.new.width ≡ rows.old.width }
    ensures objects { heaps.new.width ≡ heaps.old.width }
    ensures same { OnErr result (map (moment_of stands.new heaps.new.rows) rows.new.rows ≡ map (moment_of stands.old heaps.old.rows) rows.old.rows) }
    ensures names { IfOk result (λ place. Names stands.old heaps.old.rows rows.old.rows (record { stands = slice_set (moment_of stands.old heaps.old.rows row.old).stands thread stand; heap = heap.now }) place stands.new heaps.new.rows rows.new.rows) }
{
    let stand_number = stands.add(stand)?;
    let heap_number = heaps.add(heap)?;
    row[0] = heap_number;
    row[thread + 1] = stand_number;
    let place = rows.add(row)?;
    Ok(place)
}

// The row of the moment before the first access.
fn first_row(
    alloc: Global,
    stands: &mut Stands,
    heaps: &mut Rows<u64>,
    guides: &[Guide],
    fuel: u32,
    heap: &[u64],
) -> Result<Vec<u32>, OutOfMemory>
    requires few { fuel ≤ MAX_FUEL }
    requires objects { length heap.now ≡ heaps.old.width }
    ensures objects { heaps.new.width ≡ heaps.old.width }
    ensures row { IfOk result (λ row. IsRowOf (length stands.new) (length heaps.new.rows) row.items) }
    ensures len { IfOk result (λ row. length row.items ≡ suc (length guides.now)) }
    ensures names { IfOk result (λ row. moment_of stands.new heaps.new.rows row.items ≡ record { stands = map (start_of fuel) guides.now; heap = heap.now }) }
{
    let mut row = Vec::new(alloc);
    let heap_number = heaps.add(heap)?;
    row.push(heap_number)?;
    for guide in guides {
        let number = stands.add(guide.start(fuel))?;
        row.push(number)?;
    }
    Ok(row)
}

// A number of a row.
fn number_at(row: &[u32], at: usize) -> usize
    requires { at < length row.now }
    ensures { result ≡ slice_index row.now at }
{
    row[at] as usize
}

impl Moments {
    /// The moment before the first access alone.
    pub(crate) fn begin(
        alloc: Global,
        guides: &[Guide],
        fuel: u32,
        heap: &[u64],
    ) -> Result<Moments, OutOfMemory>
        requires few { fuel ≤ MAX_FUEL }
        ensures { IfOk result (λ moments. moments ≡ record { threads = length guides.now; objects = length heap.now; moments = record { stands = map (start_of fuel) guides.now; heap = heap.now } ∷ [] }) }
    {
        let mut stands = Stands::new(alloc)?;
        let mut heaps = Rows::new(alloc, heap.len())?;
        let row = first_row(alloc, &mut stands, &mut heaps, guides, fuel, heap)?;
        let mut rows = Rows::new(alloc, row.len())?;
        let _place = rows.add(&row)?;
        Ok(Moments {
            stands,
            heaps,
            rows,
        })
    }

    /// How many moments there are.
    pub(crate) fn len(&self) -> usize
        ensures { result ≡ length self.now.moments }
    {
        self.rows.len()
    }

    /// Adds a moment like the one after the next access of a thread, if it stands at one, and answers
    /// its place.
    pub(crate) fn follow(
        &mut self,
        guide: &Guide,
        fuel: u32,
        place: usize,
        thread: usize,
        scratch: &mut Scratch,
    ) -> Result<Option<u32>, OutOfMemory>
        requires there { place < length self.old.moments }
        requires thread { thread < self.old.threads }
        requires objects { guide.now.objects ≡ self.old.objects }
        requires some { 0 < fuel }
        requires few { fuel ≤ MAX_FUEL }
        ensures found { IfOk result (λ found. FindsNext guide.now.commands fuel self.old (get_or self.old.moments place no_moment) thread found self.new) }
        ensures err { OnErr result (self.new ≡ self.old) }
    {
        copy_into(&mut scratch.row, self.rows.row(place))?;
        let stand = self.stands.stand(number_at(&scratch.row, thread + 1));
        copy_into(
            &mut scratch.heap,
            self.heaps.row(number_at(&scratch.row, 0)),
        )?;
        let Some(after) = access(guide, &stand, &mut scratch.heap, fuel) else {
            return Ok(None);
        };
        let found = name_moment(
            &mut self.stands,
            &mut self.heaps,
            &mut self.rows,
            &mut scratch.row,
            thread,
            after,
            &scratch.heap,
        )?;
        Ok(Some(found))
    }

    /// How many objects there are.
    pub(crate) fn objects(&self) -> usize
        ensures { result ≡ self.now.objects }
    {
        self.heaps.width()
    }

    /// Makes room to find the moments by.
    pub(crate) fn widen(&mut self, alloc: Global) -> Result<(), OutOfMemory>
        ensures { self.new ≡ self.old }
    {
        self.stands.widen(alloc)?;
        self.heaps.widen(alloc)?;
        self.rows.widen(alloc)
    }

    /// Where a thread stands in a moment.
    pub(crate) fn stand(&self, place: usize, thread: usize) -> Stand
        requires there { place < length self.now.moments }
        requires thread { thread < self.now.threads }
        ensures { result ≡ stand_in (get_or self.now.moments place no_moment) thread }
    {
        self.stands
            .stand(number_at(self.rows.row(place), thread + 1))
    }

    /// The heap of a moment.
    pub(crate) fn heap(&self, place: usize) -> &[u64]
        requires { place < length self.now.moments }
        ensures heap { result.now ≡ (get_or self.now.moments place no_moment).heap }
        ensures len { length result.now ≡ self.now.objects }
    {
        self.heaps.row(number_at(self.rows.row(place), 0))
    }
}
