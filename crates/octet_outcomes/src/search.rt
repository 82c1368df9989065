//! The search through all moments of a script.
ghost use Rattle.std.specs.Prelude.{◌≡◌, ◌<◌, ◌≤◌, suc, true, false, [], length, get_or, IfOk, IfSome, OnOk};
ghost use Rattle.octet_outcomes.specs.Alone.{IsAlone};
ghost use Rattle.octet_outcomes.specs.Moments.{no_moment, first_moment};
ghost use Rattle.octet_outcomes.specs.Runs.{AreProgramsOf, IsLedTo};
ghost use Rattle.octet_outcomes.specs.Searches.{is_followed, Extends, IsEdge, IsNumberOf, IsSearched, MayBeEdge};

use crate::guide::Guide;
use crate::moments::{Moments, Scratch};
use crate::table::Table;
use crate::tree::Tree;
use octet_model::{List, OutOfMemory, Script};
use std::alloc::Global;

// The programs of the threads of a script.
fn guides_of(alloc: Global, script: &Script) -> Result<Vec<Guide>, OutOfMemory>
    ensures { IfOk result (λ guides. AreProgramsOf script.now guides.items) }
{
    let mut guides = Vec::new(alloc);
    for thread in 0..script.thread_count() {
        guides.push(Guide::new(alloc, script, thread)?)?;
    }
    Ok(guides)
}

// Whether a thread is followed, where one may stand alone.
fn is_followed(only: Option<u8>, thread: u8) -> bool
    ensures { result ≡ is_followed only thread }
{
    match only {
        Some(only) => only == thread,
        None => true,
    }
}

// One more than a place, if there is one, and else 0.
fn edge_of(found: Option<u32>) -> Result<u32, OutOfMemory>
    ensures { IfOk result (IsNumberOf found) }
{
    match found {
        None => Ok(0),
        Some(place) if place < u32::MAX => Ok(place + 1),
        Some(_) => Err(OutOfMemory),
    }
}

/// What a search through the moments of a script found.
#[derive(Drop)]
pub(crate) struct Searched {
    pub(crate) guides: Vec<Guide>,
    pub(crate) moments: Moments,
    pub(crate) tree: Tree,
    /// From each moment that was gone on from, in the order of their places.
    pub(crate) edges: Table<u32>,
}

/// Goes through the moments of a script, in the order in which they are found, until there are
/// more than so many, or memory is refused: then it says so.
pub(crate) fn search(
    alloc: Global,
    script: &Script,
    most: usize,
) -> Result<(Searched, bool), OutOfMemory>
    ensures searched { IfOk result (λ search. IsSearched script.now search.0) }
    ensures whole { IfOk result (λ search. search.1 ≡ false → length search.0.edges.rows < length search.0.moments.moments → most < length search.0.moments.moments) }
{
    let mut found = Searched::begin(alloc, script)?;
    let mut scratch = Scratch::new(alloc);
    let mut row = Vec::new(alloc);
    for place in 0..most {
        if place >= found.moments.len() || found.moments.len() > most {
            break;
        }
        let went_on = found.follow_all(script, place, &mut scratch, &mut row);
        if went_on.is_err() {
            return Ok((found, true));
        }
        if found.moments.widen(alloc).is_err() {
            return Ok((found, true));
        }
    }
    Ok((found, false))
}

impl Searched {
    // The first moment alone.
    fn begin(alloc: Global, script: &Script) -> Result<Searched, OutOfMemory>
        ensures searched { IfOk result (IsSearched script.now) }
        ensures none { IfOk result (λ found. length found.edges.rows ≡ 0) }
    {
        let guides = guides_of(alloc, script)?;
        let heap = script.starting_heap(alloc)?;
        let moments = Moments::begin(alloc, &guides, script.fuel, &heap)?;
        let tree = Tree::new(alloc)?;
        let threads = script.thread_count();
        let edges = Table::new(alloc, threads as usize);
        Ok(Searched {
            guides,
            moments,
            tree,
            edges,
        })
    }

    // Adds what follows from the moment at a place by the access of a thread, and answers its edge.
    fn follow(
        &mut self,
        script: &Script,
        place: usize,
        thread: u8,
        scratch: &mut Scratch,
    ) -> Result<u32, OutOfMemory>
        requires searched { IsSearched script.now self.old }
        requires there { place < length self.old.moments.moments }
        requires thread { thread < length script.now.threads }
        ensures searched { IsSearched script.now self.new }
        ensures more { Extends self.old.moments.moments self.new.moments.moments }
        ensures edges { self.new.edges ≡ self.old.edges }
        ensures edge { IfOk result (IsEdge script.now self.new.moments.moments (get_or self.old.moments.moments place no_moment) thread) }
    {
        self.tree.note(place, thread, self.moments.len())?;
        let found = self.moments.follow(
            &self.guides[thread as usize],
            script.fuel,
            place,
            thread as usize,
            scratch,
        )?;
        edge_of(found)
    }

    // The same of a thread that is followed; another one has no edge.
    fn edge(
        &mut self,
        script: &Script,
        only: Option<u8>,
        place: usize,
        thread: u8,
        scratch: &mut Scratch,
    ) -> Result<u32, OutOfMemory>
        requires searched { IsSearched script.now self.old }
        requires there { place < length self.old.moments.moments }
        requires thread { thread < length script.now.threads }
        ensures searched { IsSearched script.now self.new }
        ensures more { Extends self.old.moments.moments self.new.moments.moments }
        ensures edges { self.new.edges ≡ self.old.edges }
        ensures edge { IfOk result (MayBeEdge script.now self.new.moments.moments (get_or self.old.moments.moments place no_moment) only thread) }
    {
        if is_followed(only, thread) {
            return self.follow(script, place, thread, scratch);
        }
        Ok(0)
    }

    // Whether a thread stands at an access that conflicts with none that others may still make.
    fn is_alone(&self, script: &Script, place: usize, thread: u8) -> bool
        requires searched { IsSearched script.now self.now }
        requires there { place < length self.now.moments.moments }
        requires thread { thread < length script.now.threads }
        ensures { result ≡ true → IsAlone script.now (get_or self.now.moments.moments place no_moment) thread }
    {
        let stand = self.moments.stand(place, thread as usize);
        let Some(demand) = self.guides[thread as usize].access(&stand) else {
            return false;
        };
        for other in 0..self.guides.len() {
            let there = self.moments.stand(place, other);
            if other != thread as usize && !self.guides[other].keeps_off(demand, there.place) {
                return false;
            }
        }
        true
    }

    // A thread that stands alone, if there is one.
    fn alone(&self, script: &Script, place: usize) -> Option<u8>
        requires searched { IsSearched script.now self.now }
        requires there { place < length self.now.moments.moments }
        ensures alone { IfSome result (IsAlone script.now (get_or self.now.moments.moments place no_moment)) }
        ensures there { IfSome result (λ thread. thread < length script.now.threads) }
    {
        for thread in 0..script.thread_count() {
            if self.is_alone(script, place, thread) {
                return Some(thread);
            }
        }
        None
    }

    // Adds each moment that follows from the one at a place, or what follows by a thread that stands
    // alone.
    fn follow_all(
        &mut self,
        script: &Script,
        place: usize,
        scratch: &mut Scratch,
        row: &mut Vec<u32>,
    ) -> Result<(), OutOfMemory>
        requires searched { IsSearched script.now self.old }
        requires next { place ≡ length self.old.edges.rows }
        requires there { place < length self.old.moments.moments }
        ensures searched { IsSearched script.now self.new }
        ensures next { OnOk result (length self.new.edges.rows ≡ suc place) }
    {
        let only = self.alone(script, place);
        row.clear();
        for thread in 0..script.thread_count() {
            let edge = self.edge(script, only, place, thread, scratch)?;
            row.push(edge)?;
        }
        self.edges.add(row)?;
        Ok(())
    }

    /// The edge of a thread from the moment at a place: one more than the place of what follows, or 0.
    pub(crate) fn edge_at(&self, place: usize, thread: u8) -> u32
        requires place { place < length self.now.edges.rows }
        requires thread { thread < self.now.edges.width }
        ensures { result ≡ get_or (get_or self.now.edges.rows place []) thread 0 }
    {
        self.edges.row(place)[thread as usize]
    }

    /// The threads whose accesses lead to a moment like the one at a place of a script's search.
    pub(crate) fn picks_to(
        &self,
        alloc: Global,
        script: &Script,
        place: usize,
    ) -> Result<List<u8>, OutOfMemory>
        requires searched { IsSearched script.now self.now }
        requires there { place < length self.now.moments.moments }
        ensures { IfOk result (λ picks. IsLedTo script.now picks (get_or self.now.moments.moments place no_moment)) }
    {
        let mut picks = Vec::new(alloc);
        let mut at = place;
        for _taken in 0..place {
            if at == 0 {
                break;
            }
            let step = self.tree.steps[at];
            picks.push(step.thread)?;
            at = step.from as usize;
        }
        picks.reverse();
        Ok(List::from_vec(picks))
    }
}
