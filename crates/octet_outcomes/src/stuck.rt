//! Moments from which no run comes to its end.
ghost use Rattle.std.specs.Prelude.{◌≡◌, ◌<◌, ◌≤◌, suc, true, false, length, get_or, IfOk};
ghost use Rattle.octet_outcomes.specs.Moments.{no_moment, AllDone};
ghost use Rattle.octet_outcomes.specs.Stuck.{left_in, AreApart, AreMarks, IsApart, IsCounted, IsSettled, IsWhole, LeadsToEnd};
ghost use Rattle.octet_outcomes.specs.Searches.{IsSearched};

use crate::endings::are_done;
use crate::search::Searched;
use crate::waiting::Waiting;
use octet_model::{OutOfMemory, Script};
use std::alloc::Global;

// Whether an edge leads from a moment to a marked one.
fn leads_to_marked(script: &Script, found: &Searched, place: usize, marks: &[bool]) -> bool
    requires searched { IsSearched script.now found.now }
    requires marks { AreMarks script.now found.now marks.now }
    requires there { place < length found.now.edges.rows }
    ensures some { result ≡ true → IsWhole found.now → LeadsToEnd script.now (get_or found.now.moments.moments place no_moment) }
    ensures none { result ≡ false → IsApart script.now found.now marks.now place }
{
    for thread in 0..script.thread_count() {
        let edge = found.edge_at(place, thread);
        if edge > 0 && marks[edge as usize - 1] {
            return true;
        }
    }
    false
}

// Marks a moment that is not marked and from which an edge leads to a marked one, and says whether
// it is such a one.
fn look(script: &Script, found: &Searched, place: usize, marks: &mut [bool]) -> bool
    requires searched { IsSearched script.now found.now }
    requires marks { AreMarks script.now found.now marks.old }
    requires there { place < length marks.old }
    ensures marks { AreMarks script.now found.now marks.new }
    ensures fewer { result ≡ true → left_in marks.new < left_in marks.old }
    ensures same { result ≡ false → marks.new ≡ marks.old }
    ensures apart { result ≡ false → get_or marks.old place false ≡ false → IsApart script.now found.now marks.old place }
{
    if marks[place] || !leads_to_marked(script, found, place, marks) {
        return false;
    }
    marks[place] = true;
    true
}

// Looks ahead from a moment. One that is not marked then waits for what is ahead.
fn look_ahead(
    script: &Script,
    found: &Searched,
    place: usize,
    marks: &mut [bool],
    waiting: &mut Waiting,
) -> Result<(), OutOfMemory>
    requires searched { IsSearched script.now found.now }
    requires marks { AreMarks script.now found.now marks.old }
    requires there { place < length marks.old }
    ensures { AreMarks script.now found.now marks.new }
{
    if look(script, found, place, marks) || marks[place] {
        return waiting.call(place);
    }
    for thread in 0..script.thread_count() {
        let edge = found.edge_at(place, thread);
        if edge > 0 {
            waiting.wait(edge as usize - 1, place)?;
        }
    }
    Ok(())
}

// Looks again from each moment that waits for one that is marked now.
fn look_back(
    script: &Script,
    found: &Searched,
    place: usize,
    marks: &mut [bool],
    waiting: &mut Waiting,
) -> Result<(), OutOfMemory>
    requires searched { IsSearched script.now found.now }
    requires marks { AreMarks script.now found.now marks.old }
    ensures { AreMarks script.now found.now marks.new }
{
    let mut number = waiting.first(place);
    for _seen in 0..waiting.len() {
        let Some(wait) = waiting.get(number) else {
            break;
        };
        let before = wait.place as usize;
        if before < marks.len() && look(script, found, before, marks) {
            waiting.call(before)?;
        }
        number = wait.next;
    }
    Ok(())
}

// Goes back from all that were marked, until nothing more is.
fn go_back(
    script: &Script,
    found: &Searched,
    marks: &mut [bool],
    waiting: &mut Waiting,
) -> Result<(), OutOfMemory>
    requires searched { IsSearched script.now found.now }
    requires marks { AreMarks script.now found.now marks.old }
    ensures { AreMarks script.now found.now marks.new }
{
    for _turn in 0..u64::MAX {
        let Some(place) = waiting.next_called() else {
            break;
        };
        look_back(script, found, place, marks, waiting)?;
    }
    Ok(())
}

// Whether a moment is marked at first: all threads are done, or it was not gone on from.
fn is_marked_first(script: &Script, found: &Searched, place: usize) -> bool
    requires searched { IsSearched script.now found.now }
    requires there { place < length found.now.moments.moments }
    ensures leads { result ≡ true → IsWhole found.now → LeadsToEnd script.now (get_or found.now.moments.moments place no_moment) }
    ensures ends { AllDone script.now (get_or found.now.moments.moments place no_moment) → result ≡ true }
    ensures rest { length found.now.edges.rows ≤ place → result ≡ true }
{
    place >= found.edges.len() || are_done(script, found, place)
}

// The first marks.
fn first_marks(alloc: Global, script: &Script, found: &Searched) -> Result<Vec<bool>, OutOfMemory>
    requires { IsSearched script.now found.now }
    ensures { IfOk result (λ marks. AreMarks script.now found.now marks.items) }
{
    let mut marks = Vec::new(alloc);
    for place in 0..found.moments.len() {
        marks.push(is_marked_first(script, found, place))?;
    }
    Ok(marks)
}

// Looks once from each moment, and says whether there are more marks then.
fn add_marks(script: &Script, found: &Searched, marks: &mut [bool]) -> bool
    requires searched { IsSearched script.now found.now }
    requires marks { AreMarks script.now found.now marks.old }
    ensures marks { AreMarks script.now found.now marks.new }
    ensures fewer { result ≡ true → left_in marks.new < left_in marks.old }
    ensures apart { result ≡ false → AreApart script.now found.now marks.new (length marks.new) }
{
    let mut is_more = false;
    for place in 0..marks.len() {
        if look(script, found, place, marks) {
            is_more = true;
        }
    }
    is_more
}

// Looks from all moments until there are no more marks.
fn add_all(script: &Script, found: &Searched, marks: &mut [bool])
    requires searched { IsSearched script.now found.now }
    requires marks { AreMarks script.now found.now marks.old }
    ensures { IsSettled script.now found.now marks.new }
{
    for _round in 0..marks.len() {
        if !add_marks(script, found, marks) {
            return;
        }
    }
}

// Marks moments from which a run can come to its end, as far as memory is given for what waits. The
// later a moment was found the nearer it is to an end, so the last ones come first.
fn mark_most(
    alloc: Global,
    script: &Script,
    found: &Searched,
    marks: &mut [bool],
) -> Result<(), OutOfMemory>
    requires searched { IsSearched script.now found.now }
    requires marks { AreMarks script.now found.now marks.old }
    ensures { AreMarks script.now found.now marks.new }
{
    let many = marks.len();
    let mut waiting = Waiting::new(alloc, many)?;
    for later in 0..many {
        let place = many - 1 - later;
        look_ahead(script, found, place, marks, &mut waiting)?;
        go_back(script, found, marks, &mut waiting)?;
    }
    Ok(())
}

// Marks each moment from which a run can come to its end. Nothing is promised of what waits, so all
// are looked at once more, and again where memory was refused for that.
fn mark(alloc: Global, script: &Script, found: &Searched) -> Result<Vec<bool>, OutOfMemory>
    requires { IsSearched script.now found.now }
    ensures { IfOk result (λ marks. IsSettled script.now found.now marks.items) }
{
    let mut marks = first_marks(alloc, script, found)?;
    let _refused = mark_most(alloc, script, found, &mut marks).is_err();
    add_all(script, found, &mut marks);
    Ok(marks)
}

/// What was found of stuck moments.
#[derive(Clone, Copy)]
pub(crate) struct Stuck {
    /// How many there are.
    pub(crate) count: usize,
    /// The place of the first one, if there is one.
    pub(crate) first: usize,
}

// Counts a stuck moment at a place.
fn count_one(stuck: Stuck, place: usize) -> Stuck
    requires { stuck.count < usize.MAX }
    ensures count { result.count ≡ suc stuck.count }
    ensures start { stuck.count ≡ 0 → result.first ≡ place }
    ensures later { 0 < stuck.count → result.first ≡ stuck.first }
{
    Stuck {
        count: stuck.count + 1,
        first: if stuck.count == 0 { place } else { stuck.first },
    }
}

/// The moments that were found from which no run comes to its end.
pub(crate) fn stuck_of(
    alloc: Global,
    script: &Script,
    found: &Searched,
) -> Result<Stuck, OutOfMemory>
    requires { IsSearched script.now found.now }
    ensures { IfOk result (IsCounted script.now found.now) }
{
    let marks = mark(alloc, script, found)?;
    let mut stuck = Stuck { count: 0, first: 0 };
    for place in 0..marks.len() {
        if !marks[place] {
            stuck = count_one(stuck, place);
        }
    }
    Ok(stuck)
}
