//! The outcomes of a script: how all its runs can end, whatever the order of their accesses.
ghost use Rattle.std.specs.Prelude.{◌≡◌, ◌<◌, false, length, map, IfOk};
ghost use Rattle.std.specs.List.{All};
ghost use Rattle.octet_outcomes.specs.Endings.{IsEnding, heap_of};
ghost use Rattle.octet_outcomes.specs.Moments.{Moment};
ghost use Rattle.octet_outcomes.specs.Runs.{AreAllOutcomes, IsReached};
ghost use Rattle.octet_outcomes.specs.Searches.{IsSearched};
ghost use Rattle.octet_outcomes.specs.declared.outcomes.Seen.TheVariants.{Most, Whole};
ghost use Rattle.octet_outcomes.specs.Stuck.{IsCounted, IsWhole, LeadsToEnd, LeadsToStuck};

use crate::endings::{Ending, endings_of};
use crate::search::{Searched, search};
use crate::stuck::{Stuck, stuck_of};
use octet_model::{List, OutOfMemory, Script};
use std::alloc::Global;

/// How much of a script was seen: all of it, as many moments as were asked for, or as many as memory
/// was given for.
#[derive(Clone, Copy, Debug, PartialEq, Eq)]
pub enum Seen {
    Whole,
    Most,
    Memory,
}

/// What was found of a script's outcomes.
#[derive(Debug, Drop)]
pub struct Outcomes {
    /// Whether these are all, and if not, why.
    pub seen: Seen,
    /// Each final heap once, in ascending order of its numbers.
    pub endings: List<Ending>,
    /// How many moments were found. Those that differ in registers that are read no more may count
    /// as one; where a thread's access conflicts with none that another may still make, only what
    /// follows by it was looked for.
    pub moments: usize,
    /// From how many of them no run comes to a moment in which all threads are done.
    pub stuck: usize,
    /// Where there are some: the thread of each access on a way to one.
    pub way: List<u8>,
}

// The way to the first stuck moment, if there is one.
fn way_of(
    alloc: Global,
    script: &Script,
    found: &Searched,
    stuck: Stuck,
) -> Result<List<u8>, OutOfMemory>
    requires searched { IsSearched script.now found.now }
    requires counted { IsCounted script.now found.now stuck }
    ensures { IfOk result (λ way. 0 < stuck.count → LeadsToStuck script.now way) }
{
    if stuck.count == 0 {
        return Ok(List::new(alloc));
    }
    found.picks_to(alloc, script, stuck.first)
}

fn seen_of(found: &Searched, is_refused: bool) -> Seen
    ensures whole { result ≡ Whole → IsWhole found.now }
    ensures most { result ≡ Most → (is_refused ≡ false) × (length found.now.edges.rows < length found.now.moments.moments) }
{
    if found.moments.len() <= found.edges.len() {
        return Seen::Whole;
    }
    if is_refused { Seen::Memory } else { Seen::Most }
}

/// The outcomes of a script: all of them, if it has no more than so many moments and memory is not
/// refused, else some. Where memory is refused for what was found, there is no answer.
pub fn explore(alloc: Global, script: &Script, most: usize) -> Result<Outcomes, OutOfMemory>
    ensures each { IfOk result (λ found. All (IsEnding script.now) found.endings) }
    ensures all { IfOk result (λ found. found.seen ≡ Whole → AreAllOutcomes script.now (map heap_of found.endings)) }
    ensures stuck { IfOk result (λ found. 0 < found.stuck → LeadsToStuck script.now found.way) }
    ensures most { IfOk result (λ found. found.seen ≡ Most → most < found.moments) }
    ensures free { IfOk result (λ found. found.seen ≡ Whole → found.stuck ≡ 0 → (m : Moment) → IsReached script.now m → LeadsToEnd script.now m) }
{
    let (found, is_refused) = search(alloc, script, most)?;
    let seen = seen_of(&found, is_refused);
    let stuck = stuck_of(alloc, script, &found)?;
    let way = way_of(alloc, script, &found, stuck)?;
    let endings = endings_of(alloc, script, &found)?;
    Ok(Outcomes {
        seen,
        endings,
        moments: found.moments.len(),
        stuck: stuck.count,
        way,
    })
}
