//! The command `outcomes SCRIPT [MOST]`.
ghost use Rattle.std.specs.Prelude.{◌≡◌, ◌++◌, true, length, map as list_map, IfOk, OnOk};
ghost use Rattle.std.specs.List.{All, flat_map};
ghost use Rattle.octet_outcomes.specs.Endings.{heap_of, IsEnding};
ghost use Rattle.octet_commands.specs.Answer.{answer_of};
ghost use Rattle.octet_commands.specs.Outcomes.{cut_line, search_said, search_text, told_line, told_text, IsRecorded, IsTold, OutcomesAnswers};

use crate::reply::{Reply, Status};
use octet_hunt::{are_done, record_by};
use octet_model::{List, OutOfMemory, Script, push_object_lines};
use octet_outcomes::{Ending, Outcomes, Seen, explore};
use std::alloc::Global;

/// A final heap, and whether a run by the script's own fuel was made that ends with it.
#[derive(Debug, Drop)]
pub struct Told {
    pub heap: List<u64>,
    pub within: bool,
}

/// All final heaps are said, or as many as were found, and how many moments lead to none.
pub(crate) fn outcomes(alloc: Global, script: &Script, most: u64) -> Result<Reply, OutOfMemory>
    ensures { IfOk result (λ reply. OutcomesAnswers script.now most (answer_of reply)) }
{
    let found = explore(alloc, script, most as usize)?;
    let told = told_of(alloc, script, found.endings.as_slice())?;
    let text = search_text(alloc, script, told.as_slice(), &found)?;
    say_search(alloc, text, found.seen)
}

/// The line of a search that was cut off.
pub(crate) fn cut_line(seen: Seen) -> &'static [u8]
    ensures { result.now ≡ cut_line seen }
{
    match seen {
        Seen::Memory => b"not all was seen for want of memory\n",
        _ => b"not all was seen\n",
    }
}

fn say_search(alloc: Global, text: Vec<u8>, seen: Seen) -> Result<Reply, OutOfMemory>
    ensures { IfOk result (λ reply. answer_of reply ≡ search_said text.items seen) }
{
    if seen == Seen::Whole {
        return Ok(Reply::saying(alloc, Status::Done, text));
    }
    let mut text = text;
    text.extend_from_slice(cut_line(seen))?;
    Ok(Reply::saying(alloc, Status::NotAll, text))
}

// Whether the run by the way to an ending has fuel enough, and ends with its heap.
fn is_within(alloc: Global, script: &Script, ending: &Ending) -> Result<bool, OutOfMemory>
    ensures { IfOk result (λ within. within ≡ true → IsRecorded script.now ending.now.heap) }
{
    let Some(find) = record_by(alloc, script, ending.picks.as_slice())? else {
        return Ok(false);
    };
    let outcome = &find.recorded.outcome;
    Ok(are_done(outcome.ends.as_slice()) && outcome.heap.as_slice() == ending.heap.as_slice())
}

fn told_of(alloc: Global, script: &Script, endings: &[Ending]) -> Result<List<Told>, OutOfMemory>
    requires { All (IsEnding script.now) endings.now }
    ensures each { IfOk result (λ told. All (IsTold script.now) told) }
    ensures heaps { IfOk result (λ told. list_map (λ t. t.heap) told ≡ list_map heap_of endings.now) }
{
    let mut told = List::new(alloc);
    for ending in endings {
        let within = is_within(alloc, script, ending)?;
        let heap = List::from_vec(Vec::from_slice(alloc, ending.heap.as_slice())?);
        told.push(Told { heap, within })?;
    }
    Ok(told)
}

fn told_line(within: bool) -> &'static [u8]
    ensures { result.now ≡ told_line within }
{
    if within {
        b"outcome\n"
    } else {
        b"outcome past the fuel\n"
    }
}

fn push_told(out: &mut Vec<u8>, script: &Script, told: &Told) -> Result<(), OutOfMemory>
    requires { length told.now.heap ≡ length script.now.objects }
    ensures { OnOk result (out.new.items ≡ out.old.items ++ told_text script.now told.now) }
{
    out.extend_from_slice(told_line(told.within))?;
    push_object_lines(out, script.objects.as_slice(), told.heap.as_slice())?;
    Ok(())
}

fn search_text(
    alloc: Global,
    script: &Script,
    told: &[Told],
    found: &Outcomes,
) -> Result<Vec<u8>, OutOfMemory>
    requires { All (λ t. length t.heap ≡ length script.now.objects) told.now }
    ensures { IfOk result (λ text. text.items ≡ search_text script.now told.now found.now.moments found.now.stuck) }
{
    let mut text = Vec::new(alloc);
    for one in told {
        push_told(&mut text, script, one)?;
    }
    let line = format!(in alloc; "moments {}\nstuck {}\n", found.moments, found.stuck)?;
    text.extend_from_slice(line.as_bytes())?;
    Ok(text)
}
