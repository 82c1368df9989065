//! The marks of a block.
ghost use Rattle.std.specs.Prelude.{◌≡◌, ◌++◌, ◌<◌, ◌≤◌, [], length, IfOk, IfSome, OnOk};
ghost use Rattle.std.specs.Option.{option_map};
ghost use Rattle.octet_marks.specs.Marks.{mark_after, mark_at, marks_at, marks_of, mark_bytes, marks_bytes};

use crate::fields::{push_short, read_short, read_u8};
use crate::source::{last_number, mark_from, number_of, source_of};
use octet_model::{Gapped, List, OutOfMemory};
use std::alloc::Global;

/// The fewest bytes of a mark: its source, its gap and its number.
const SHORTEST_MARK: usize = 3;

fn mark_after(earlier: &[Gapped], source: u8, gap: u32, step: u64) -> Option<Gapped>
    ensures { result ≡ mark_after earlier.now source gap step }
{
    let number = last_number(source, earlier).wrapping_add(step);
    let mark = mark_from(source, number)?;
    Some(Gapped { gap, mark })
}

// The mark at the front, where the earlier ones stand before it in its block.
#[tactic(auto, unfolding(crate::specs::Marks::mark_at))]
fn read_mark<'a>(earlier: &[Gapped], bytes: &'a [u8]) -> Option<(Gapped, &'a [u8])>
    ensures { option_map (λ x. (x.0, x.1.now)) result ≡ mark_at earlier.now bytes.now }
{
    let (source, rest) = read_u8(bytes)?;
    let (gap, rest) = read_short(rest)?;
    if gap > u64::from(u32::MAX) {
        return None;
    }
    let (step, rest) = read_short(rest)?;
    let gapped = mark_after(earlier, source, gap as u32, step)?;
    Some((gapped, rest))
}

/// The marks that all of the bytes spell, if they spell some. Room is taken for no more marks than the bytes
/// can hold.
pub(crate) fn read_marks(alloc: Global, bytes: &[u8]) -> Result<Option<List<Gapped>>, OutOfMemory>
    ensures { IfOk result (λ marks. marks ≡ marks_of bytes.now) }
{
    let mut marks = Vec::with_capacity(alloc, bytes.len() / SHORTEST_MARK)?;
    let mut rest = bytes;
    for _ in 0..bytes.len() {
        if rest.is_empty() {
            return Ok(Some(List::from_vec(marks)));
        }
        let Some((gapped, after)) = read_mark(marks.as_slice(), rest) else {
            return Ok(None);
        };
        marks.push(gapped)?;
        rest = after;
    }
    if !rest.is_empty() {
        return Ok(None);
    }
    Ok(Some(List::from_vec(marks)))
}

fn push_mark(out: &mut Vec<u8>, earlier: &[Gapped], gapped: Gapped) -> Result<(), OutOfMemory>
    ensures { OnOk result (out.new.items ≡ out.old.items ++ mark_bytes earlier.now gapped) }
{
    let source = source_of(gapped.mark);
    let before = last_number(source, earlier);
    out.push(source)?;
    push_short(out, u64::from(gapped.gap))?;
    push_short(out, number_of(gapped.mark).wrapping_sub(before))
}

pub(crate) fn push_marks(out: &mut Vec<u8>, marks: &[Gapped]) -> Result<(), OutOfMemory>
    ensures { OnOk result (out.new.items ≡ out.old.items ++ marks_bytes [] marks.now) }
{
    for (place, gapped) in marks.iter().enumerate() {
        let (earlier, _) = marks.split_at(place);
        push_mark(out, earlier, *gapped)?;
    }
    Ok(())
}
