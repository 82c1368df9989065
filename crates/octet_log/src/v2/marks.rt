//! The marks of a piece, read from bytes of version 2.
ghost use Rattle.std.specs.Prelude.{◌≡◌, ◌+◌, ◌≤◌, ◌<◌, length, IfOk};
ghost use Rattle.octet_model.specs.declared.event.Mark.TheVariants.{Draw, Fence};
ghost use Rattle.octet_log.specs.Judging.{Gives, with_front};
ghost use Rattle.octet_log.specs.v2.Decoding.{join_at, numbered_at, kind_at, short_mark_at, short_marks_at, piece_at};

use super::short::read_short;
use crate::field::read_u8;
use crate::{LogCause, LogFault, MAX_MARKS};
use octet_model::{Gapped, List, MAX_ACCESSES, Mark};
use std::alloc::Global;
use std::mem;

/// The fewest bytes of a mark: its kind, its gap and its number.
const SHORTEST_MARK: usize = 3;

fn bad_mark(place: usize) -> LogFault
    ensures { result ≡ LogFault.Refused (LogCause.BadMark place) }
{
    LogCause::BadMark { at: place as u64 }.into()
}

fn bad_piece(place: usize) -> LogFault
    ensures { result ≡ LogFault.Refused (LogCause.BadPiece place) }
{
    LogCause::BadPiece { at: place as u64 }.into()
}

// What a Join says after its gap.
fn read_join(
    total: usize,
    threads: u8,
    thread: u8,
    place: usize,
    bytes: &[u8],
) -> Result<(Mark, &[u8]), LogFault>
    requires { length bytes.now ≤ total }
    ensures judged { Gives (λ x. (x.0, x.1.now)) result (join_at total threads thread place bytes.now) }
    ensures shorter { IfOk result (λ x. length x.1.now ≤ length bytes.now) }
{
    let (from, rest) = read_u8(total, bytes)?;
    if from >= threads || from == thread {
        return Err(bad_mark(place));
    }
    let (upto, rest) = read_short(total, rest)?;
    Ok((Mark::Join { from, upto }, rest))
}

// The number of a Draw or a Fence, at least 1.
fn read_number(total: usize, place: usize, bytes: &[u8]) -> Result<(u64, &[u8]), LogFault>
    requires { length bytes.now ≤ total }
    ensures draw { Gives (λ x. (Draw x.0, x.1.now)) result (numbered_at total place (λ number. Draw number) bytes.now) }
    ensures fence { Gives (λ x. (Fence x.0, x.1.now)) result (numbered_at total place (λ number. Fence number) bytes.now) }
    ensures shorter { IfOk result (λ x. length x.1.now ≤ length bytes.now) }
{
    let (number, rest) = read_short(total, bytes)?;
    if number < 1 {
        return Err(bad_mark(place));
    }
    Ok((number, rest))
}

// What stands after the gap of a mark of that kind, 1 to 3.
fn read_kind(
    total: usize,
    threads: u8,
    thread: u8,
    place: usize,
    kind: u8,
    bytes: &[u8],
) -> Result<(Mark, &[u8]), LogFault>
    requires { length bytes.now ≤ total }
    ensures judged { Gives (λ x. (x.0, x.1.now)) result (kind_at total threads thread place kind bytes.now) }
    ensures shorter { IfOk result (λ x. length x.1.now ≤ length bytes.now) }
{
    match kind {
        1 => read_join(total, threads, thread, place, bytes),
        2 => {
            let (number, rest) = read_number(total, place, bytes)?;
            Ok((Mark::Draw { number }, rest))
        }
        _ => {
            let (number, rest) = read_number(total, place, bytes)?;
            Ok((Mark::Fence { number }, rest))
        }
    }
}

#[tactic(auto, unfolding(crate::specs::v2::Decoding::short_mark_at))]
fn read_mark(
    total: usize,
    threads: u8,
    thread: u8,
    bytes: &[u8],
) -> Result<(Gapped, &[u8]), LogFault>
    requires { length bytes.now ≤ total }
    ensures judged { Gives (λ x. (x.0, x.1.now)) result (short_mark_at total threads thread bytes.now) }
    ensures shorter { IfOk result (λ x. length x.1.now ≤ length bytes.now) }
{
    let place = total - bytes.len();
    let (kind, rest) = read_u8(total, bytes)?;
    if kind < 1 || kind > 3 {
        return Err(bad_mark(place));
    }
    let (gap, rest) = read_short(total, rest)?;
    if gap > u64::from(MAX_ACCESSES) {
        return Err(bad_mark(place));
    }
    let gap = gap as u32;
    let (mark, rest) = read_kind(total, threads, thread, place, kind, rest)?;
    Ok((Gapped { gap, mark }, rest))
}

fn read_marks<'a>(
    alloc: Global,
    total: usize,
    threads: u8,
    thread: u8,
    count: u32,
    marks: &mut List<Gapped>,
    bytes: &'a [u8],
) -> Result<&'a [u8], LogFault>
    requires { length bytes.now ≤ total }
    ensures judged { Gives (λ rest. (marks.new, rest.now)) result (with_front marks.old (short_marks_at total threads thread count bytes.now)) }
    ensures shorter { IfOk result (λ rest. length rest.now ≤ length bytes.now) }
    ensures count { IfOk result (λ rest. length marks.new ≡ length marks.old + count) }
{
    let mut all = mem::replace(marks, List::new(alloc)).into_vec();
    all.reserve((count as usize).min(bytes.len() / SHORTEST_MARK))?;
    let mut rest = bytes;
    for _ in 0..count {
        let (gapped, after) = read_mark(total, threads, thread, rest)?;
        all.push(gapped)?;
        rest = after;
    }
    *marks = List::from_vec(all);
    Ok(rest)
}

/// Adds the marks of the piece at a place, which is of that thread and stands after `before`
/// marks, and gives how many they are.
#[tactic(auto, unfolding(crate::specs::v2::Decoding::piece_at))]
pub(crate) fn read_piece<'a>(
    alloc: Global,
    total: usize,
    threads: u8,
    place: usize,
    thread: u8,
    before: u32,
    marks: &mut List<Gapped>,
    bytes: &'a [u8],
) -> Result<(u32, &'a [u8]), LogFault>
    requires within { length bytes.now ≤ total }
    requires known { thread < threads }
    requires before { before ≤ MAX_MARKS }
    ensures judged { Gives (λ x. (marks.new, x.1.now)) result (with_front marks.old (piece_at total threads place thread before bytes.now)) }
    ensures shorter { IfOk result (λ x. length x.1.now ≤ length bytes.now) }
    ensures count { IfOk result (λ x. length marks.new ≡ length marks.old + x.0) }
    ensures few { IfOk result (λ x. before + x.0 ≤ MAX_MARKS) }
{
    let (count, rest) = read_short(total, bytes)?;
    if count < 1 {
        return Err(bad_piece(place));
    }
    if count > u64::from(MAX_MARKS - before) {
        return Err(LogCause::TooManyMarks.into());
    }
    let count = count as u32;
    let rest = read_marks(alloc, total, threads, thread, count, marks, rest)?;
    Ok((count, rest))
}
