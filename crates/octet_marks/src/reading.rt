//! The next piece of a file.
ghost use Rattle.std.specs.Prelude.{◌≡◌, ◌+◌, ◌<◌, ◌≤◌, length, replicate, IfOk, IfSome, IfNone, OnErr, slice_set};
ghost use Rattle.std.specs.Option.{option_map};
ghost use Rattle.octet_marks.specs.declared.piece.Piece.TheVariants as pieces;
ghost use Rattle.octet_marks.specs.Judging.{Gives};
ghost use Rattle.octet_marks.specs.Reading.{Read, fresh, first_piece, block_piece, end_piece, later_piece, head_at, later_at, piece_at};

use crate::bodies::{read_block, read_end, read_head};
use crate::cause::ReadFault;
use crate::frame::read_frame;
use crate::piece::{BLOCK, END, HEAD, VERSION};
use crate::standing::{block_after, end_after};
use crate::{Head, MarksCause, Piece, Progress};
use octet_model::OutOfMemory;
use std::alloc::Global;

/// Bytes of the magic and the version.
const START_LEN: usize = 5;

// A block or an end that was read, and how far its thread is after it.
#[derive(Drop)]
struct Later {
    piece: Piece,
    thread: u8,
    progress: Progress,
}

// No thread has made anything.
fn fresh_threads(alloc: Global, threads: u8) -> Result<Vec<Progress>, OutOfMemory>
    ensures { IfOk result (λ all. all.items ≡ replicate threads fresh) }
{
    let mut all = Vec::new(alloc);
    for _ in 0..threads {
        all.push(Progress {
            events: 0,
            accesses: 0,
            ended: false,
        })?;
    }
    Ok(all)
}

#[tactic(auto, unfolding(crate::specs::Reading::first_piece))]
fn first_piece(
    alloc: Global,
    kind: u8,
    body: &[u8],
    size: usize,
) -> Result<(Head, Vec<Progress>), ReadFault>
    ensures { Gives (λ x. record { piece = pieces.Head x.0; threads = x.1.items; size = 5 + size }) result (first_piece kind body.now size) }
{
    if kind != HEAD {
        return Err(MarksCause::BadKind.into());
    }
    let Some(head) = read_head(alloc, body)? else {
        return Err(MarksCause::BadBody.into());
    };
    let threads = fresh_threads(alloc, head.threads)?;
    Ok((head, threads))
}

#[tactic(auto, unfolding(crate::specs::Reading::block_piece))]
fn block_piece(
    alloc: Global,
    threads: &[Progress],
    body: &[u8],
    size: usize,
) -> Result<Later, ReadFault>
    ensures judged { Gives (λ x. record { piece = x.piece; threads = slice_set threads.now x.thread x.progress; size = size }) result (block_piece threads.now body.now size) }
    ensures within { IfOk result (λ x. x.thread < length threads.now) }
{
    let Some(block) = read_block(alloc, body)? else {
        return Err(MarksCause::BadBody.into());
    };
    let progress = block_after(threads, &block)?;
    let thread = block.thread;
    Ok(Later {
        piece: Piece::Block { block },
        thread,
        progress,
    })
}

#[tactic(auto, unfolding(crate::specs::Reading::end_piece))]
fn end_piece(threads: &[Progress], body: &[u8], size: usize) -> Result<Later, ReadFault>
    ensures judged { Gives (λ x. record { piece = x.piece; threads = slice_set threads.now x.thread x.progress; size = size }) result (end_piece threads.now body.now size) }
    ensures within { IfOk result (λ x. x.thread < length threads.now) }
{
    let Some(end) = read_end(body) else {
        return Err(MarksCause::BadBody.into());
    };
    let progress = end_after(threads, end)?;
    Ok(Later {
        piece: Piece::End { end },
        thread: end.thread,
        progress,
    })
}

#[tactic(auto, unfolding(crate::specs::Reading::later_piece))]
fn later_piece(
    alloc: Global,
    threads: &[Progress],
    kind: u8,
    body: &[u8],
    size: usize,
) -> Result<Later, ReadFault>
    ensures judged { Gives (λ x. record { piece = x.piece; threads = slice_set threads.now x.thread x.progress; size = size }) result (later_piece threads.now kind body.now size) }
    ensures within { IfOk result (λ x. x.thread < length threads.now) }
{
    match kind {
        BLOCK => block_piece(alloc, threads, body, size),
        END => end_piece(threads, body, size),
        _ => Err(MarksCause::BadKind.into()),
    }
}

// The head at the front with its size; nothing, if it is cut.
#[tactic(auto, unfolding(crate::specs::Reading::head_at))]
fn read_first(
    alloc: Global,
    bytes: &[u8],
) -> Result<Option<(Head, Vec<Progress>, usize)>, ReadFault>
    ensures judged { Gives (option_map (λ x. record { piece = pieces.Head x.0; threads = x.1.items; size = x.2 })) result (head_at bytes.now) }
    ensures within { IfOk result (λ found. IfSome found (λ x. x.2 ≤ length bytes.now)) }
{
    if bytes.len() < START_LEN {
        return Ok(None);
    }
    let Some(rest) = bytes.strip_prefix(b"OCTM") else {
        return Err(MarksCause::NoMagic.into());
    };
    if rest[0] != VERSION {
        return Err(MarksCause::BadVersion.into());
    }
    let (_, rest) = bytes.split_at(START_LEN);
    let Some((kind, body, size)) = read_frame(rest)? else {
        return Ok(None);
    };
    let (head, threads) = first_piece(alloc, kind, body, size)?;
    Ok(Some((head, threads, START_LEN + size)))
}

// The block or the end at the front with its size; nothing, if it is cut.
#[tactic(auto, unfolding(crate::specs::Reading::later_at))]
fn read_later(
    alloc: Global,
    threads: &[Progress],
    bytes: &[u8],
) -> Result<Option<(Later, usize)>, ReadFault>
    ensures judged { Gives (option_map (λ x. record { piece = x.0.piece; threads = slice_set threads.now x.0.thread x.0.progress; size = x.1 })) result (later_at threads.now bytes.now) }
    ensures known { IfOk result (λ found. IfSome found (λ x. x.0.thread < length threads.now)) }
    ensures within { IfOk result (λ found. IfSome found (λ x. x.1 ≤ length bytes.now)) }
{
    let Some((kind, body, size)) = read_frame(bytes)? else {
        return Ok(None);
    };
    let later = later_piece(alloc, threads, kind, body, size)?;
    Ok(Some((later, size)))
}

/// The next piece with its size; nothing, if it is cut. The threads are then as far as they are after it.
pub(crate) fn read_next(
    alloc: Global,
    threads: &mut Vec<Progress>,
    bytes: &[u8],
) -> Result<Option<(Piece, usize)>, ReadFault>
    ensures judged { Gives (option_map (λ x. record { piece = x.0; threads = threads.new.items; size = x.1 })) result (piece_at threads.old.items bytes.now) }
    ensures within { IfOk result (λ found. IfSome found (λ x. x.1 ≤ length bytes.now)) }
    ensures cut { IfOk result (λ found. IfNone found (threads.new.items ≡ threads.old.items)) }
    ensures err { OnErr result (threads.new.items ≡ threads.old.items) }
{
    if threads.is_empty() {
        let Some((head, fresh, size)) = read_first(alloc, bytes)? else {
            return Ok(None);
        };
        *threads = fresh;
        return Ok(Some((Piece::Head { head }, size)));
    }
    let Some((later, size)) = read_later(alloc, threads.as_slice(), bytes)? else {
        return Ok(None);
    };
    threads[usize::from(later.thread)] = later.progress;
    Ok(Some((later.piece, size)))
}
