//! The parts of a marks file, for a file that grows.
ghost use Rattle.std.specs.Prelude.{◌≡◌, ◌≤◌, length, IfOk, OnOk};
ghost use Rattle.octet_model.specs.declared.limits.TheConstants.{MAX_THREADS};
ghost use Rattle.octet_marks.specs.declared.piece.Piece.TheVariants as pieces;
ghost use Rattle.octet_marks.specs.Bodies.{head_body, block_body, end_body};
ghost use Rattle.octet_marks.specs.Reading.{piece_bytes};

use crate::bodies::push_starts;
use crate::fields::{push_u32, push_u64};
use crate::frame::frame;
use crate::marks::push_marks;
use crate::piece::{BLOCK, END, End, HEAD, Head, VERSION};
use crate::{MAX_BLOCK_MARKS, MAX_OBJECTS_OF_FILE};
use octet_model::{Gapped, OutOfMemory};
use std::alloc::Global;

fn body_of_head(alloc: Global, head: &Head) -> Result<Vec<u8>, OutOfMemory>
    ensures bytes { IfOk result (λ body. body.items ≡ head_body head.now) }
    ensures length { OnOk result (length head.now.declared.bytes ≡ 32) }
{
    let mut body = Vec::new(alloc);
    body.push(head.threads)?;
    body.extend_from_slice(&head.declared.bytes)?;
    push_starts(&mut body, head.starts.as_slice())?;
    Ok(body)
}

fn body_of_block(
    alloc: Global,
    thread: u8,
    first: u64,
    marks: &[Gapped],
    gap: u32,
    digest: u64,
) -> Result<Vec<u8>, OutOfMemory>
    ensures { IfOk result (λ body. body.items ≡ block_body (record { thread = thread; first = first; marks = marks.now; gap = gap; digest = digest })) }
{
    let mut body = Vec::new(alloc);
    body.push(thread)?;
    push_u64(&mut body, first)?;
    push_u32(&mut body, gap)?;
    push_u64(&mut body, digest)?;
    push_marks(&mut body, marks)?;
    Ok(body)
}

fn body_of_end(alloc: Global, end: End) -> Result<Vec<u8>, OutOfMemory>
    ensures { IfOk result (λ body. body.items ≡ end_body end) }
{
    let mut body = Vec::new(alloc);
    body.push(end.thread)?;
    push_u64(&mut body, end.events)?;
    Ok(body)
}

/// The first part of a file: its magic, its version and its head, of 1 to 16 threads and at most 65,535 objects.
pub fn head(alloc: Global, head: &Head) -> Result<Vec<u8>, OutOfMemory>
    requires some_thread { 1 ≤ head.now.threads }
    requires few_threads { head.now.threads ≤ MAX_THREADS }
    requires objects { length head.now.starts ≤ MAX_OBJECTS_OF_FILE }
    ensures { IfOk result (λ bytes. bytes.items ≡ piece_bytes (pieces.Head head.now)) }
{
    let body = body_of_head(alloc, head)?;
    let frame = frame(alloc, HEAD, body.as_slice())?;
    let mut out = Vec::from_slice(alloc, b"OCTM")?;
    out.push(VERSION)?;
    out.extend_from_slice(frame.as_slice())?;
    Ok(out)
}

/// A block of a thread: the events of the thread from number `first` on. They are its marks, at most 40,000, each
/// with the accesses before it, and then `gap` accesses. The digest is that of all accesses that the thread has made.
pub fn block(
    alloc: Global,
    thread: u8,
    first: u64,
    marks: &[Gapped],
    gap: u32,
    digest: u64,
) -> Result<Vec<u8>, OutOfMemory>
    requires { length marks.now ≤ MAX_BLOCK_MARKS }
    ensures { IfOk result (λ bytes. bytes.items ≡ piece_bytes (pieces.Block (record { thread = thread; first = first; marks = marks.now; gap = gap; digest = digest }))) }
{
    let body = body_of_block(alloc, thread, first, marks, gap, digest)?;
    frame(alloc, BLOCK, body.as_slice())
}

/// The end of a thread that has made so many events.
pub fn end(alloc: Global, end: End) -> Result<Vec<u8>, OutOfMemory>
    ensures { IfOk result (λ bytes. bytes.items ≡ piece_bytes (pieces.End end)) }
{
    let body = body_of_end(alloc, end)?;
    frame(alloc, END, body.as_slice())
}
