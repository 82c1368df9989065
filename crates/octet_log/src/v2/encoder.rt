//! A log as bytes of version 2, whole or in parts.
ghost use Rattle.std.specs.Prelude.{◌≡◌, ◌++◌, ◌≤◌, ◌<◌, IfOk, OnOk, length, Some};
ghost use Rattle.std.specs.List.{flat_map};
ghost use Rattle.octet_log.specs.v2.Pieces.{head_bytes, short_mark_of, short_mark_bytes, marks_bytes, piece_bytes, tail_bytes, marks_in, whole_pieces, pieced_bytes};
ghost use Rattle.octet_log.specs.Spellings.{IsSpelling};

use super::short::push_short;
use crate::{Digest, MAX_MARKS};
use octet_model::{Gapped, Log, MAX_THREADS, Mark, OutOfMemory, ThreadLog};
use std::alloc::Global;

/// The byte where a thread would stand, once no more pieces come.
pub(crate) const END: u8 = 0xff;

fn push_mark(out: &mut Vec<u8>, gapped: Gapped) -> Result<(), OutOfMemory>
    ensures { OnOk result (out.new.items ≡ out.old.items ++ short_mark_bytes gapped) }
{
    match gapped.mark {
        Mark::Join { from, upto } => {
            out.push(1)?;
            push_short(out, u64::from(gapped.gap))?;
            out.push(from)?;
            push_short(out, upto)
        }
        Mark::Draw { number } => {
            out.push(2)?;
            push_short(out, u64::from(gapped.gap))?;
            push_short(out, number)
        }
        Mark::Fence { number } => {
            out.push(3)?;
            push_short(out, u64::from(gapped.gap))?;
            push_short(out, number)
        }
    }
}

fn push_marks(out: &mut Vec<u8>, marks: &[Gapped]) -> Result<(), OutOfMemory>
    ensures { OnOk result (out.new.items ≡ out.old.items ++ marks_bytes marks.now) }
{
    push_short(out, marks.len() as u64)?;
    for gapped in marks {
        push_mark(out, *gapped)?;
    }
    Ok(())
}

fn push_piece(out: &mut Vec<u8>, thread: u8, marks: &[Gapped]) -> Result<(), OutOfMemory>
    ensures { OnOk result (out.new.items ≡ out.old.items ++ piece_bytes (record { thread = thread; marks = marks.now })) }
{
    out.push(thread)?;
    push_marks(out, marks)
}

fn push_head(out: &mut Vec<u8>, threads: u8, digest: &Digest) -> Result<(), OutOfMemory>
    ensures bytes { OnOk result (out.new.items ≡ out.old.items ++ head_bytes threads digest.now.bytes) }
    ensures length { length digest.now.bytes ≡ 32 }
{
    out.extend_from_slice(b"OCTL\x02")?;
    out.push(threads)?;
    out.extend_from_slice(&digest.bytes)?;
    Ok(())
}

fn push_tail(out: &mut Vec<u8>, logs: &[ThreadLog]) -> Result<(), OutOfMemory>
    ensures { OnOk result (out.new.items ≡ out.old.items ++ tail_bytes logs.now) }
{
    out.push(END)?;
    for log in logs {
        push_short(out, u64::from(log.accesses))?;
    }
    Ok(())
}

/// The first part of a log in version 2: how many threads it has, and the digest of its script.
/// There are 1 to 16 threads.
pub fn head(alloc: Global, threads: u8, digest: &Digest) -> Result<Vec<u8>, OutOfMemory>
    requires some_thread { 1 ≤ threads }
    requires few { threads ≤ MAX_THREADS }
    ensures { IfOk result (λ bytes. bytes.items ≡ head_bytes threads digest.now.bytes) }
{
    let mut out = Vec::new(alloc);
    push_head(&mut out, threads, digest)?;
    Ok(out)
}

/// Some marks of a thread below 16, at least one. They stand behind those of the thread's earlier
/// pieces.
pub fn piece(alloc: Global, thread: u8, marks: &[Gapped]) -> Result<Vec<u8>, OutOfMemory>
    requires thread { thread < MAX_THREADS }
    requires some_mark { 1 ≤ length marks.now }
    ensures { IfOk result (λ bytes. bytes.items ≡ piece_bytes (record { thread = thread; marks = marks.now })) }
{
    let mut out = Vec::new(alloc);
    push_piece(&mut out, thread, marks)?;
    Ok(out)
}

/// The last part of a log in version 2: the accesses of each thread.
pub fn tail(alloc: Global, log: &Log) -> Result<Vec<u8>, OutOfMemory>
    ensures { IfOk result (λ bytes. bytes.items ≡ tail_bytes log.now.threads) }
{
    let mut out = Vec::new(alloc);
    push_tail(&mut out, log.threads.as_slice())?;
    Ok(out)
}

fn push_pieces(out: &mut Vec<u8>, logs: &[ThreadLog]) -> Result<(), OutOfMemory>
    requires { length logs.now ≤ MAX_THREADS }
    ensures { OnOk result (out.new.items ≡ out.old.items ++ flat_map piece_bytes (whole_pieces 0 logs.now)) }
{
    for (thread, log) in logs.iter().enumerate() {
        if !log.marks.as_slice().is_empty() {
            push_piece(out, thread as u8, log.marks.as_slice())?;
        }
    }
    Ok(())
}

fn push_log(out: &mut Vec<u8>, log: &Log, digest: &Digest) -> Result<(), OutOfMemory>
    ensures bytes { OnOk result (out.new.items ≡ out.old.items ++ pieced_bytes digest.now.bytes (whole_pieces 0 log.now.threads) log.now.threads) }
    ensures length { length digest.now.bytes ≡ 32 }
{
    let logs = log.threads.as_slice();
    push_head(out, logs.len() as u8, digest)?;
    push_pieces(out, logs)?;
    push_tail(out, logs)
}

/// A log in version 2: the head, one piece for each thread that has marks, in order, and the tail.
/// It has at most 4,793,490 marks.
pub fn encode_v2(alloc: Global, log: &Log, digest: &Digest) -> Result<Vec<u8>, OutOfMemory>
    requires { marks_in log.now.threads ≤ MAX_MARKS }

    // Which spelling it is.
    ensures whole { IfOk result (λ bytes. bytes.items ≡ pieced_bytes digest.now.bytes (whole_pieces 0 log.now.threads) log.now.threads) }
    // It spells the log, with the digest.
    ensures spells { IfOk result (λ bytes. IsSpelling bytes.items (Some digest.now.bytes) log.now.threads) }
{
    let mut out = Vec::new(alloc);
    push_log(&mut out, log, digest)?;
    Ok(out)
}
