//! A log as text.
ghost use Rattle.std.specs.Prelude.{◌≡◌, ◌++◌, IfOk, OnOk};
ghost use Rattle.std.specs.Fmt.{decimal};
ghost use Rattle.octet_log.specs.Texts.{mark_words, mark_line, thread_text, log_text, refusal_words, refusal_line};

use crate::LogCause;
use octet_model::{Gapped, Log, Mark, OutOfMemory, ThreadLog, push_number};
use std::alloc::Global;

/// Adds a mark at the end, its kind and its numbers.
pub fn push_mark(out: &mut Vec<u8>, mark: Mark) -> Result<(), OutOfMemory>
    ensures { OnOk result (out.new.items ≡ out.old.items ++ mark_words mark) }
{
    match mark {
        Mark::Join { from, upto } => {
            out.extend_from_slice(b"join ")?;
            push_number(out, u64::from(from))?;
            out.extend_from_slice(b" ")?;
            push_number(out, upto)
        }
        Mark::Draw { number } => {
            out.extend_from_slice(b"draw ")?;
            push_number(out, number)
        }
        Mark::Fence { number } => {
            out.extend_from_slice(b"fence ")?;
            push_number(out, number)
        }
    }
}

fn push_mark_line(out: &mut Vec<u8>, gapped: Gapped) -> Result<(), OutOfMemory>
    ensures { OnOk result (out.new.items ≡ out.old.items ++ mark_line gapped) }
{
    out.extend_from_slice(b"gap ")?;
    push_number(out, u64::from(gapped.gap))?;
    out.extend_from_slice(b" ")?;
    push_mark(out, gapped.mark)?;
    out.extend_from_slice(b"\n")?;
    Ok(())
}

fn push_thread(out: &mut Vec<u8>, thread: usize, log: &ThreadLog) -> Result<(), OutOfMemory>
    ensures { OnOk result (out.new.items ≡ out.old.items ++ thread_text thread log.now) }
{
    out.extend_from_slice(b"thread ")?;
    push_number(out, thread as u64)?;
    out.extend_from_slice(b" accesses ")?;
    push_number(out, u64::from(log.accesses))?;
    out.extend_from_slice(b" marks ")?;
    push_number(out, log.marks.len() as u64)?;
    out.extend_from_slice(b"\n")?;
    for gapped in log.marks.as_slice() {
        push_mark_line(out, *gapped)?;
    }
    Ok(())
}

/// The text of a log: how many threads it has, and for each thread a line and its marks' lines.
pub fn show(alloc: Global, log: &Log) -> Result<Vec<u8>, OutOfMemory>
    ensures { IfOk result (λ text. text.items ≡ log_text log.now.threads) }
{
    let mut out = Vec::new(alloc);
    out.extend_from_slice(b"threads ")?;
    push_number(&mut out, log.threads.len() as u64)?;
    out.extend_from_slice(b"\n")?;
    for (thread, thread_log) in log.threads.as_slice().iter().enumerate() {
        push_thread(&mut out, thread, thread_log)?;
    }
    Ok(out)
}

// The words of a refusal that has a place, or a thread.
fn push_place(out: &mut Vec<u8>, words: &[u8], place: u64) -> Result<(), OutOfMemory>
    ensures { OnOk result (out.new.items ≡ out.old.items ++ words.now ++ decimal place) }
{
    out.extend_from_slice(words)?;
    push_number(out, place)
}

fn push_refusal(out: &mut Vec<u8>, cause: LogCause) -> Result<(), OutOfMemory>
    ensures { OnOk result (out.new.items ≡ out.old.items ++ refusal_words cause) }
{
    match cause {
        LogCause::NoMagic => Ok(out.extend_from_slice(b"1 no magic")?),
        LogCause::BadVersion => Ok(out.extend_from_slice(b"2 bad version")?),
        LogCause::BadThreads => Ok(out.extend_from_slice(b"3 bad threads")?),
        LogCause::CutShort { at } => push_place(out, b"4 cut short at ", at),
        LogCause::BadMark { at } => push_place(out, b"5 bad mark at ", at),
        LogCause::TooManyAccesses => Ok(out.extend_from_slice(b"6 too many accesses")?),
        LogCause::Trailing { at } => push_place(out, b"7 trailing at ", at),
        LogCause::BadNumber { at } => push_place(out, b"8 bad number at ", at),
        LogCause::BadPiece { at } => push_place(out, b"9 bad piece at ", at),
        LogCause::GapsOver { thread } => {
            push_place(out, b"10 gaps over accesses of thread ", u64::from(thread))
        }
        LogCause::TooManyMarks => Ok(out.extend_from_slice(b"11 too many marks")?),
    }
}

/// The line that says why bytes are refused as a log.
pub fn refusal_line(alloc: Global, cause: LogCause) -> Result<Vec<u8>, OutOfMemory>
    ensures { IfOk result (λ line. line.items ≡ refusal_line cause) }
{
    let mut out = Vec::new(alloc);
    out.extend_from_slice(b"log: ")?;
    push_refusal(&mut out, cause)?;
    out.extend_from_slice(b"\n")?;
    Ok(out)
}
