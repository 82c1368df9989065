//! Bytes of version 1 as a log.
ghost use Rattle.std.specs.Prelude.{◌≡◌, ◌+◌, ◌≤◌, length, IfOk};
ghost use Rattle.octet_model.specs.Log.{is_mark};
ghost use Rattle.octet_log.specs.Judging.{Gives};
ghost use Rattle.octet_log.specs.v1.Decoding.{spelled_mark, judged_mark, mark_at, marks_at, thread_at, threads_at, body_at, decoded};

use crate::field::{cut_short, read_u8, read_u32, read_u64};
use crate::{LogCause, LogFault};
use octet_model::{Gapped, List, MAX_ACCESSES, MAX_THREADS, Mark, ThreadLog};
use std::alloc::Global;

const MARK_LEN: usize = 14;

const VERSION: u8 = 1;

// The mark that the fields spell, if they spell one.
fn mark_of(kind: u8, thread: u8, number: u64) -> Option<Mark>
    ensures { result ≡ spelled_mark kind thread number }
{
    match (kind, thread) {
        (1, from) => Some(Mark::Join { from, upto: number }),
        (2, 0) => Some(Mark::Draw { number }),
        (3, 0) => Some(Mark::Fence { number }),
        _ => None,
    }
}

// Whether the mark is one of that thread, among `threads` threads.
fn is_mark(threads: u8, thread: u8, mark: Mark) -> bool
    ensures { result ≡ is_mark threads thread mark }
{
    match mark {
        Mark::Join { from, .. } => from < threads && from != thread,
        Mark::Draw { number } | Mark::Fence { number } => number >= 1,
    }
}

// The mark with its gap, where the thread has `left` accesses left.
fn gapped(
    place: usize,
    threads: u8,
    thread: u8,
    left: u32,
    gap: u32,
    mark: Option<Mark>,
) -> Result<Gapped, LogFault>
    ensures judged { Gives (λ x. x) result (judged_mark place threads thread left gap mark) }
    ensures gap { IfOk result (λ x. x.gap ≤ left) }
{
    match mark {
        Some(mark) if gap <= left && is_mark(threads, thread, mark) => Ok(Gapped { gap, mark }),
        _ => Err(LogCause::BadMark { at: place as u64 }.into()),
    }
}

#[tactic(auto, unfolding(crate::specs::v1::Decoding::mark_at))]
fn read_mark(
    total: usize,
    threads: u8,
    thread: u8,
    left: u32,
    bytes: &[u8],
) -> Result<(Gapped, &[u8]), LogFault>
    requires { length bytes.now ≤ total }
    ensures judged { Gives (λ x. (x.0, x.1.now)) result (mark_at total threads thread left bytes.now) }
    ensures shorter { IfOk result (λ x. length x.1.now ≤ length bytes.now) }
    ensures gap { IfOk result (λ x. x.0.gap ≤ left) }
{
    if bytes.len() < MARK_LEN {
        return Err(cut_short(total));
    }
    let (kind, rest) = read_u8(total, bytes)?;
    let (gap, rest) = read_u32(total, rest)?;
    let (named, rest) = read_u8(total, rest)?;
    let (number, rest) = read_u64(total, rest)?;
    let mark = mark_of(kind, named, number);
    let gapped = gapped(total - bytes.len(), threads, thread, left, gap, mark)?;
    Ok((gapped, rest))
}

fn read_marks(
    alloc: Global,
    total: usize,
    threads: u8,
    thread: u8,
    accesses: u32,
    count: u32,
    bytes: &[u8],
) -> Result<(Vec<Gapped>, &[u8]), LogFault>
    requires { length bytes.now ≤ total }
    ensures judged { Gives (λ x. (x.0.items, x.1.now)) result (marks_at total threads thread accesses count bytes.now) }
    ensures shorter { IfOk result (λ x. length x.1.now ≤ length bytes.now) }
{
    let room = (count as usize).min(bytes.len() / MARK_LEN);
    let mut marks = Vec::with_capacity(alloc, room)?;
    let mut left = accesses;
    let mut rest = bytes;
    for _ in 0..count {
        let (gapped, after) = read_mark(total, threads, thread, left, rest)?;
        left -= gapped.gap;
        marks.push(gapped)?;
        rest = after;
    }
    Ok((marks, rest))
}

#[tactic(auto, unfolding(crate::specs::v1::Decoding::thread_at))]
fn read_thread(
    alloc: Global,
    total: usize,
    threads: u8,
    thread: u8,
    before: u64,
    bytes: &[u8],
) -> Result<(ThreadLog, &[u8]), LogFault>
    requires within { length bytes.now ≤ total }
    requires before { before ≤ MAX_ACCESSES }
    ensures judged { Gives (λ x. (x.0, x.1.now)) result (thread_at total threads thread before bytes.now) }
    ensures shorter { IfOk result (λ x. length x.1.now ≤ length bytes.now) }
    ensures sum { IfOk result (λ x. before + x.0.accesses ≤ MAX_ACCESSES) }
{
    let (accesses, rest) = read_u32(total, bytes)?;
    if before + u64::from(accesses) > u64::from(MAX_ACCESSES) {
        return Err(LogCause::TooManyAccesses.into());
    }
    let (count, rest) = read_u32(total, rest)?;
    let (marks, rest) = read_marks(alloc, total, threads, thread, accesses, count, rest)?;
    let marks = List::from_vec(marks);
    Ok((ThreadLog { accesses, marks }, rest))
}

fn read_threads(
    alloc: Global,
    total: usize,
    threads: u8,
    bytes: &[u8],
) -> Result<(Vec<ThreadLog>, &[u8]), LogFault>
    requires { length bytes.now ≤ total }
    ensures judged { Gives (λ x. (x.0.items, x.1.now)) result (threads_at total threads bytes.now) }
    ensures shorter { IfOk result (λ x. length x.1.now ≤ length bytes.now) }
{
    let mut logs = Vec::new(alloc);
    let mut before = 0;
    let mut rest = bytes;
    for thread in 0..threads {
        let (log, after) = read_thread(alloc, total, threads, thread, before, rest)?;
        before += u64::from(log.accesses);
        logs.push(log)?;
        rest = after;
    }
    Ok((logs, rest))
}

#[tactic(auto, unfolding(crate::specs::v1::Decoding::body_at))]
fn read_body(alloc: Global, total: usize, bytes: &[u8]) -> Result<Vec<ThreadLog>, LogFault>
    requires { length bytes.now ≤ total }
    ensures { Gives (λ logs. logs.items) result (body_at total bytes.now) }
{
    let (version, rest) = read_u8(total, bytes)?;
    if version != VERSION {
        return Err(LogCause::BadVersion.into());
    }
    let (threads, rest) = read_u8(total, rest)?;
    if threads < 1 || usize::from(threads) > MAX_THREADS {
        return Err(LogCause::BadThreads.into());
    }
    let (logs, rest) = read_threads(alloc, total, threads, rest)?;
    if !rest.is_empty() {
        let at = (total - rest.len()) as u64;
        return Err(LogCause::Trailing { at }.into());
    }
    Ok(logs)
}

/// The threads' logs that the bytes spell, all of them; else the first refusal from the front, with
/// its place. Room is taken for no more marks than the bytes can hold, whatever number they claim.
#[tactic(auto, unfolding(crate::specs::v1::Decoding::decoded))]
pub(crate) fn read_log(alloc: Global, bytes: &[u8]) -> Result<Vec<ThreadLog>, LogFault>
    ensures { Gives (λ logs. logs.items) result (decoded bytes.now) }
{
    let Some(rest) = bytes.strip_prefix(b"OCTL") else {
        return Err(LogCause::NoMagic.into());
    };
    read_body(alloc, bytes.len(), rest)
}
