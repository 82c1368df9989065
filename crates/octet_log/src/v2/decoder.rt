//! Bytes of version 2 as a log.
ghost use Rattle.std.specs.Prelude.{◌≡◌, ◌+◌, ◌≤◌, length, IfOk, nat_le, sum_by};
ghost use Rattle.octet_log.specs.Judging.{Gives};
ghost use Rattle.octet_log.specs.v2.Decoding.{digest_at, no_marks, pieces_at, tail_at, accesses_at, second_at};

use super::encoder::END;
use super::marks::read_piece;
use super::short::read_short;
use crate::field::{cut_short, read_u8};
use crate::{Digest, LogCause, LogFault};
use octet_model::{Gapped, List, MAX_ACCESSES, MAX_THREADS, OutOfMemory, ThreadLog};
use std::alloc::Global;

const DIGEST_LEN: usize = 32;

fn read_digest(total: usize, bytes: &[u8]) -> Result<(Digest, &[u8]), LogFault>
    ensures judged { Gives (λ x. (x.0.bytes, x.1.now)) result (digest_at total bytes.now) }
    ensures shorter { IfOk result (λ x. length x.1.now ≤ length bytes.now) }
{
    if bytes.len() < DIGEST_LEN {
        return Err(cut_short(total));
    }
    let (field, rest) = bytes.split_at(DIGEST_LEN);
    let mut bytes = [0; DIGEST_LEN];
    bytes.copy_from_slice(field);
    Ok((Digest { bytes }, rest))
}

// The logs of the threads before any piece.
fn empty_logs(alloc: Global, threads: u8) -> Result<Vec<ThreadLog>, OutOfMemory>
    ensures { IfOk result (λ logs. logs.items ≡ no_marks threads) }
{
    let mut logs = Vec::new(alloc);
    for _ in 0..threads {
        let marks = List::new(alloc);
        logs.push(ThreadLog { accesses: 0, marks })?;
    }
    Ok(logs)
}

// Adds the marks of the pieces up to the byte that ends them.
fn read_pieces<'a>(
    alloc: Global,
    total: usize,
    threads: u8,
    logs: &mut Vec<ThreadLog>,
    bytes: &'a [u8],
) -> Result<&'a [u8], LogFault>
    requires within { length bytes.now ≤ total }
    requires logs { length logs.old.items ≡ threads }
    ensures judged { Gives (λ rest. (logs.new.items, rest.now)) result (pieces_at (length bytes.now) total threads 0 logs.old.items bytes.now) }
    ensures shorter { IfOk result (λ rest. length rest.now ≤ length bytes.now) }
    ensures length { length logs.new.items ≡ length logs.old.items }
{
    let mut before = 0;
    let mut rest = bytes;
    for _ in 0..bytes.len() {
        let (thread, after) = read_u8(total, rest)?;
        if thread == END {
            return Ok(after);
        }
        let place = total - rest.len();
        if thread >= threads {
            return Err(LogCause::BadPiece { at: place as u64 }.into());
        }
        let log = &mut logs[usize::from(thread)];
        let (count, after) = read_piece(
            alloc,
            total,
            threads,
            place,
            thread,
            before,
            &mut log.marks,
            after,
        )?;
        before += count;
        rest = after;
    }
    Err(cut_short(total))
}

// Whether the gaps of the marks sum to at most the accesses.
fn are_within(marks: &[Gapped], accesses: u32) -> bool
    ensures { result ≡ nat_le (sum_by (λ m. m.gap) marks.now) accesses }
{
    let mut left = accesses;
    for gapped in marks {
        if gapped.gap > left {
            return false;
        }
        left -= gapped.gap;
    }
    true
}

// Gives the thread its accesses, after threads with that many before.
#[tactic(auto, unfolding(crate::specs::v2::Decoding::accesses_at))]
fn read_accesses<'a>(
    total: usize,
    thread: u8,
    before: u32,
    log: &mut ThreadLog,
    bytes: &'a [u8],
) -> Result<&'a [u8], LogFault>
    requires within { length bytes.now ≤ total }
    requires before { before ≤ MAX_ACCESSES }
    ensures judged { Gives (λ rest. (log.new, rest.now)) result (accesses_at total thread before log.old bytes.now) }
    ensures shorter { IfOk result (λ rest. length rest.now ≤ length bytes.now) }
    ensures sum { IfOk result (λ rest. before + log.new.accesses ≤ MAX_ACCESSES) }
{
    let (accesses, rest) = read_short(total, bytes)?;
    if accesses > u64::from(MAX_ACCESSES - before) {
        return Err(LogCause::TooManyAccesses.into());
    }
    let accesses = accesses as u32;
    if !are_within(log.marks.as_slice(), accesses) {
        return Err(LogCause::GapsOver { thread }.into());
    }
    log.accesses = accesses;
    Ok(rest)
}

// Gives the threads their accesses.
fn read_tail<'a>(
    total: usize,
    threads: u8,
    logs: &mut Vec<ThreadLog>,
    bytes: &'a [u8],
) -> Result<&'a [u8], LogFault>
    requires within { length bytes.now ≤ total }
    requires logs { length logs.old.items ≡ threads }
    ensures judged { Gives (λ rest. (logs.new.items, rest.now)) result (tail_at total 0 0 logs.old.items bytes.now) }
    ensures shorter { IfOk result (λ rest. length rest.now ≤ length bytes.now) }
{
    let mut before = 0;
    let mut rest = bytes;
    for thread in 0..threads {
        let log = &mut logs[usize::from(thread)];
        rest = read_accesses(total, thread, before, log, rest)?;
        before += log.accesses;
    }
    Ok(rest)
}

/// What stands behind the version 2: the threads' logs and the digest that the bytes spell.
#[tactic(auto, unfolding(crate::specs::v2::Decoding::second_at))]
pub(crate) fn read_log(
    alloc: Global,
    total: usize,
    bytes: &[u8],
) -> Result<(Vec<ThreadLog>, Digest), LogFault>
    requires { length bytes.now ≤ total }
    ensures { Gives (λ x. (x.0.items, x.1.bytes)) result (second_at total bytes.now) }
{
    let (threads, rest) = read_u8(total, bytes)?;
    if threads < 1 || usize::from(threads) > MAX_THREADS {
        return Err(LogCause::BadThreads.into());
    }
    let (digest, rest) = read_digest(total, rest)?;
    let mut logs = empty_logs(alloc, threads)?;
    let rest = read_pieces(alloc, total, threads, &mut logs, rest)?;
    let rest = read_tail(total, threads, &mut logs, rest)?;
    if !rest.is_empty() {
        let at = (total - rest.len()) as u64;
        return Err(LogCause::Trailing { at }.into());
    }
    Ok((logs, digest))
}
