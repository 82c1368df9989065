//! The bodies of the three kinds of pieces.
ghost use Rattle.std.specs.Prelude.{◌≡◌, ◌++◌, ◌*◌, length, IfOk, OnOk};
ghost use Rattle.std.specs.Option.{option_map};
ghost use Rattle.std.specs.Int.{w64, from_be_bytes, to_be_bytes};
ghost use Rattle.std.specs.List.{flat_map};
ghost use Rattle.octet_marks.specs.Bodies.{numbers_at, head_with, head_of, block_start, block_of, end_of};

use crate::fields::{push_u64, read_bytes, read_u8, read_u32, read_u64};
use crate::marks::read_marks;
use crate::{Block, End, Head, MAX_OBJECTS_OF_FILE};
use byteorder::{BigEndian, ByteOrder};
use octet_log::Digest;
use octet_model::{List, MAX_THREADS, OutOfMemory};
use std::alloc::Global;

/// Bytes of a starting value.
const START_LEN: usize = 8;

/// Bytes of a digest.
const DIGEST_LEN: usize = 32;

fn number_in(field: &[u8]) -> u64
    requires { length field.now ≡ 8 }
    ensures { result ≡ from_be_bytes w64 field.now }
{
    BigEndian::read_u64(field)
}

fn read_numbers(alloc: Global, count: usize, bytes: &[u8]) -> Result<List<u64>, OutOfMemory>
    requires { length bytes.now ≡ 8 * count }
    ensures { IfOk result (λ numbers. numbers ≡ numbers_at count bytes.now) }
{
    let mut numbers = Vec::with_capacity(alloc, count)?;
    let mut rest = bytes;
    for _ in 0..count {
        let (field, after) = rest.split_at(START_LEN);
        numbers.push(number_in(field))?;
        rest = after;
    }
    Ok(List::from_vec(numbers))
}

// The head with these threads and this digest, whose starting values the bytes spell.
#[tactic(auto, unfolding(crate::specs::Bodies::head_with))]
fn head_with(
    alloc: Global,
    threads: u8,
    declared: &[u8],
    bytes: &[u8],
) -> Result<Option<Head>, OutOfMemory>
    requires { length declared.now ≡ 32 }
    ensures { IfOk result (λ head. head ≡ head_with threads declared.now bytes.now) }
{
    let count = bytes.len() / START_LEN;
    if threads < 1 || usize::from(threads) > MAX_THREADS {
        return Ok(None);
    }
    if bytes.len() % START_LEN != 0 || count > MAX_OBJECTS_OF_FILE {
        return Ok(None);
    }
    let mut digest = [0; DIGEST_LEN];
    digest.copy_from_slice(declared);
    let starts = read_numbers(alloc, count, bytes)?;
    Ok(Some(Head {
        threads,
        starts,
        declared: Digest { bytes: digest },
    }))
}

/// The head that a body spells, if it spells one.
#[tactic(auto, unfolding(crate::specs::Bodies::head_of))]
pub(crate) fn read_head(alloc: Global, body: &[u8]) -> Result<Option<Head>, OutOfMemory>
    ensures { IfOk result (λ head. head ≡ head_of body.now) }
{
    let Some((threads, rest)) = read_u8(body) else {
        return Ok(None);
    };
    let Some((declared, rest)) = read_bytes(DIGEST_LEN, rest) else {
        return Ok(None);
    };
    head_with(alloc, threads, declared, rest)
}

// The block without its marks, and the bytes of the marks.
#[tactic(auto, unfolding(crate::specs::Bodies::block_start))]
fn read_start(alloc: Global, body: &[u8]) -> Option<(Block, &[u8])>
    ensures { option_map (λ x. (x.0, x.1.now)) result ≡ block_start body.now }
{
    let (thread, rest) = read_u8(body)?;
    let (first, rest) = read_u64(rest)?;
    let (gap, rest) = read_u32(rest)?;
    let (digest, rest) = read_u64(rest)?;
    let block = Block {
        thread,
        first,
        marks: List::new(alloc),
        gap,
        digest,
    };
    Some((block, rest))
}

/// The block that a body spells, if it spells one.
#[tactic(auto, unfolding(crate::specs::Bodies::block_of))]
pub(crate) fn read_block(alloc: Global, body: &[u8]) -> Result<Option<Block>, OutOfMemory>
    ensures { IfOk result (λ block. block ≡ block_of body.now) }
{
    let Some((block, rest)) = read_start(alloc, body) else {
        return Ok(None);
    };
    let Some(marks) = read_marks(alloc, rest)? else {
        return Ok(None);
    };
    Ok(Some(Block { marks, ..block }))
}

/// The end that a body spells, if it spells one.
#[tactic(auto, unfolding(crate::specs::Bodies::end_of))]
pub(crate) fn read_end(body: &[u8]) -> Option<End>
    ensures { result ≡ end_of body.now }
{
    let (thread, rest) = read_u8(body)?;
    let (events, rest) = read_u64(rest)?;
    if !rest.is_empty() {
        return None;
    }
    Some(End { thread, events })
}

pub(crate) fn push_starts(out: &mut Vec<u8>, starts: &[u64]) -> Result<(), OutOfMemory>
    ensures { OnOk result (out.new.items ≡ out.old.items ++ flat_map (to_be_bytes w64) starts.now) }
{
    for start in starts {
        push_u64(out, *start)?;
    }
    Ok(())
}
