//! The frame of a piece.
ghost use Rattle.std.specs.Prelude.{◌≡◌, ◌++◌, ◌≤◌, length, IfOk, IfSome};
ghost use Rattle.std.specs.Option.{option_map};
ghost use Rattle.octet_marks.specs.Judging.{Gives};
ghost use Rattle.octet_marks.specs.Frames.{checksum, frame_bytes, length_at, frame_at};

use crate::cause::ReadFault;
use crate::fields::push_u32;
use crate::{MAX_BODY, MarksCause};
use byteorder::{BigEndian, ByteOrder};
use octet_model::OutOfMemory;
use std::alloc::Global;

/// Bytes before the body: the kind, and the length twice.
const BEFORE_BODY: usize = 9;

/// Bytes of a checksum.
const CHECKSUM_LEN: usize = 8;

/// The first eight bytes of the SHA-256 of some bytes.
fn checksum(bytes: &[u8]) -> [u8; CHECKSUM_LEN]
    ensures { result ≡ checksum bytes.now }
{
    let digest = octet_log::digest(bytes);
    let (front, _) = digest.bytes.as_slice().split_at(CHECKSUM_LEN);
    BigEndian::read_u64(front).to_be_bytes()
}

// The length that eight bytes say twice.
#[tactic(auto, unfolding(crate::specs::Frames::length_at))]
fn read_length(field: &[u8]) -> Result<u32, ReadFault>
    requires { length field.now ≡ 8 }
    ensures judged { Gives (λ x. x) result (length_at field.now) }
    ensures few { IfOk result (λ x. x ≤ MAX_BODY) }
{
    let (once, again) = field.split_at(4);
    let body = BigEndian::read_u32(once);
    if body != BigEndian::read_u32(again) || body > MAX_BODY {
        return Err(MarksCause::BadLength.into());
    }
    Ok(body)
}

/// The kind and the body of the frame at the front, and how many bytes the frame has; nothing, if it is cut.
#[tactic(auto, unfolding(crate::specs::Frames::frame_at))]
pub(crate) fn read_frame(bytes: &[u8]) -> Result<Option<(u8, &[u8], usize)>, ReadFault>
    ensures judged { Gives (option_map (λ x. (x.0, x.1.now, x.2))) result (frame_at bytes.now) }
    ensures within { IfOk result (λ frame. IfSome frame (λ x. x.2 ≤ length bytes.now)) }
    ensures some_byte { IfOk result (λ frame. IfSome frame (λ x. 1 ≤ x.2)) }
{
    if bytes.len() < BEFORE_BODY {
        return Ok(None);
    }
    let (start, _) = bytes.split_at(BEFORE_BODY);
    let (_, lengths) = start.split_at(1);
    let body = read_length(lengths)? as usize;
    let size = BEFORE_BODY + body + CHECKSUM_LEN;
    if bytes.len() < size {
        return Ok(None);
    }
    let (front, rest) = bytes.split_at(BEFORE_BODY + body);
    let (field, _) = rest.split_at(CHECKSUM_LEN);
    let sum = checksum(front);
    if field != sum.as_slice() {
        return Err(MarksCause::BadChecksum.into());
    }
    let (_, body) = front.split_at(BEFORE_BODY);
    Ok(Some((bytes[0], body, size)))
}

/// The frame of a body.
pub(crate) fn frame(alloc: Global, kind: u8, body: &[u8]) -> Result<Vec<u8>, OutOfMemory>
    requires { length body.now ≤ MAX_BODY }
    ensures { IfOk result (λ bytes. bytes.items ≡ frame_bytes kind body.now) }
{
    let mut out = Vec::with_capacity(alloc, BEFORE_BODY + body.len() + CHECKSUM_LEN)?;
    out.push(kind)?;
    push_u32(&mut out, body.len() as u32)?;
    push_u32(&mut out, body.len() as u32)?;
    out.extend_from_slice(body)?;
    let sum = checksum(out.as_slice());
    out.extend_from_slice(&sum)?;
    Ok(out)
}
