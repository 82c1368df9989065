//! Fields at the front of some bytes, and at the end of others.
ghost use Rattle.std.specs.Prelude.{◌≡◌, ◌≤◌, ◌<◌, ◌++◌, length, IfSome, OnOk};
ghost use Rattle.std.specs.Option.{option_map};
ghost use Rattle.std.specs.Int.{w32, w64, to_be_bytes};
ghost use Rattle.octet_log.specs.v2.Short.{short_bytes};
ghost use Rattle.octet_marks.specs.Fields.{byte_at, bytes_at, number_at, groups_at, short_at};

use byteorder::{BigEndian, ByteOrder};
use octet_model::OutOfMemory;

/// Groups of a short number of 64 bits behind its first.
const MORE_GROUPS: u8 = 9;

pub(crate) fn read_u8(bytes: &[u8]) -> Option<(u8, &[u8])>
    ensures { option_map (λ x. (x.0, x.1.now)) result ≡ byte_at bytes.now }
{
    match bytes {
        [] => None,
        [byte, rest @ ..] => Some((*byte, rest)),
    }
}

pub(crate) fn read_bytes(count: usize, bytes: &[u8]) -> Option<(&[u8], &[u8])>
    ensures read { option_map (λ x. (x.0.now, x.1.now)) result ≡ bytes_at count bytes.now }
    ensures length { IfSome result (λ x. length x.0.now ≡ count) }
{
    if bytes.len() < count {
        return None;
    }
    Some(bytes.split_at(count))
}

pub(crate) fn read_u32(bytes: &[u8]) -> Option<(u32, &[u8])>
    ensures { option_map (λ x. (x.0, x.1.now)) result ≡ number_at w32 bytes.now }
{
    let (field, rest) = read_bytes(4, bytes)?;
    Some((BigEndian::read_u32(field), rest))
}

pub(crate) fn read_u64(bytes: &[u8]) -> Option<(u64, &[u8])>
    ensures { option_map (λ x. (x.0, x.1.now)) result ≡ number_at w64 bytes.now }
{
    let (field, rest) = read_bytes(8, bytes)?;
    Some((BigEndian::read_u64(field), rest))
}

// A number in at most one group more than `more`.
#[tactic(auto, unfolding(crate::specs::Fields::groups_at))]
fn read_groups(more: u8, bytes: &[u8]) -> Option<(u64, &[u8])>
    ensures { option_map (λ x. (x.0, x.1.now)) result ≡ groups_at more bytes.now }
{
    let (byte, rest) = read_u8(bytes)?;
    if byte < 128 {
        return Some((u64::from(byte), rest));
    }
    if more == 0 {
        return None;
    }
    let (higher, rest) = read_groups(more - 1, rest)?;
    if higher < 1 || higher >= 1 << 57 {
        return None;
    }
    Some((u64::from(byte - 128) + 128 * higher, rest))
}

pub(crate) fn read_short(bytes: &[u8]) -> Option<(u64, &[u8])>
    ensures { option_map (λ x. (x.0, x.1.now)) result ≡ short_at bytes.now }
{
    read_groups(MORE_GROUPS, bytes)
}

pub(crate) fn push_u32(out: &mut Vec<u8>, number: u32) -> Result<(), OutOfMemory>
    ensures { OnOk result (out.new.items ≡ out.old.items ++ to_be_bytes w32 number) }
{
    let mut field = [0; 4];
    BigEndian::write_u32(&mut field, number);
    out.extend_from_slice(&field)?;
    Ok(())
}

pub(crate) fn push_u64(out: &mut Vec<u8>, number: u64) -> Result<(), OutOfMemory>
    ensures { OnOk result (out.new.items ≡ out.old.items ++ to_be_bytes w64 number) }
{
    let mut field = [0; 8];
    BigEndian::write_u64(&mut field, number);
    out.extend_from_slice(&field)?;
    Ok(())
}

pub(crate) fn push_short(out: &mut Vec<u8>, number: u64) -> Result<(), OutOfMemory>
    ensures { OnOk result (out.new.items ≡ out.old.items ++ short_bytes number) }
{
    let mut left = number;
    for _ in 0..MORE_GROUPS {
        if left < 128 {
            out.push(left as u8)?;
            return Ok(());
        }
        out.push((left % 128) as u8 + 128)?;
        left /= 128;
    }
    out.push(left as u8)?;
    Ok(())
}
