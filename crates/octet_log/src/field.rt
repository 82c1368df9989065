//! The fields of a log: bytes, and numbers with their highest byte first.
ghost use Rattle.std.specs.Prelude.{◌≡◌, ◌≤◌, ◌++◌, length, IfOk, OnOk};
ghost use Rattle.std.specs.Int.{w32, w64, to_be_bytes};
ghost use Rattle.octet_log.specs.Judging.{Gives, byte_at};
ghost use Rattle.octet_log.specs.v1.Decoding.{number_at};

use crate::{LogCause, LogFault};
use byteorder::{BigEndian, ByteOrder};
use octet_model::OutOfMemory;

/// Where the input ends, at which a field that goes past it is cut.
pub(crate) fn cut_short(total: usize) -> LogFault
    ensures { result ≡ LogFault.Refused (LogCause.CutShort total) }
{
    LogCause::CutShort { at: total as u64 }.into()
}

pub(crate) fn read_u8(total: usize, bytes: &[u8]) -> Result<(u8, &[u8]), LogFault>
    ensures judged { Gives (λ x. (x.0, x.1.now)) result (byte_at total bytes.now) }
    ensures shorter { IfOk result (λ x. length x.1.now ≤ length bytes.now) }
{
    match bytes {
        [] => Err(cut_short(total)),
        [byte, rest @ ..] => Ok((*byte, rest)),
    }
}

pub(crate) fn read_u32(total: usize, bytes: &[u8]) -> Result<(u32, &[u8]), LogFault>
    ensures judged { Gives (λ x. (x.0, x.1.now)) result (number_at w32 total bytes.now) }
    ensures shorter { IfOk result (λ x. length x.1.now ≤ length bytes.now) }
{
    if bytes.len() < 4 {
        return Err(cut_short(total));
    }
    let (field, rest) = bytes.split_at(4);
    Ok((BigEndian::read_u32(field), rest))
}

pub(crate) fn read_u64(total: usize, bytes: &[u8]) -> Result<(u64, &[u8]), LogFault>
    ensures judged { Gives (λ x. (x.0, x.1.now)) result (number_at w64 total bytes.now) }
    ensures shorter { IfOk result (λ x. length x.1.now ≤ length bytes.now) }
{
    if bytes.len() < 8 {
        return Err(cut_short(total));
    }
    let (field, rest) = bytes.split_at(8);
    Ok((BigEndian::read_u64(field), rest))
}

pub(crate) fn push_u32(out: &mut Vec<u8>, number: u32) -> Result<(), OutOfMemory>
    ensures { OnOk result (out.new.items ≡ out.old.items ++ to_be_bytes w32 number) }
{
    let mut field = [0; 4];
    BigEndian::write_u32(&mut field, number);
    out.extend_from_slice(&field)?;
    Ok(())
}

pub(crate) fn push_u64(out: &mut Vec<u8>, number: u64) -> Result<(), OutOfMemory>
    ensures { OnOk result (out.new.items ≡ out.old.items ++ to_be_bytes w64 number) }
{
    let mut field = [0; 8];
    BigEndian::write_u64(&mut field, number);
    out.extend_from_slice(&field)?;
    Ok(())
}
