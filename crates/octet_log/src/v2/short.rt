//! Short numbers: groups of 7 bits, the lowest first.
ghost use Rattle.std.specs.Prelude.{◌≡◌, ◌≤◌, ◌<◌, ◌^◌, ◌++◌, length, IfOk, OnOk};
ghost use Rattle.octet_log.specs.Judging.{Gives};
ghost use Rattle.octet_log.specs.v2.Short.{short_bytes, groups_at, short_at};

use crate::field::read_u8;
use crate::{LogCause, LogFault};
use octet_model::OutOfMemory;

/// Groups of a number of 64 bits behind its first.
const MORE_GROUPS: u8 = 9;

pub(crate) fn push_short(out: &mut Vec<u8>, number: u64) -> Result<(), OutOfMemory>
    ensures { OnOk result (out.new.items ≡ out.old.items ++ short_bytes number) }
{
    let mut left = number;
    for _ in 0..MORE_GROUPS {
        if left < 128 {
            out.push(left as u8)?;
            return Ok(());
        }
        out.push((left % 128) as u8 + 128)?;
        left /= 128;
    }
    out.push(left as u8)?;
    Ok(())
}

fn bad_number(place: usize) -> LogFault
    ensures { result ≡ LogFault.Refused (LogCause.BadNumber place) }
{
    LogCause::BadNumber { at: place as u64 }.into()
}

// A number in at most one group more than `more`.
#[tactic(auto, unfolding(crate::specs::v2::Short::groups_at))]
fn read_groups(more: u8, total: usize, place: usize, bytes: &[u8]) -> Result<(u64, &[u8]), LogFault>
    ensures judged { Gives (λ x. (x.0, x.1.now)) result (groups_at more total place bytes.now) }
    ensures shorter { IfOk result (λ x. length x.1.now ≤ length bytes.now) }
{
    let (byte, rest) = read_u8(total, bytes)?;
    if byte < 128 {
        return Ok((u64::from(byte), rest));
    }
    if more == 0 {
        return Err(bad_number(place));
    }
    let (higher, rest) = read_groups(more - 1, total, place, rest)?;
    if higher < 1 || higher >= 1 << 57 {
        return Err(bad_number(place));
    }
    Ok((u64::from(byte - 128) + 128 * higher, rest))
}

// Most numbers have one group, which is answered before the recursion.
#[tactic(auto, unfolding(crate::specs::v2::Short::groups_at))]
pub(crate) fn read_short(total: usize, bytes: &[u8]) -> Result<(u64, &[u8]), LogFault>
    requires { length bytes.now ≤ total }
    ensures judged { Gives (λ x. (x.0, x.1.now)) result (short_at total bytes.now) }
    ensures shorter { IfOk result (λ x. length x.1.now ≤ length bytes.now) }
{
    let (byte, rest) = read_u8(total, bytes)?;
    if byte < 128 {
        return Ok((u64::from(byte), rest));
    }
    read_groups(MORE_GROUPS, total, total - bytes.len(), bytes)
}
