//! What C names by numbers.
ghost use Rattle.std.specs.Prelude.{◌≡◌, slice_get};
ghost use Rattle.octet_c.specs.Names.{changes, access_named, update_named};

use octet_recorder::{Access, Change};

/// A read, or a write of the value: modes 0 and 1.
#[inline(always)]
pub(crate) fn access_of(mode: u8, object: u16, value: u64) -> Option<Access>
    ensures { result ≡ access_named mode object value }
{
    match mode {
        0 => Some(Access::Read { object }),
        1 => Some(Access::Write { object, value }),
        _ => None,
    }
}

// The change of a number, if there is one. Only a compare-exchange has an expected value.
#[inline(always)]
fn change_of(number: u8, operand: u64, expected: u64) -> Option<Change>
    ensures { result ≡ slice_get (changes operand expected) number }
{
    let new = operand;
    match number {
        0 => Some(Change::Add(operand)),
        1 => Some(Change::Sub(operand)),
        2 => Some(Change::Swap(operand)),
        3 => Some(Change::CompareExchange { expected, new }),
        4 => Some(Change::And(operand)),
        5 => Some(Change::Or(operand)),
        6 => Some(Change::Xor(operand)),
        7 => Some(Change::Max(operand)),
        8 => Some(Change::Min(operand)),
        _ => None,
    }
}

/// An update of the object by the change of this number.
#[inline(always)]
pub(crate) fn update_of(number: u8, object: u16, operand: u64, expected: u64) -> Option<Access>
    ensures { result ≡ update_named number object operand expected }
{
    let change = change_of(number, operand, expected)?;
    Some(Access::Update { object, change })
}
