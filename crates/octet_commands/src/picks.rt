//! Picks: hexadecimal digits, each of which gives a thread a turn.
ghost use Rattle.std.specs.Prelude.{◌≡◌, map, IfOk};
ghost use Rattle.std.specs.List.{list_all};
ghost use Rattle.std.specs.Char.{digit_value, is_ascii_hexdigit};
ghost use Rattle.octet_commands.specs.Picks.{are_picks};

use octet_model::{MAX_PICKS, OutOfMemory};
use std::alloc::Global;

// The value of a digit or a letter: 0 to 9, and 10 to 35 in either case.
fn digit_value(byte: u8) -> u8
    ensures { result ≡ digit_value byte }
{
    match byte {
        b'0'..=b'9' => byte - b'0',
        b'a'..=b'z' => byte - b'a' + 10,
        b'A'..=b'Z' => byte - b'A' + 10,
        _ => 36,
    }
}

/// Whether a word is picks: 1 to 65,536 hexadecimal digits, in either case.
pub(crate) fn are_picks(word: &str) -> bool
    ensures { result ≡ are_picks word.now }
{
    let digits = word.as_bytes();
    !digits.is_empty() && digits.len() <= MAX_PICKS && are_hexadecimal(digits)
}

fn are_hexadecimal(digits: &[u8]) -> bool
    ensures { result ≡ list_all is_ascii_hexdigit digits.now }
{
    digits.iter().all(|digit| digit.is_ascii_hexdigit())
}

/// The values of the digits.
pub fn picks_of(alloc: Global, word: &str) -> Result<Vec<u8>, OutOfMemory>
    ensures { IfOk result (λ picks. picks.items ≡ map digit_value word.now) }
{
    let picks = word.bytes().map(digit_value).collect::<Vec<u8>>(alloc)?;
    Ok(picks)
}
