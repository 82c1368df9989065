//! What an update makes of the value that it finds.
ghost use Rattle.std.specs.Prelude.{◌≡◌};
ghost use Rattle.octet_rule.specs.Changes.{changed_by, amount_by};

/// What an update makes of the value that it finds: each read-modify-write of Rust's `AtomicU64`
/// (<https://doc.rust-lang.org/std/sync/atomic/struct.AtomicU64.html>), by the name that it has there. Each
/// answers the value that it found. None is refused: a compare-exchange that finds another value than it
/// expects is an update that leaves the value as it is.
#[derive(Clone, Copy, Debug, PartialEq, Eq)]
pub enum Change {
    /// `fetch_add`: adds the amount, modulo 2^64.
    Add(u64),
    /// `fetch_sub`: subtracts the amount, modulo 2^64.
    Sub(u64),
    /// `swap`: stores the value.
    Swap(u64),
    /// `compare_exchange`: stores the new value where it finds the expected one. Where it finds another, that
    /// one stays. It has stored the new one exactly where it answers the expected one.
    CompareExchange { expected: u64, new: u64 },
    /// `fetch_and`: keeps the bits that the mask has too.
    And(u64),
    /// `fetch_or`: sets the bits of the mask.
    Or(u64),
    /// `fetch_xor`: turns the bits of the mask.
    Xor(u64),
    /// `fetch_max`: stores the value where it is greater than the one found, both without a sign.
    Max(u64),
    /// `fetch_min`: stores the value where it is less than the one found, both without a sign.
    Min(u64),
}

impl Change {
    /// What it makes of a value.
    #[inline(always)]
    pub fn changed(&self, value: u64) -> u64
        ensures { result ≡ changed_by self.now value }
    {
        match *self {
            Change::Add(amount) => value.wrapping_add(amount),
            Change::Sub(amount) => value.wrapping_sub(amount),
            Change::Swap(new) => new,
            Change::CompareExchange { expected, new } => {
                if value == expected { new } else { value }
            }
            Change::And(mask) => value & mask,
            Change::Or(mask) => value | mask,
            Change::Xor(mask) => value ^ mask,
            Change::Max(other) => value.max(other),
            Change::Min(other) => value.min(other),
        }
    }

    /// The amount that leads from a value to what it makes of it, modulo 2^64: that of a `bump`.
    #[inline]
    pub fn amount(&self, value: u64) -> u64
        ensures { result ≡ amount_by self.now value }
    {
        self.changed(value).wrapping_sub(value)
    }
}
