//! Where to look first for what is kept once.
ghost use Rattle.std.specs.Prelude.{◌≡◌, true};

/// A number of which rows are made.
pub(crate) trait Number: Copy {
    /// Whether two rows are the same.
    fn are_equal(row: &[Self], other: &[Self]) -> bool
        ensures { result ≡ true → row.now ≡ other.now };

    /// The number, to be stirred into a hash.
    fn word(self) -> u64;
}

impl Number for u32 {
    fn are_equal(row: &[u32], other: &[u32]) -> bool {
        row == other
    }

    fn word(self) -> u64 {
        u64::from(self)
    }
}

impl Number for u64 {
    fn are_equal(row: &[u64], other: &[u64]) -> bool {
        row == other
    }

    fn word(self) -> u64 {
        self
    }
}

/// Stirs one more word into a hash.
pub(crate) fn stirred(hash: u64, word: u64) -> u64 {
    let mixed = (hash ^ word).wrapping_mul(0x9E37_79B9_7F4A_7C15);
    mixed ^ (mixed >> 29)
}

/// The hash of these numbers.
pub(crate) fn hash_of<N: Number>(numbers: &[N]) -> u64 {
    let mut hash = 0;
    for at in 0..numbers.len() {
        hash = stirred(hash, numbers[at].word());
    }
    hash
}
