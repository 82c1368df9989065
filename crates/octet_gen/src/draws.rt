//! The sequence that scripts are drawn from.
ghost use Rattle.std.specs.Prelude.{◌≡◌, ◌/◌, ◌^◌};
ghost use Rattle.octet_gen.specs.Generated.{next_number};

// A linear congruential generator with the constants of Knuth's MMIX.
const MULTIPLIER: u64 = 6_364_136_223_846_793_005;

const INCREMENT: u64 = 1_442_695_040_888_963_407;

const SHIFT: u32 = 33;

/// A sequence of draws of 31 bits, by its last number.
#[derive(Drop)]
pub(crate) struct Draws {
    pub(crate) number: u64,
}

impl Draws {
    /// Goes on to the next number, and gives its upper bits.
    pub(crate) fn draw(&mut self) -> u64
        ensures number { self.new.number ≡ next_number self.old.number }
        ensures draw { result ≡ self.new.number / 2 ^ 33 }
    {
        self.number = self.number.wrapping_mul(MULTIPLIER).wrapping_add(INCREMENT);
        self.number >> SHIFT
    }
}
