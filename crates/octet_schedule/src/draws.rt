//! Numbers drawn for a schedule, each by a sequence of its own.
ghost use Rattle.std.specs.Prelude.{◌≡◌, ◌<◌, ◌%◌};
ghost use Rattle.octet_schedule.specs.Draws.{drawn, next_draws};

use rand_core::SeedableRng;
use rand_core::utils::NextWord;
use rand_xoshiro::SplitMix64;

/// A sequence of numbers.
#[derive(Drop)]
pub struct Draws {
    generator: SplitMix64,
}

impl Draws {
    /// The sequence of a number.
    pub fn new(number: u64) -> Draws
        ensures { result.generator ≡ number }
    {
        Draws {
            generator: SplitMix64::seed_from_u64(number),
        }
    }

    /// The next number, below this one.
    #[tactic(auto, unfolding(crate::specs::Draws::drawn, crate::specs::Draws::next_draws))]
    pub fn below(&mut self, end: u64) -> u64
        requires { 0 < end }
        ensures below { result < end }
        ensures drawn { result ≡ drawn self.old.generator % end }
        ensures next { self.new.generator ≡ next_draws self.old.generator }
    {
        self.generator.next_word() % end
    }
}
