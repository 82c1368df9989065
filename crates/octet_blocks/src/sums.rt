//! How many events a block has.
ghost use Rattle.std.specs.Prelude.{◌≡◌, ◌*◌, ◌^◌, ◌<◌, ◌≤◌, length, sum_by};
ghost use Rattle.std.specs.List.{AllByRecursion};
ghost use Rattle.octet_marks.specs.declared.limits.TheConstants.{MAX_BLOCK_MARKS};

use octet_model::Gapped;

/// The sum of the gaps of the marks of a block.
pub(crate) fn gaps_of(marks: &[Gapped]) -> u64
    requires { length marks.now ≤ MAX_BLOCK_MARKS }
    ensures sum { result ≡ sum_by (λ m. m.gap) marks.now }
    ensures few { result ≤ length marks.now * 2 ^ 32 }
    ensures fit { AllByRecursion (λ m. m.gap < 2 ^ 32) marks.now }
{
    let mut sum = 0;
    for gapped in marks {
        sum += u64::from(gapped.gap);
    }
    sum
}
