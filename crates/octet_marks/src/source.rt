//! Where the number of a mark comes from.
ghost use Rattle.std.specs.Prelude.{◌≡◌};
ghost use Rattle.octet_marks.specs.Marks.{source_of, number_of, mark_from, last_number};

use octet_model::{Gapped, MAX_THREADS, Mark};

/// The source of draws. A smaller one is the thread that a Join names.
pub(crate) const DRAW: u8 = 16;

/// The source of fences.
pub(crate) const FENCE: u8 = 17;

pub(crate) fn source_of(mark: Mark) -> u8
    ensures { result ≡ source_of mark }
{
    match mark {
        Mark::Join { from, .. } => from,
        Mark::Draw { .. } => DRAW,
        Mark::Fence { .. } => FENCE,
    }
}

pub(crate) fn number_of(mark: Mark) -> u64
    ensures { result ≡ number_of mark }
{
    match mark {
        Mark::Join { upto, .. } => upto,
        Mark::Draw { number } | Mark::Fence { number } => number,
    }
}

/// The mark with this source and this number, if the source is one.
pub(crate) fn mark_from(source: u8, number: u64) -> Option<Mark>
    ensures { result ≡ mark_from source number }
{
    if usize::from(source) < MAX_THREADS {
        return Some(Mark::Join {
            from: source,
            upto: number,
        });
    }
    match source {
        DRAW => Some(Mark::Draw { number }),
        FENCE => Some(Mark::Fence { number }),
        _ => None,
    }
}

/// The number of the last of the marks with this source, or 0 if there is none.
pub(crate) fn last_number(source: u8, marks: &[Gapped]) -> u64
    ensures { result ≡ last_number source 0 marks.now }
{
    let mut left = marks.len();
    while left > 0 {
        left -= 1;
        let mark = marks[left].mark;
        if source_of(mark) == source {
            return number_of(mark);
        }
    }
    0
}
