//! The fronts between which the last accesses lie.
ghost use Rattle.std.specs.Prelude.{◌≡◌, ◌-◌, length};
ghost use Rattle.octet_tail.specs.Places.{come_at};
ghost use Rattle.octet_tail.specs.Marks.{own_of};

use crate::merging::made_by;
use crate::placed::Placed;
use crate::places::Places;
use octet_model::List;
use octet_window::Front;

/// Accesses of a thread, counted from 0: from one on, up to before another one.
#[derive(Clone, Copy, Debug, PartialEq, Eq)]
pub struct Span {
    pub from: u64,
    pub upto: u64,
}

/// The fronts between which the last accesses lie.
#[derive(Drop)]
pub struct Fronts {
    /// Before the last accesses.
    pub before: Front,
    /// Behind all accesses.
    pub behind: Front,
    /// The marks after the first front, as far as they were noted.
    pub marks: List<Placed>,
    // How far each thread has come with all marks.
    pub(crate) places: Places,
}

// How many of these marks the thread has.
fn count_of(marks: &[Placed], thread: u8) -> u64
    ensures { result ≡ length (own_of thread marks.now) }
{
    let mut count = 0;
    for placed in marks {
        if placed.thread == thread {
            count += 1;
        }
    }
    count
}

impl Fronts {
    ghost use Rattle.octet_tail.specs.Between.{IsSpan};

    // How many marks of the thread the first front has.
    fn marks_before(&self, thread: u8) -> u64
        ensures { result ≡ (come_at self.now.places thread).events - (come_at self.now.places thread).accesses - length (own_of thread self.now.marks) }
    {
        let come = self.places.come(thread);
        come.events
            .saturating_sub(come.accesses)
            .saturating_sub(count_of(self.marks.as_slice(), thread))
    }

    /// The accesses of a thread after the first front, which has made so many.
    pub fn span(&self, thread: u8, made: u64) -> Span
        ensures { IsSpan self.now thread made result }
    {
        let before = made_by(&self.before, thread);
        Span {
            from: before.saturating_sub(self.marks_before(thread)),
            upto: made,
        }
    }
}
