//! What a thread waits for.
ghost use Rattle.std.specs.Prelude.{◌≡◌};
ghost use Rattle.octet_model.specs.Machine.{Wants, MakeMark};
ghost use Rattle.octet_replay.specs.Threads.{need_of};

use octet_model::Mark;

/// What a thread waits for before its next step. Counts only grow, so a need that is met stays
/// met, but for `DrawsAre`.
#[derive(Clone, Copy, Debug, PartialEq, Eq)]
pub enum Need {
    /// Nothing: the thread may step.
    Free,
    /// The thread `of` has made at least `count` events.
    Events { of: u8, count: u64 },
    /// Exactly `count` draws were made.
    DrawsAre { count: u64 },
    /// At least `count` draws were made.
    DrawsReach { count: u64 },
    /// Nothing will do: the thread has no next step.
    Never,
}

impl Need {
    /// What a thread waits for that is to make the mark: at a `Join` for the events of the thread
    /// that it names, at a `Draw` for its turn, and at a `Fence` for the draw of its number.
    pub fn of_mark(mark: Mark) -> Need
        ensures { result ≡ need_of (Wants (MakeMark mark)) }
    {
        match mark {
            Mark::Join { from, upto } => Need::Events {
                of: from,
                count: upto,
            },
            Mark::Draw { number } => {
                if number == 0 {
                    return Need::Never;
                }
                Need::DrawsAre { count: number - 1 }
            }
            Mark::Fence { number } => Need::DrawsReach { count: number },
        }
    }
}
