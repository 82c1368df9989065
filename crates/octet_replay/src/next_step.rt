//! What is next for a thread that is replayed.
ghost use Rattle.std.specs.Prelude.{◌≡◌, length};
ghost use Rattle.octet_replay.specs.NextSteps.{as_next, AccessesWithin};
ghost use Rattle.octet_replay.specs.Threads.{need_of, next_event};

use crate::Need;
use octet_model::{Event, Mark};

/// What is next for a thread, by its log and by what it demands.
#[derive(Clone, Copy, Debug, PartialEq, Eq)]
pub enum NextStep {
    /// The log's next mark, which is due.
    Mark { mark: Mark },
    Read { object: u16 },
    Write { object: u16, value: u64 },
    /// An update that adds the amount, and wraps round.
    Bump { object: u16, amount: u64 },
    /// Nothing: the thread demands its end, and nothing is left of its log.
    Finished,
    /// Nothing: what the thread demands does not fit what is left of its log.
    NothingFits,
}

/// The next step of the lowest order: the thread that makes it, and what is next for that thread.
#[derive(Clone, Copy, Debug, PartialEq, Eq)]
pub struct LowestStep {
    pub thread: u8,
    pub next: NextStep,
}

impl NextStep {
    /// The event that is next, where a read would take its value from the heap now.
    #[inline(always)]
    pub fn event(self, heap: &[u64]) -> Option<Event>
        requires { AccessesWithin (length heap.now) self }
        ensures { result ≡ next_event (as_next self) heap.now }
    {
        match self {
            NextStep::Mark { mark } => Some(Event::Marked { mark }),
            NextStep::Read { object } => Some(Event::Read {
                object,
                value: heap[object as usize],
            }),
            NextStep::Write { object, value } => Some(Event::Write { object, value }),
            NextStep::Bump { object, amount } => {
                let before = heap[object as usize];
                Some(Event::Update {
                    object,
                    before,
                    after: before.wrapping_add(amount),
                })
            }
            NextStep::Finished | NextStep::NothingFits => None,
        }
    }

    /// What the thread waits for before it.
    #[inline(always)]
    pub(crate) fn need(self) -> Need
        ensures { result ≡ need_of (as_next self) }
    {
        match self {
            NextStep::Mark { mark } => Need::of_mark(mark),
            NextStep::Read { .. } | NextStep::Write { .. } | NextStep::Bump { .. } => Need::Free,
            NextStep::Finished | NextStep::NothingFits => Need::Never,
        }
    }
}
