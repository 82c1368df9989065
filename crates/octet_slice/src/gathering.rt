//! A past, gathered from the marks of a log alone.
ghost use Rattle.std.specs.Prelude.{◌≡◌, ◌<◌, ◌≤◌, ℕ, false, length, IfOk};
ghost use Rattle.octet_model.specs.Machine.{Journals, journal_of};
ghost use Rattle.octet_slice.specs.Gathering.{AreOfLog, HasDraws, HasMarks, GathersPast, IsPartOfPast, IsSettled};
ghost use Rattle.octet_slice.specs.code.Advancing.{Advances};
ghost use Rattle.octet_slice.specs.code.Reached.{gathered, nothing, raised, raised_by, with_searched, with_taken_in};

use crate::cursor::Cursor;
use octet_model::{Mark, OutOfMemory, ThreadLog};
use std::alloc::Global;

/// How much of a thread is gathered: how many first events, how far the marks among these were
/// taken in, and how far its marks were searched for draws that are gathered.
#[derive(Clone, Copy)]
pub(crate) struct Reach {
    pub(crate) count: u64,
    pub(crate) taken_in: Cursor,
    pub(crate) searched: Cursor,
}

/// What is gathered of each thread, and the number up to which draws lie in the past.
#[derive(Drop)]
pub(crate) struct Gathering {
    pub(crate) threads: Vec<Reach>,
    pub(crate) draws: u64,
}

impl Gathering {
    // At least this many first events of a thread.
    fn raise(&mut self, thread: usize, count: u64)
        ensures { gathered self.new ≡ raised (gathered self.old) thread count }
    {
        if thread >= self.threads.len() {
            return;
        }
        let known = self.threads[thread].count;
        self.threads[thread].count = known.max(count);
    }

    // What a mark has before it: of a Join the events that it names, of a Draw the draws before
    // it, and of a Fence the draws up to its number.
    fn take_in(&mut self, mark: Mark)
        ensures { gathered self.new ≡ raised_by (gathered self.old) mark }
    {
        match mark {
            Mark::Join { from, upto } => self.raise(from as usize, upto),
            Mark::Draw { number } => self.draws = self.draws.max(number.saturating_sub(1)),
            Mark::Fence { number } => self.draws = self.draws.max(number),
        }
    }

    fn move_taken_in(&mut self, thread: usize, cursor: Cursor)
        requires { thread < length self.old.threads.items }
        ensures { gathered self.new ≡ with_taken_in (gathered self.old) thread cursor }
    {
        self.threads[thread].taken_in = cursor;
    }

    fn move_searched(&mut self, thread: usize, cursor: Cursor)
        requires { thread < length self.old.threads.items }
        ensures { gathered self.new ≡ with_searched (gathered self.old) thread cursor }
    {
        self.threads[thread].searched = cursor;
    }

    // Takes in what the next mark has before it, if that mark is among the thread's gathered events.
    fn take_next(&mut self, logs: &[ThreadLog], thread: usize) -> bool
        requires here { thread < length self.old.threads.items }
        requires there { thread < length logs.now }
        ensures advances { Advances logs.now (gathered self.old) result (gathered self.new) }
        ensures settled { result ≡ false → (journals : Journals) (of now : ℕ) → AreOfLog journals logs.now → IsPartOfPast journals of now (gathered self.old) → HasMarks journals (gathered self.old) thread }
    {
        let reach = self.threads[thread];
        let Some(next) = reach.taken_in.next(&logs[thread]) else {
            return false;
        };
        if next.event >= reach.count {
            return false;
        }
        self.take_in(next.mark);
        self.move_taken_in(thread, reach.taken_in.past(next));
        true
    }

    // Searches past the next mark, unless that is a draw which is not known to lie in the past. One
    // that is known to is gathered, with the events before it. Where no draw lies in the past there is
    // nothing to search for.
    fn pass_next(&mut self, logs: &[ThreadLog], thread: usize) -> bool
        requires here { thread < length self.old.threads.items }
        requires there { thread < length logs.now }
        ensures advances { Advances logs.now (gathered self.old) result (gathered self.new) }
        ensures settled { result ≡ false → (journals : Journals) (of now : ℕ) → AreOfLog journals logs.now → IsPartOfPast journals of now (gathered self.old) → HasDraws journals (gathered self.old) thread }
    {
        if self.draws == 0 {
            return false;
        }
        let reach = self.threads[thread];
        let Some(next) = reach.searched.next(&logs[thread]) else {
            return false;
        };
        if let Mark::Draw { number } = next.mark {
            if number > self.draws {
                return false;
            }
            self.raise(thread, next.event + 1);
        }
        self.move_searched(thread, reach.searched.past(next));
        true
    }

    // Goes past all marks of a thread that can be passed now. False where there is none.
    fn pass_all(&mut self, logs: &[ThreadLog], thread: usize) -> bool
        requires here { thread < length self.old.threads.items }
        requires there { thread < length logs.now }
        ensures advances { Advances logs.now (gathered self.old) result (gathered self.new) }
        ensures settled { result ≡ false → (journals : Journals) (of now : ℕ) → AreOfLog journals logs.now → IsPartOfPast journals of now (gathered self.old) → IsSettled journals (gathered self.old) thread }
    {
        let mut has_passed = false;
        'taking: while self.take_next(logs, thread) {
            has_passed = true;
        }
        'searching: while self.pass_next(logs, thread) {
            has_passed = true;
        }
        has_passed
    }

    // Goes once over all threads, and past all marks that can be passed. False where there is none.
    fn advance(&mut self, logs: &[ThreadLog]) -> bool
        requires { length self.old.threads.items ≡ length logs.now }
        ensures advances { Advances logs.now (gathered self.old) result (gathered self.new) }
        ensures settled { result ≡ false → (journals : Journals) (of now : ℕ) → AreOfLog journals logs.now → IsPartOfPast journals of now (gathered self.old) → GathersPast journals of now (gathered self.new) }
    {
        let mut has_passed = false;
        for thread in 0..logs.len() {
            if self.pass_all(logs, thread) {
                has_passed = true;
            }
        }
        has_passed
    }
}

// Nothing of so many threads.
fn nothing(alloc: Global, threads: usize) -> Result<Gathering, OutOfMemory>
    ensures { IfOk result (λ none. gathered none ≡ nothing threads) }
{
    let none = Reach {
        count: 0,
        taken_in: Cursor::new(),
        searched: Cursor::new(),
    };
    Ok(Gathering {
        threads: vec![in alloc; none; threads]?,
        draws: 0,
    })
}

/// The past of a thread's first `now` events. Each mark is passed once as one of the events
/// gathered, and once in search of the draws among these.
pub(crate) fn gather(
    alloc: Global,
    logs: &[ThreadLog],
    thread: usize,
    now: u64,
) -> Result<Gathering, OutOfMemory>
    requires { thread < length logs.now }
    ensures many { IfOk result (λ past. length past.threads.items ≡ length logs.now) }
    ensures gathered { IfOk result (λ past. (journals : Journals) → AreOfLog journals logs.now → now ≤ length (journal_of journals thread) → GathersPast journals thread now (gathered past)) }
{
    let mut past = nothing(alloc, logs.len())?;
    past.raise(thread, now);
    while past.advance(logs) {}
    Ok(past)
}
