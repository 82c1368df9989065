//! Whether the marks of a log let all its events be made, whatever the script.
ghost use Rattle.std.specs.Prelude.{◌≡◌, ◌<◌, ◌≤◌, ◌^◌, ◌↔◌, ℕ, suc, [], true, false, length, slice_get, Some, IfOk, IsTrue};
ghost use Rattle.octet_model.specs.declared.limits.TheConstants.{MAX_ACCESSES};
ghost use Rattle.octet_model.specs.Orders.{event_total, thread_log_of};
ghost use Rattle.octet_replay.specs.Needs.{is_ready};
ghost use Rattle.octet_replay.specs.Threads.{need_of};
ghost use Rattle.octet_clock.specs.Following.{counted};
ghost use Rattle.octet_clock.specs.LogWalks.{next_by_progress, Advances, AreAccesses, AreFirstNeeds, HasMadeAll, HasProgress, WalksAt, WantsSome};
ghost use Rattle.octet_clock.specs.Untied.{IsUntied};

use octet_model::{Event, List, Log, OutOfMemory, ThreadLog};
use octet_replay::{Need, Waits, due_mark, is_draw};
use std::alloc::Global;

/// How far a thread has come in its log: how many marks and accesses it has made, and how many
/// accesses since its last mark.
#[derive(Clone, Copy)]
struct Progress {
    marks: usize,
    accesses: u32,
    gap: u32,
}

impl Progress {
    fn start() -> Progress
        ensures { HasProgress [] result }
    {
        Progress {
            marks: 0,
            accesses: 0,
            gap: 0,
        }
    }

    // What the thread waits for before its next event.
    #[inline(always)]
    fn need(&self, log: &ThreadLog) -> Need
        ensures { result ≡ need_of (next_by_progress log.now self.now) }
    {
        if let Some(mark) = due_mark(log, self.marks, self.gap) {
            return Need::of_mark(mark);
        }
        if self.accesses < log.accesses {
            Need::Free
        } else {
            Need::Never
        }
    }

    // How many accesses are next, before a mark or the end.
    #[inline(always)]
    fn accesses_ahead(&self, log: &ThreadLog) -> u32
        ensures { AreAccesses log.now self.now result }
    {
        let left = log.accesses.saturating_sub(self.accesses);
        match log.marks.get(self.marks) {
            Some(next) => left.min(next.gap.saturating_sub(self.gap)),
            None => left,
        }
    }

    // Makes the thread's next event, and answers whether it is a draw.
    #[inline(always)]
    fn advance(&mut self, log: &ThreadLog) -> bool
        requires wants { WantsSome log.now self.old }
        requires accesses { log.now.accesses ≤ MAX_ACCESSES }
        requires gap { self.old.gap ≤ self.old.accesses }
        requires marks { length log.now.marks < 2 ^ 32 }
        ensures { Advances log.now self.old self.new result }
    {
        let Some(mark) = due_mark(log, self.marks, self.gap) else {
            self.accesses += 1;
            self.gap += 1;
            return false;
        };
        self.marks += 1;
        self.gap = 0;
        is_draw(Event::Marked { mark })
    }

    // Whether nothing is left of the log.
    fn has_made_all(&self, log: &ThreadLog) -> bool
        ensures { IsTrue result ↔ HasMadeAll log.now self.now }
    {
        self.accesses >= log.accesses && self.marks >= log.marks.len()
    }
}

/// The threads of a log as far as they have come, and what each waits for.
#[derive(Drop)]
struct LogWalk {
    threads: Vec<Progress>,
    waits: Waits,
}

fn first_needs(alloc: Global, logs: &[ThreadLog]) -> Result<List<Need>, OutOfMemory>
    ensures { IfOk result (AreFirstNeeds logs.now) }
{
    let mut needs = List::new(alloc);
    for log in logs {
        needs.push(Progress::start().need(log))?;
    }
    Ok(needs)
}

impl LogWalk {
    fn new(alloc: Global, log: &Log) -> Result<LogWalk, OutOfMemory>
        ensures { IfOk result (WalksAt log.now.threads) }
    {
        let needs = first_needs(alloc, log.threads.as_slice())?;
        let threads = vec![in alloc; Progress::start(); log.threads.len()]?;
        Ok(LogWalk {
            threads,
            waits: Waits::new(alloc, &needs)?,
        })
    }

    // Makes all but one of the accesses that are next for a thread: they wait for nothing.
    #[inline(always)]
    fn skip(&mut self, log: &Log, thread: u8)
        requires at { WalksAt log.now.threads self.old }
        requires ready { is_ready self.old.waits thread ≡ true }
        ensures at { WalksAt log.now.threads self.new }
        ensures ready { is_ready self.new.waits thread ≡ true }
        ensures no_fewer { counted self.old.waits ≤ counted self.new.waits }
    {
        let of_log = &log.threads.as_slice()[thread as usize];
        let ahead = self.threads[thread as usize].accesses_ahead(of_log);
        if ahead < 2 {
            return;
        }
        let more = ahead - 1;
        let progress = &mut self.threads[thread as usize];
        progress.accesses += more;
        progress.gap += more;
        self.waits.count(thread, more as u64);
    }

    // Makes the next event of a thread that may step.
    #[inline(always)]
    fn step(&mut self, log: &Log, thread: u8)
        requires at { WalksAt log.now.threads self.old }
        requires ready { is_ready self.old.waits thread ≡ true }
        ensures at { WalksAt log.now.threads self.new }
        ensures within { counted self.new.waits ≤ event_total log.now.threads }
        ensures more { counted self.new.waits ≡ suc (counted self.old.waits) }
    {
        let of_log = &log.threads.as_slice()[thread as usize];
        let progress = &mut self.threads[thread as usize];
        let draw = progress.advance(of_log);
        let next = progress.need(of_log);
        self.waits.step(thread, draw, next);
    }

    // Goes on until no thread may step.
    fn run(&mut self, log: &Log)
        requires { WalksAt log.now.threads self.old }
        ensures at { WalksAt log.now.threads self.new }
        ensures halted { (thread : ℕ) → is_ready self.new.waits thread ≡ false }
    {
        while let Some(thread) = self.waits.lowest() {
            self.skip(log, thread);
            self.step(log, thread);
        }
    }

    // Whether nothing is left of any thread's log.
    fn has_made_all(&self, logs: &[ThreadLog]) -> bool
        requires { length self.now.threads.items ≡ length logs.now }
        ensures all { result ≡ true → (thread : ℕ) (p : Progress) → slice_get self.now.threads.items thread ≡ Some p → HasMadeAll (thread_log_of logs.now thread) p }
        ensures some { result ≡ false → (thread : ℕ) × (p : Progress) × (slice_get self.now.threads.items thread ≡ Some p) × ¬ HasMadeAll (thread_log_of logs.now thread) p }
    {
        for thread in 0..self.threads.len() {
            if !self.threads[thread].has_made_all(&logs[thread]) {
                return false;
            }
        }
        true
    }
}

/// Whether some list of steps makes all accesses and marks of the log, where each mark waits for
/// what it names and the accesses are those of any script. Only such a log can be replayed, and
/// of such a log each replay goes on until it ends or the script demands otherwise. Takes time in
/// proportion to the log's marks.
pub fn untied(alloc: Global, log: &Log) -> Result<bool, OutOfMemory>
    ensures { IfOk result (λ untied. IsTrue untied ↔ IsUntied log.now.threads) }
{
    let mut walk = LogWalk::new(alloc, log)?;
    walk.run(log);
    Ok(walk.has_made_all(log.threads.as_slice()))
}
