//! Whether players of a log would wait for each other most of the time. This is an estimate: no contract rests on it.
use octet_model::{Log, Mark, OutOfMemory, ThreadLog};
use std::alloc::Global;

/// A log has many marks from so many on, where it has fewer events for each of them than this. Then
/// it is not looked at more closely.
const MANY_MARKS: u64 = 1024;

const EVENTS_FOR_A_MARK: u64 = 256;

/// A player that waits takes longer than one that plays alone. So threads are of use where at one pace
/// they would be through in this part of the time that one alone takes.
const TIMES_AS_QUICK: u64 = 2;

/// Fewer accesses than these are made before it would matter who makes them.
const FEW_ACCESSES: u64 = 4096;

/// One thread of a log whose threads make accesses at one pace, and marks at once.
#[derive(Drop)]
struct Runner {
    /// How many marks it has made.
    marks: usize,
    /// How many events it has made.
    made: u64,
    /// How many accesses it makes before its next mark, or its end.
    ahead: u64,
    /// How many it makes after that mark.
    rest: u64,
}

impl Runner {
    fn new(log: &ThreadLog) -> Runner {
        let mut runner = Runner {
            marks: 0,
            made: 0,
            ahead: 0,
            rest: u64::from(log.accesses),
        };
        runner.look_ahead(log);
        runner
    }

    fn look_ahead(&mut self, log: &ThreadLog) {
        self.ahead = match log.marks.get(self.marks) {
            Some(next) => u64::from(next.gap),
            None => self.rest,
        };
        self.rest = self.rest.saturating_sub(self.ahead);
    }

    // The mark that is its next event, if one is.
    fn next_mark(&self, log: &ThreadLog) -> Option<Mark> {
        if self.ahead > 0 {
            return None;
        }
        Some(log.marks.get(self.marks)?.mark)
    }

    fn pass(&mut self, log: &ThreadLog) {
        self.marks = self.marks.saturating_add(1);
        self.made = self.made.saturating_add(1);
        self.look_ahead(log);
    }

    fn run(&mut self, ticks: u64) {
        let accesses = self.ahead.min(ticks);
        self.made = self.made.saturating_add(accesses);
        self.ahead = self.ahead.saturating_sub(accesses);
    }
}

/// The threads of a log at one pace.
#[derive(Drop)]
struct Race {
    runners: Vec<Runner>,
    draws: u64,
    ticks: u64,
}

impl Race {
    fn new(alloc: Global, log: &Log) -> Result<Race, OutOfMemory> {
        let mut runners = Vec::new(alloc);
        for thread in log.threads.as_slice() {
            runners.push(Runner::new(thread))?;
        }
        Ok(Race {
            runners,
            draws: 0,
            ticks: 0,
        })
    }

    // For how many events the mark has to wait, where they are accesses that come at this pace.
    fn lacks(&self, mark: Mark) -> Option<u64> {
        match mark {
            Mark::Join { from, upto } => {
                let other = self.runners.get(from as usize)?;
                let lacks = upto.saturating_sub(other.made);
                if lacks > 0 && other.ahead == 0 {
                    return None;
                }
                Some(lacks)
            }
            Mark::Draw { number } if number > self.draws.saturating_add(1) => None,
            Mark::Fence { number } if number > self.draws => None,
            Mark::Draw { .. } | Mark::Fence { .. } => Some(0),
        }
    }

    // Makes the thread's next event, where it is a mark that need not wait. Tells whether it was.
    fn pass_one(&mut self, thread: usize, log: &ThreadLog) -> bool {
        let Some(runner) = self.runners.get(thread) else {
            return false;
        };
        let Some(mark) = runner.next_mark(log) else {
            return false;
        };
        if self.lacks(mark) != Some(0) {
            return false;
        }
        if let Mark::Draw { number } = mark {
            self.draws = number;
        }
        if let Some(runner) = self.runners.get_mut(thread) {
            runner.pass(log);
        }
        true
    }

    // Makes one mark of each thread where it need not wait. Tells whether there was one.
    fn pass_some(&mut self, log: &Log) -> bool {
        let mut some = false;
        let threads = log.threads.as_slice();
        for thread in 0..threads.len() {
            some = self.pass_one(thread, &threads[thread]) || some;
        }
        some
    }

    // For how many ticks no thread comes to a mark, and no mark need not wait any more. None where no thread runs.
    fn until_next(&self, log: &Log) -> Option<u64> {
        let mut least: Option<u64> = None;
        let threads = log.threads.as_slice();
        for thread in 0..threads.len() {
            let runner = self.runners.get(thread)?;
            let ticks = match runner.next_mark(&threads[thread]) {
                Some(mark) => self.lacks(mark),
                None if runner.ahead > 0 => Some(runner.ahead),
                None => None,
            };
            least = match (least, ticks) {
                (Some(one), Some(other)) => Some(one.min(other)),
                (one, other) => one.or(other),
            };
        }
        least
    }

    // Makes marks that need not wait, or lets all threads run to the next mark. Tells whether any went on.
    fn go_on(&mut self, log: &Log) -> bool {
        if self.pass_some(log) {
            return true;
        }
        let Some(ticks) = self.until_next(log) else {
            return false;
        };
        for thread in 0..self.runners.len() {
            if let Some(runner) = self.runners.get_mut(thread) {
                runner.run(ticks);
            }
        }
        self.ticks = self.ticks.saturating_add(ticks);
        true
    }
}

/// Whether most players of a log would wait for others most of the time: where it has many marks, or where its threads
/// at one pace would be through hardly sooner than one that makes all their events.
pub(crate) fn waits_mostly(alloc: Global, log: &Log) -> Result<bool, OutOfMemory> {
    let mut accesses: u64 = 0;
    let mut marks: u64 = 0;
    for thread in log.threads.as_slice() {
        accesses = accesses.saturating_add(u64::from(thread.accesses));
        marks = marks.saturating_add(thread.marks.len() as u64);
    }
    let events = accesses.saturating_add(marks);
    if marks >= MANY_MARKS && events <= marks.saturating_mul(EVENTS_FOR_A_MARK) {
        return Ok(true);
    }
    if accesses < FEW_ACCESSES {
        return Ok(false);
    }
    let mut race = Race::new(alloc, log)?;
    // Each step makes a mark, or has a thread come to one, or to its end, or has a mark wait no more.
    let steps = marks
        .saturating_mul(3)
        .saturating_add(log.threads.len() as u64);
    for _ in 0..steps {
        if !race.go_on(log) {
            break;
        }
    }
    Ok(race.ticks.saturating_mul(TIMES_AS_QUICK) > accesses)
}
