//! One thread as far as it is replayed.
ghost use Rattle.std.specs.Prelude.{◌≡◌, ◌<◌, ◌^◌, ℕ, suc, [], false, length, nat_lt, IfOk, OnOk, slice_get};
ghost use Rattle.octet_model.specs.Journals.{due_mark, next_access};
ghost use Rattle.octet_model.specs.Orders.{commands_of};
ghost use Rattle.octet_model.specs.Thread.{starting_configuration};
ghost use Rattle.octet_replay.specs.NextDemand.{demand_of, CountsAhead, IsDemandedNext, NamesObject};
ghost use Rattle.octet_replay.specs.NextSteps.{as_next, AccessesWithin};
ghost use Rattle.octet_replay.specs.Threads.{accesses_made, end_told, need_of, next_by_counts, values_of, Counted, DemandsWithin, Grown, HasRoomFor, IsReplayOf, StandsFor};

use crate::{Need, NextStep};
use octet_interp::{Config, Demand};
use octet_model::{End, Event, Mark, OutOfMemory, Script, ThreadLog};
use std::alloc::Global;

/// What a thread demands next: an access, or its end.
#[derive(Clone, Copy, Debug, PartialEq, Eq)]
pub(crate) enum NextDemand {
    Read { object: u16 },
    Write { object: u16, value: u64 },
    Bump { object: u16, amount: u64 },
    Ended { end: End },
}

/// One thread of a script as far as it is replayed: what it demands next, how many marks, accesses
/// and accesses since the last mark it made, and the values that it read. Its log is its caller's.
#[derive(Debug, Drop)]
pub struct ThreadReplay {
    pub(crate) config: Config,
    pub(crate) up_next: NextDemand,
    pub(crate) marks: usize,
    pub(crate) accesses: u32,
    gap: u32,
    reads: Vec<u64>,
}

// Asks a thread for its next access, or its end, and writes it where it is kept.
fn ask(config: &mut Config, next: &mut NextDemand)
    requires { config.old.waits ≡ false }
    ensures up_next { IsDemandedNext config.old.commands config.old.at next.new config.new }
    ensures names { NamesObject config.old.objects next.new }
    ensures commands { config.new.commands ≡ config.old.commands }
    ensures objects { config.new.objects ≡ config.old.objects }
    ensures regions { CountsAhead config.old config.new }
{
    loop {
        match config.next() {
            Demand::Read { object } => {
                *next = NextDemand::Read { object };
                return;
            }
            Demand::Write { object, value } => {
                *next = NextDemand::Write { object, value };
                return;
            }
            Demand::Bump { object, amount } => {
                *next = NextDemand::Bump { object, amount };
                return;
            }
            Demand::Safe | Demand::Pause => {}
            Demand::Ended { end } => {
                *next = NextDemand::Ended { end };
                return;
            }
        }
    }
}

/// The mark of a log that is next after a number of marks, where as many accesses as its gap were
/// made since the last of these.
#[inline(always)]
pub fn due_mark(log: &ThreadLog, marks: usize, gap: u32) -> Option<Mark>
    ensures { result ≡ due_mark (slice_get log.now.marks marks) gap }
{
    let next = log.marks.get(marks)?;
    if next.gap == gap {
        Some(next.mark)
    } else {
        None
    }
}

impl ThreadReplay {
    /// A thread at its start, with room for all values that its log lets it read.
    pub fn new(
        alloc: Global,
        script: &Script,
        log: &ThreadLog,
        thread: u8,
    ) -> Result<ThreadReplay, OutOfMemory>
        requires { thread < length script.now.threads }
        ensures { IfOk result (λ replay. IsReplayOf (commands_of script.now thread) (starting_configuration script.now.fuel) (length script.now.objects) log.now [] replay) }
    {
        let mut config = Config::new(alloc, script, thread)?;
        let mut up_next = NextDemand::Ended { end: End::Spent };
        ask(&mut config, &mut up_next);
        Ok(ThreadReplay {
            config,
            up_next,
            marks: 0,
            accesses: 0,
            gap: 0,
            reads: Vec::with_capacity(alloc, log.accesses as usize)?,
        })
    }

    /// What is next by the log.
    #[inline(always)]
    pub fn next(&self, log: &ThreadLog) -> NextStep
        ensures next { as_next result ≡ next_by_counts log.now self.now }
        ensures within { (objects : ℕ) → DemandsWithin objects self.now → AccessesWithin objects result }
    {
        if let Some(mark) = due_mark(log, self.marks, self.gap) {
            return NextStep::Mark { mark };
        }
        if self.accesses >= log.accesses {
            return self.next_after_accesses(log);
        }
        match self.up_next {
            NextDemand::Read { object } => NextStep::Read { object },
            NextDemand::Write { object, value } => NextStep::Write { object, value },
            NextDemand::Bump { object, amount } => NextStep::Bump { object, amount },
            NextDemand::Ended { .. } => NextStep::NothingFits,
        }
    }

    // What is next where no mark is due and no access is left.
    #[inline(always)]
    fn next_after_accesses(&self, log: &ThreadLog) -> NextStep
        ensures next { as_next result ≡ next_access (demand_of self.now.up_next) false (nat_lt self.now.marks (length log.now.marks)) }
        ensures within { (objects : ℕ) → AccessesWithin objects result }
    {
        if self.marks < log.marks.len() {
            return NextStep::NothingFits;
        }
        match self.up_next {
            NextDemand::Ended { .. } => NextStep::Finished,
            _ => NextStep::NothingFits,
        }
    }

    /// What the thread waits for before the step that is next by the log.
    pub(crate) fn need(&self, log: &ThreadLog) -> Need
        ensures { result ≡ need_of (next_by_counts log.now self.now) }
    {
        self.next(log).need()
    }

    /// How the thread ended, where it demands its end; spent where it demands more.
    pub fn end(&self) -> End
        ensures { result ≡ end_told self.now }
    {
        match self.up_next {
            NextDemand::Ended { end } => end,
            _ => End::Spent,
        }
    }

    /// How many accesses were made.
    pub fn accesses(&self) -> u32
        ensures { result ≡ accesses_made self.now }
    {
        self.accesses
    }

    /// The values that the thread read.
    pub fn into_reads(self) -> Vec<u64>
        ensures { result.items ≡ values_of self }
    {
        self.reads
    }

    // Counts an access, past which the thread is asked.
    fn count_access(&mut self)
        requires asked { self.old.config.waits ≡ false }
        requires accesses { suc self.old.accesses < 2 ^ 32 }
        requires gap { suc self.old.gap < 2 ^ 32 }
        ensures { Counted self.old self.new }
    {
        self.accesses += 1;
        self.gap += 1;
        ask(&mut self.config, &mut self.up_next);
    }

    /// Makes an event.
    #[inline(always)]
    pub fn make(&mut self, event: Event)
        requires stands { StandsFor event self.old }
        requires room { HasRoomFor event self.old }
        ensures { Grown self.old event self.new }
    {
        match event {
            Event::Read { value, .. } => {
                self.reads.push_reserved(value);
                self.config.give(value);
                self.count_access();
            }
            Event::Write { .. } | Event::Update { .. } => self.count_access(),
            Event::Marked { .. } => {
                self.marks += 1;
                self.gap = 0;
            }
        }
    }
}
