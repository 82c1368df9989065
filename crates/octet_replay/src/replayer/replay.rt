//! All threads as far as they are replayed.
ghost use Rattle.std.specs.Prelude.{◌≡◌, ◌<◌, ◌≤◌, ◌^◌, length, All, Some, IfOk, IfErr, IfSome, IsNone, IsTrue};
ghost use Rattle.octet_model.specs.declared.limits.TheConstants.{MAX_FUEL};
ghost use Rattle.octet_model.specs.Machine.{heap_after, no_events};
ghost use Rattle.octet_model.specs.Orders.{thread_log_of};
ghost use Rattle.octet_model.specs.Plays.{operation_of};
ghost use Rattle.octet_replay.specs.Needs.{IsLowestReady};
ghost use Rattle.octet_replay.specs.Replayed.{is_draw, state_of, AreNeedsOf, AreReplaysOf, CanMake, IsAt, IsNextAt, MakesEvent};
ghost use Rattle.octet_replay.specs.ReplayState.{regions_of, GoesOn, HasHalted, IsLowestStep, IsNextThread, IsNotBegun, StepsTo, plain_state};
ghost use Rattle.octet_replay.specs.NextSteps.{as_next};
ghost use Rattle.octet_replay.specs.declared.stepped.Stepped.TheVariants.{Made};
ghost use Rattle.octet_replay.specs.Threads.{next_event, WritesWithin};

use crate::thread::ThreadReplay;
use crate::{LowestStep, Need, NextStep, ReplayFault, Stepped, Waits};
use octet_model::{Event, List, Log, Mark, OutOfMemory, Script, ThreadLog};
use std::alloc::Global;
use std::snapshot::Snapshot;

/// The threads as far as they are replayed, the heap, and what each thread waits for. The log is
/// its caller's, and is lent for each step.
#[derive(Drop)]
pub(crate) struct Replay {
    pub(crate) threads: Vec<ThreadReplay>,
    pub(crate) heap: Vec<u64>,
    pub(crate) waits: Waits,
    pub(crate) script: Snapshot<Script>,
    pub(crate) log: Snapshot<Log>,
}

/// Whether the event is a draw.
pub fn is_draw(event: Event) -> bool
    ensures { result ≡ is_draw event }
{
    match event {
        Event::Marked {
            mark: Mark::Draw { .. },
        } => true,
        _ => false,
    }
}

/// Changes the heap by an event: a write and an update change their object's value, and no other does.
#[inline(always)]
pub fn change_heap(heap: &mut Vec<u64>, event: Event)
    requires { WritesWithin (length heap.old.items) event }
    ensures { heap.new.items ≡ heap_after (operation_of event) heap.old.items }
{
    match event {
        Event::Write { object, value }
        | Event::Update {
            object,
            after: value,
            ..
        } => heap[object as usize] = value,
        Event::Read { .. } | Event::Marked { .. } => {}
    }
}

// What each thread waits for.
fn needs_of(
    alloc: Global,
    threads: &[ThreadReplay],
    logs: &[ThreadLog],
) -> Result<List<Need>, OutOfMemory>
    requires { length threads.now ≡ length logs.now }
    ensures { IfOk result (AreNeedsOf logs.now threads.now) }
{
    let mut needs = List::new(alloc);
    for thread in 0..threads.len() {
        needs.push(threads[thread].need(&logs[thread]))?;
    }
    Ok(needs)
}

// All threads of a script, at their starts.
fn starting_threads(
    alloc: Global,
    script: &Script,
    log: &Log,
) -> Result<Vec<ThreadReplay>, OutOfMemory>
    requires { length script.now.threads ≡ length log.now.threads }
    ensures as_many { IfOk result (λ threads. length threads.items ≡ length script.now.threads) }
    ensures each { IfOk result (λ threads. AreReplaysOf script.now log.now.threads (no_events script.now.threads) threads.items) }
{
    let mut threads = Vec::new(alloc);
    for thread in 0..script.threads.len() {
        let of_log = &log.threads.as_slice()[thread];
        threads.push(ThreadReplay::new(alloc, script, of_log, thread as u8)?)?;
    }
    Ok(threads)
}

impl Replay {
    /// Before the first event. Refuses a log that has not as many threads as the script.
    pub(crate) fn new(alloc: Global, script: &Script, log: &Log) -> Result<Replay, ReplayFault>
        ensures opens { IfOk result (λ r. state_of r ≡ record { script = script.now; log = log.now; steps = 0 }) }
        ensures agree { IfOk result (λ _. length script.now.threads ≡ length log.now.threads) }
        ensures at { IfOk result IsAt }
        ensures refused { IfErr result (IsNotBegun script.now log.now.threads) }
    {
        let (of_script, of_log) = (script.threads.len(), log.threads.len());
        if of_script != of_log {
            return Err(ReplayFault::ThreadsDiffer {
                script: of_script as u32,
                log: of_log as u32,
            });
        }
        let threads = starting_threads(alloc, script, log)?;
        let needs = needs_of(alloc, &threads, log.threads.as_slice())?;
        Ok(Replay {
            threads,
            heap: script.starting_heap(alloc)?,
            waits: Waits::new(alloc, &needs)?,
            script: Snapshot::of(script),
            log: Snapshot::of(log),
        })
    }

    // Makes the event of a thread that may step, by its log, and finds what is next for it.
    #[inline(always)]
    fn make(&mut self, thread: u8, event: Event, log: &ThreadLog) -> NextStep
        requires can { CanMake self.old thread event }
        requires of_log { log.now ≡ thread_log_of self.old.log.value.threads thread }
        ensures { MakesEvent self.old thread event result self.new }
    {
        // What depends on the event's kind stands together, so that the kind is looked at once.
        let draw = is_draw(event);
        change_heap(&mut self.heap, event);
        let it = &mut self.threads[thread as usize];
        it.make(event);
        let next = it.next(log);
        self.waits.step(thread, draw, next.need());
        next
    }

    // Makes what is next for the lowest thread that may step, and finds what is next for it then.
    #[inline(always)]
    fn make_next(&mut self, thread: u8, next: NextStep, log: &ThreadLog) -> (Event, NextStep)
        requires at { IsAt self.old }
        requires lowest { IsLowestReady self.old.waits thread }
        requires its { IsNextAt self.old thread next }
        requires of_log { log.now ≡ thread_log_of self.old.log.value.threads thread }
        ensures steps { StepsTo (state_of self.old) (Made thread result.0) (state_of self.new) }
        ensures at { IsAt self.new }
        ensures its { IsNextAt self.new thread result.1 }
        ensures event { next_event (as_next next) self.old.heap.items ≡ Some result.0 }
        ensures same_log { self.new.log ≡ self.old.log }
    {
        // In a log of many marks most steps are marks. They go a way of their own, on which no
        // kind is looked at again.
        if let NextStep::Mark { mark } = next {
            let event = Event::Marked { mark };
            let after = self.make(thread, event, log);
            return (event, after);
        }
        let Some(event) = next.event(&self.heap) else {
            unreachable!()
        };
        let after = self.make(thread, event, log);
        (event, after)
    }

    /// Makes the next step of the lowest order, if a thread may step. Inlined down to the waiting
    /// lists, so that an event and a need go through no memory: a third off each step.
    #[inline(always)]
    pub(crate) fn step(&mut self, log: &Log) -> Stepped
        requires at { IsAt self.old }
        requires of_log { log.now ≡ self.old.log.value }
        ensures steps { StepsTo (state_of self.old) result (state_of self.new) }
        ensures at { IsAt self.new }
        ensures same_log { self.new.log ≡ self.old.log }
    {
        let Some(thread) = self.waits.lowest() else {
            return Stepped::Halted;
        };
        let of_log = &log.threads.as_slice()[thread as usize];
        let next = self.threads[thread as usize].next(of_log);
        let (event, _) = self.make_next(thread, next, of_log);
        Stepped::Made { thread, event }
    }

    /// The next step of the lowest order, if a thread may step.
    #[inline(always)]
    pub(crate) fn lowest_step(&self, log: &Log) -> Option<LowestStep>
        requires at { IsAt self.now }
        requires of_log { log.now ≡ self.now.log.value }
        ensures some { IfSome result (IsLowestStep (state_of self.now)) }
        ensures none { IsNone result → HasHalted (state_of self.now) }
    {
        let Some(thread) = self.waits.lowest() else {
            return None;
        };
        let of_log = &log.threads.as_slice()[thread as usize];
        let next = self.threads[thread as usize].next(of_log);
        Some(LowestStep { thread, next })
    }

    /// Makes the next step of the lowest order, and finds the one after it. What is next for the
    /// thread is known already where it goes on.
    #[inline(always)]
    pub(crate) fn make_lowest(&mut self, step: LowestStep, log: &Log) -> (Event, Option<LowestStep>)
        requires at { IsAt self.old }
        requires of_log { log.now ≡ self.old.log.value }
        requires lowest { IsLowestStep (state_of self.old) step }
        ensures steps { StepsTo (state_of self.old) (Made step.thread result.0) (state_of self.new) }
        ensures event { next_event (as_next step.next) (plain_state (state_of self.old)).heap ≡ Some result.0 }
        ensures some { IfSome result.1 (IsLowestStep (state_of self.new)) }
        ensures none { IsNone result.1 → HasHalted (state_of self.new) }
        ensures at { IsAt self.new }
        ensures same_log { self.new.log ≡ self.old.log }
    {
        let thread = step.thread;
        let of_log = &log.threads.as_slice()[thread as usize];
        let (event, next) = self.make_next(thread, step.next, of_log);
        let after = match self.waits.lowest() {
            Some(lowest) if lowest == thread => Some(LowestStep { thread, next }),
            _ => self.lowest_step(log),
        };
        (event, after)
    }

    /// The thread that makes the next step of the lowest order.
    #[inline(always)]
    pub(crate) fn next_thread(&self) -> Option<u8>
        requires { IsAt self.now }
        ensures some { IfSome result (IsNextThread (state_of self.now)) }
        ensures none { IsNone result → HasHalted (state_of self.now) }
    {
        let Some(thread) = self.waits.lowest() else {
            return None;
        };
        Some(thread)
    }

    /// How many `region` commands a thread has run: it was asked for its next access.
    #[inline(always)]
    pub(crate) fn regions(&self, thread: u8) -> u32
        requires at { IsAt self.now }
        requires within { thread < length self.now.script.value.threads }
        ensures regions { result ≡ regions_of (state_of self.now) thread }
        ensures few { result ≤ MAX_FUEL }
    {
        self.threads[thread as usize].config.regions()
    }

    // Steps on while the thread is the lowest that may step, and keeps what is next for it from
    // one step to the next.
    fn go_on(&mut self, thread: u8, log: &Log)
        requires at { IsAt self.old }
        requires lowest { IsLowestReady self.old.waits thread }
        requires of_log { log.now ≡ self.old.log.value }
        ensures goes_on { GoesOn (state_of self.old) (state_of self.new) }
        ensures at { IsAt self.new }
        ensures same_log { self.new.log ≡ self.old.log }
    {
        let of_log = &log.threads.as_slice()[thread as usize];
        let mut next = self.threads[thread as usize].next(of_log);
        loop {
            let (_, after) = self.make_next(thread, next, of_log);
            match self.waits.lowest() {
                Some(lowest) if lowest == thread => next = after,
                _ => return,
            }
        }
    }

    /// Steps on until no thread may step.
    pub(crate) fn run(&mut self, log: &Log)
        requires at { IsAt self.old }
        requires of_log { log.now ≡ self.old.log.value }
        ensures halted { HasHalted (state_of self.new) }
        ensures at { IsAt self.new }
        ensures same_script { self.new.script.value ≡ self.old.script.value }
        ensures same_log { self.new.log ≡ self.old.log }
    {
        while let Some(thread) = self.waits.lowest() {
            self.go_on(thread, log);
        }
    }
}
