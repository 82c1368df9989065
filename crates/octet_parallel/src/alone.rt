//! Threads that are replayed each by itself: no thread of the script writes what another one names.
ghost use Rattle.std.specs.Prelude.{◌≡◌, ◌<◌, ◌↔◌, ℕ, [], List, true, length, map, All, IfOk, IsTrue, slice_index};
ghost use Rattle.std.specs.List.{AllZip};
ghost use Rattle.std.specs.Thread.{IsSync};
ghost use Rattle.octet_model.specs.Orders.{starting_heap};
ghost use Rattle.octet_replay.specs.Threads.{end_told, values_of};
ghost use Rattle.octet_parallel.specs.Alone.{AreAtStart, AreMerged, HasHeapOf, HasPlayedAlone, HavePlayedAlone, IsAloneAfter, IsMergedAt, IsOutcomeOf, IsReady, PlaysAlone};

use crate::passing::pass_before_event;
use crate::player::WORDS_APART;
use octet_base::Gate;
use octet_model::{End, List, Log, OutOfMemory, Outcome, Script};
use octet_replay::{NextStep, ThreadReplay, change_heap};
use std::alloc::Global;
use std::snapshot::Snapshot;
use std::sync::Wait;
use std::thread;
use std::thread::Threads;

/// One thread of a script as far as it is replayed, on a heap of its own. Its marks are passed over,
/// since what they wait for changes nothing of what the thread finds.
#[derive(Drop)]
pub(crate) struct Alone {
    pub(crate) number: u8,
    pub(crate) replay: ThreadReplay,
    pub(crate) heap: Vec<u64>,
    pub(crate) is_through: bool,
    pub(crate) script: Snapshot<Script>,
    /// Keeps threads apart, so that no two of them write to one line of memory.
    pub(crate) padding: [u64; WORDS_APART],
}

impl Alone {
    // A thread at its start.
    fn new(alloc: Global, script: &Script, log: &Log, number: u8) -> Result<Alone, OutOfMemory>
        requires agree { length script.now.threads ≡ length log.now.threads }
        requires within { number < length log.now.threads }
        ensures { IfOk result (IsAloneAfter script.now log.now.threads number []) }
    {
        let own = &log.threads.as_slice()[number as usize];
        Ok(Alone {
            number,
            replay: ThreadReplay::new(alloc, script, own, number)?,
            heap: script.starting_heap(alloc)?,
            is_through: false,
            script: Snapshot::of(script),
            padding: [0; WORDS_APART],
        })
    }

    // Makes all that it can make alone, and passes the gate before each access.
    fn play<R: Threads + Wait + Sync, G: Gate>(&mut self, rt: &R, log: &Log, gate: &G)
        requires within { self.old.number < length log.now.threads }
        requires start { IsAloneAfter self.old.script.value log.now.threads self.old.number [] self.old }
        ensures of { self.new.script.value ≡ self.old.script.value }
        ensures number { self.new.number ≡ self.old.number }
        ensures played { HasPlayedAlone self.old.script.value log.now.threads self.old.number self.new }
    {
        let own = &log.threads.as_slice()[self.number as usize];
        while let Some(event) = self.replay.next(own).event(&self.heap) {
            pass_before_event(rt, gate, self.number, event, self.replay.accesses());
            change_heap(&mut self.heap, event);
            self.replay.make(event);
        }
        self.is_through = match self.replay.next(own) {
            NextStep::Finished => true,
            _ => false,
        };
    }
}

// All threads of a script, at their starts.
fn all_at_start(alloc: Global, script: &Script, log: &Log) -> Result<Vec<Alone>, OutOfMemory>
    requires { length script.now.threads ≡ length log.now.threads }
    ensures as_many { IfOk result (λ threads. length threads.items ≡ length log.now.threads) }
    ensures each { IfOk result (λ threads. AreAtStart script.now log.now.threads threads.items) }
{
    let mut threads = Vec::new(alloc);
    for number in 0..log.threads.len() {
        threads.push(Alone::new(alloc, script, log, number as u8)?)?;
    }
    Ok(threads)
}

// Lets each play on a thread of its own, beside the others.
fn play_each<R: Threads + Wait + Sync, G: Gate>(rt: &R, log: &Log, gate: &G, threads: &mut [Alone])
    requires { All (IsReady log.now.threads) threads.old }
    ensures { AllZip (PlaysAlone log.now.threads) threads.old threads.new }
{
    if threads.is_empty() {
        return;
    }
    let count = threads.len();
    thread::for_each_mut(
        rt,
        threads,
        count,
        &|_, alone: &mut Alone| -> ()
            requires { IsSync R.row × IsSync G.row × IsReady log.now.threads alone.now }
            ensures { PlaysAlone log.entry.now.threads alone.entry.now alone.exit.now }
        { alone.play(rt, log, gate) },
    );
}

/// The threads of a script, after each made all that it can make alone.
pub(crate) fn play_alone<R: Threads + Wait + Sync, G: Gate>(
    rt: &R,
    alloc: Global,
    script: &Script,
    log: &Log,
    gate: &G,
) -> Result<Vec<Alone>, OutOfMemory>
    requires agree { length script.now.threads ≡ length log.now.threads }
    ensures { IfOk result (λ threads. HavePlayedAlone script.now log.now.threads threads.items) }
{
    let mut threads = all_at_start(alloc, script, log)?;
    play_each(rt, log, gate, threads.as_mut_slice());
    Ok(threads)
}

/// Whether all are through.
pub(crate) fn are_through(threads: &[Alone]) -> bool
    ensures { IsTrue result ↔ All (λ alone. alone.is_through ≡ true) threads.now }
{
    threads.iter().all(|alone| alone.is_through)
}

// How each thread ended.
fn ends_of(alloc: Global, threads: &[Alone]) -> Result<List<End>, OutOfMemory>
    ensures { IfOk result (λ ends. ends ≡ map (λ alone. end_told alone.replay) threads.now) }
{
    let mut ends = List::new(alloc);
    for alone in threads {
        ends.push(alone.replay.end())?;
    }
    Ok(ends)
}

// The values that each thread read.
fn reads_of(alloc: Global, threads: Vec<Alone>) -> Result<List<List<u64>>, OutOfMemory>
    ensures { IfOk result (λ reads. reads ≡ map (λ alone. values_of alone.replay) threads.items) }
{
    let mut reads = List::new(alloc);
    for alone in threads {
        reads.push(List::from_vec(alone.replay.into_reads()))?;
    }
    Ok(reads)
}

// The value of an object after the threads: it is `start` in the heap of a thread that did not change it.
fn merged_value(threads: &[Alone], object: usize, start: u64) -> u64
    requires { All (λ alone. object < length alone.heap.items) threads.now }
    ensures { (starts : List ℕ) → slice_index starts object ≡ start → IsMergedAt starts threads.now object result }
{
    for alone in threads {
        let value = alone.heap[object];
        if value != start {
            return value;
        }
    }
    start
}

// The heap after the threads.
fn merged(alloc: Global, script: &Script, threads: &[Alone]) -> Result<Vec<u64>, OutOfMemory>
    requires { All (HasHeapOf (length script.now.objects)) threads.now }
    ensures { IfOk result (λ heap. AreMerged (starting_heap script.now) threads.now heap.items) }
{
    let mut heap = script.starting_heap(alloc)?;
    for object in 0..heap.len() {
        heap[object] = merged_value(threads, object, heap[object]);
    }
    Ok(heap)
}

/// What threads come to that are through.
pub(crate) fn outcome_of(
    alloc: Global,
    script: &Script,
    threads: Vec<Alone>,
) -> Result<Outcome, OutOfMemory>
    requires { All (HasHeapOf (length script.now.objects)) threads.items }
    ensures { IfOk result (IsOutcomeOf script.now threads.items) }
{
    let heap = merged(alloc, script, threads.as_slice())?;
    let ends = ends_of(alloc, threads.as_slice())?;
    let reads = reads_of(alloc, threads)?;
    Ok(Outcome {
        ends,
        reads,
        heap: List::from_vec(heap),
    })
}
