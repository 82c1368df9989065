//! Runs of the script by threads that share one heap, whose log is written while they run.
ghost use Rattle.std.specs.Prelude.{◌≡◌, ◌≢◌, ◌<◌, ◌≤◌, All, length, IfOk, OnErr, IsSome, Some};
ghost use Rattle.std.specs.List.{AllZip};
ghost use Rattle.std.specs.Thread.{IsSync};
ghost use Rattle.octet_base.specs.Desk.{Rose};
ghost use Rattle.octet_base.specs.declared.fault.DeskFault.TheVariants.{Failed, TooLong, Absent};
ghost use Rattle.octet_model.specs.declared.limits.TheConstants.{MAX_THREADS};
ghost use Rattle.octet_model.specs.Journals.{gapped_marks};
ghost use Rattle.octet_model.specs.Orders.{IsFaithful};
ghost use Rattle.octet_heap.specs.Workers.{seat_of};
ghost use Rattle.octet_live.specs.Feeds.{HasSentNothing};
ghost use Rattle.octet_live.specs.Drained.{threads_of, AreFeeds, IsFresh, Drains, AddsLeft, AddsAllLeft};
ghost use Rattle.octet_live.specs.Written.{IsWritten, IsPartlyWritten, Writes};
ghost use Rattle.octet_threads.specs.Runners.{end_by, HasEnded, IsAtRest, IsSame};
ghost use Rattle.octet_threads.specs.Work.{workers_in, threads_in, marks_made, SendsTo, SendEach};
ghost use Rattle.octet_threads.specs.Opened.{IsOpened};

use crate::crew::Crew;
use crate::heap::gate::HeapGate;
use crate::heap::recording::finish_run;
use crate::heap::runner::Runner;
use crate::heap::running::runners;
use crate::heap::runs::run_all;
use octet_base::{Desk, DeskFault};
use octet_heap::Heap;
use octet_live::{Drainer, Feed, feeds};
use octet_model::{OutOfMemory, Recorded, Script};
use std::alloc::Global;
use std::sync::Wait;
use std::thread::{Threads, join_mut};

/// What was recorded of a run, and why its log was not written whole, where it was not.
#[derive(Debug, Drop)]
pub struct Live {
    pub recorded: Recorded,
    pub kept: Option<DeskFault>,
}

/// All that a run needs: the heap, a runner for each thread, each with a feed, and the drainer of these.
#[derive(Drop)]
pub(crate) struct Opened {
    pub(crate) heap: Heap,
    pub(crate) runners: Vec<Runner>,
    pub(crate) drainer: Drainer,
}

// Lets a runner send by a feed.
fn connect(runner: &mut Runner, feed: Feed)
    requires { HasSentNothing feed }
    ensures worker { runner.new.worker ≡ runner.old.worker }
    ensures config { runner.new.config ≡ runner.old.config }
    ensures feed { runner.new.feed ≡ Some feed }
{
    runner.feed = Some(feed);
}

// Lets each send by the feed of its thread.
fn connect_all(drainer: &Drainer, runners: &mut [Runner], feeds: Vec<Feed>)
    requires as_many { length feeds.items ≡ length runners.old }
    requires feeds { AreFeeds drainer.now feeds.items }
    ensures workers { workers_in runners.new ≡ workers_in runners.old }
    ensures threads { threads_in runners.new ≡ threads_in runners.old }
    ensures send { SendEach drainer.now runners.new }
{
    let mut thread = 0;
    for feed in feeds {
        connect(&mut runners[thread], feed);
        thread += 1;
    }
}

fn open(alloc: Global, script: &Script) -> Result<Opened, OutOfMemory>
    ensures { IfOk result (λ opened. IsOpened script.now opened) }
{
    let (heap, workers) = Heap::new(alloc, script)?;
    let mut runners = runners(alloc, script, &heap, workers.into_vec())?;
    let (feeds, drainer) = feeds(alloc, script.thread_count())?;
    connect_all(&drainer, runners.as_mut_slice(), feeds.into_vec());
    Ok(Opened {
        heap,
        runners,
        drainer,
    })
}

// Runs them all, each on a thread of its own, with the drainer beside them in this one. Where no
// thread can be made, the second closure runs first, so the drainer does not wait for workers that have
// not begun for ever.
fn run_beside<R: Threads + Wait + Sync, G: HeapGate, D: Desk>(
    rt: &R,
    heap: &Heap,
    gate: &G,
    desk: &mut D,
    drainer: &mut Drainer,
    runners: &mut [Runner],
)
    requires begun { IsSome (D.state desk.old).begun }
    requires threads { (length runners.old ≡ threads_of drainer.old) × (length runners.old ≤ MAX_THREADS) }
    requires rest { All (IsAtRest heap.now) runners.old }
    ensures ended { All (HasEnded heap.now) runners.new }
    ensures same { AllZip IsSame runners.old runners.new }
    ensures drains { Drains (length runners.old) drainer.old (D.state desk.old) drainer.new (D.state desk.new) }
    ensures begun { (D.state desk.new).begun ≡ (D.state desk.old).begun }
{
    let crew = Crew::new(runners.len());
    let shared = &crew;
    let threads = runners.len() as u8;
    join_mut(
        rt,
        &mut || -> ()
            requires { IsSync R.row × IsSync G.row × All (IsAtRest heap.now) runners.now }
            ensures { All (HasEnded heap.entry.now) runners.exit.now × AllZip IsSame runners.entry.now runners.exit.now }
        { run_all(rt, heap, gate, shared, runners) },
        &mut || -> ()
            requires { IsSome (D.state desk.now).begun × (threads ≡ threads_of drainer.now) × (threads ≤ MAX_THREADS) }
            ensures { Drains threads drainer.entry.now (D.state desk.entry.now) drainer.exit.now (D.state desk.exit.now) × ((D.state desk.exit.now).begun ≡ (D.state desk.entry.now).begun) }
        { drainer.drain_all(rt, desk, threads, shared.bells()) },
    );
}

// Adds what is left of a worker.
fn add_left_of<D: Desk>(desk: &mut D, drainer: &mut Drainer, thread: u8, runner: &mut Runner)
    requires begun { IsSome (D.state desk.old).begun }
    requires thread { (thread < threads_of drainer.old) × (threads_of drainer.old ≤ MAX_THREADS) }
    requires sends { SendsTo drainer.old thread runner.old.feed }
    ensures worker { runner.new.worker ≡ runner.old.worker }
    ensures config { runner.new.config ≡ runner.old.config }
    ensures end { end_by runner.new.feed ≡ end_by runner.old.feed }
    ensures left { AddsLeft thread (gapped_marks 0 (seat_of runner.old.worker).journal) drainer.old (D.state desk.old) drainer.new (D.state desk.new) }
    ensures begun { (D.state desk.new).begun ≡ (D.state desk.old).begun }
{
    let Some(feed) = &mut runner.feed else {
        unreachable!()
    };
    let own = runner.worker.marks();
    drainer.add_left(desk, thread, feed, own);
}

// Adds what is left of each worker in turn.
fn add_all_left<D: Desk>(desk: &mut D, drainer: &mut Drainer, runners: &mut [Runner])
    requires begun { IsSome (D.state desk.old).begun }
    requires threads { (length runners.old ≡ threads_of drainer.old) × (length runners.old ≤ MAX_THREADS) }
    requires send { SendEach drainer.old runners.old }
    ensures same { AllZip IsSame runners.old runners.new }
    ensures workers { workers_in runners.new ≡ workers_in runners.old }
    ensures threads { threads_in runners.new ≡ threads_in runners.old }
    ensures left { AddsAllLeft (length runners.old) (marks_made runners.old) drainer.old (D.state desk.old) drainer.new (D.state desk.new) }
    ensures begun { (D.state desk.new).begun ≡ (D.state desk.old).begun }
{
    for thread in 0..runners.len() {
        add_left_of(desk, drainer, thread as u8, &mut runners[thread]);
    }
}

// Runs them all, and adds all their marks.
fn run_written<R: Threads + Wait + Sync, G: HeapGate, D: Desk>(
    rt: &R,
    heap: &Heap,
    gate: &G,
    desk: &mut D,
    drainer: &mut Drainer,
    runners: &mut [Runner],
)
    requires begun { IsSome (D.state desk.old).begun }
    requires threads { length runners.old ≤ MAX_THREADS }
    requires fresh { IsFresh (length runners.old) drainer.old }
    requires send { SendEach drainer.old runners.old }
    requires rest { All (IsAtRest heap.now) runners.old }
    ensures ended { All (HasEnded heap.now) runners.new }
    ensures same { AllZip IsSame runners.old runners.new }
    ensures writes { Writes (length runners.old) (marks_made runners.new) (D.state desk.old) drainer.new.kept (D.state desk.new) }
    ensures begun { (D.state desk.new).begun ≡ (D.state desk.old).begun }
{
    run_beside(rt, heap, gate, desk, drainer, runners);
    add_all_left(desk, drainer, runners);
}

/// Runs the script as `run` does, and adds its log's marks to the file that is begun while the threads
/// run: a drainer beside the workers takes the marks that they send, and adds them in pieces of up to
/// 256 marks of a thread, one with each call of the desk; it makes no other call. After the first piece
/// that is refused none is added, and the run goes on to its end. Refused only where memory is. May
/// wait, and where no thread can be made it may not return.
pub fn run_live<R: Threads + Wait + Sync, G: HeapGate, D: Desk>(
    rt: &R,
    alloc: Global,
    script: &Script,
    gate: &G,
    desk: &mut D,
) -> Result<Live, OutOfMemory>
    requires begun { IsSome (D.state desk.old).begun }
    ensures faithful { IfOk result (λ live. IsFaithful script.now live.recorded.log.threads live.recorded.outcome) }

    // The file grew by pieces that have the marks of the log: by all where `kept` is none, and else by
    // those before the one that was refused, and maybe by some first bytes of that.
    ensures written { IfOk result (λ live. IsWritten live.recorded.log.threads (D.state desk.old) live.kept (D.state desk.new)) }
    // Where memory is refused, by pieces of some log.
    ensures partly { OnErr result (IsPartlyWritten (length script.now.threads) (D.state desk.old) (D.state desk.new)) }
    // A failure is kept where an `add` failed, and counted by the desk.
    ensures failed { IfOk result (λ live. live.kept ≡ Some Failed → Rose (D.state desk.old).write_faults (D.state desk.new).write_faults) }
    ensures kept { IfOk result (λ live. (live.kept ≢ Some TooLong) × (live.kept ≢ Some Absent)) }
    ensures begun { (D.state desk.new).begun ≡ (D.state desk.old).begun }
{
    let Ok(opened) = open(alloc, script) else {
        return Err(OutOfMemory);
    };
    let Opened {
        heap,
        mut runners,
        mut drainer,
    } = opened;
    run_written(rt, &heap, gate, desk, &mut drainer, runners.as_mut_slice());
    let kept = drainer.kept();
    match finish_run(alloc, script, heap, runners) {
        Ok(recorded) => Ok(Live { recorded, kept }),
        Err(_) => Err(OutOfMemory),
    }
}
