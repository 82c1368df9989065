//! The past of one event.
ghost use Rattle.std.specs.Prelude.{◌≡◌, ◌+◌, ◌<◌, ◌≤◌, ◌*◌, ◌^◌, ℕ, length, sum_by, IfOk, IfErr};
ghost use Rattle.octet_model.specs.declared.limits.TheConstants.{MAX_THREADS};
ghost use Rattle.octet_model.specs.HappensBefore.{IsOrdered};
ghost use Rattle.octet_model.specs.Orders.{journals_after, lowest_order, thread_log_of};
ghost use Rattle.octet_replay.specs.Judged.{IsLawful};
ghost use Rattle.octet_slice.specs.Slice.{events_of, HasEvent, HasSliceCause, IsSliceOf};
ghost use Rattle.octet_slice.specs.declared.slicing.SliceFault.TheVariants.{OutOfMemory as MemoryRefused};

use crate::cutting::cut;
use crate::gathering::gather;
use crate::replaying::replay_to;
use octet_model::{Event, Log, OutOfMemory, Script, ThreadLog};
use std::alloc::Global;
use thiserror::Error;

/// An event, how many events lie in its past, with itself, and how many there are in all.
#[derive(Clone, Copy, Debug, PartialEq, Eq)]
pub struct Sliced {
    pub event: Event,
    pub made: u64,
    pub all: u64,
}

/// Why there is no such event. Out of memory alone may come at any time.
#[derive(Clone, Copy, Debug, Error, PartialEq, Eq)]
pub enum SliceFault {
    /// The log has this number of threads, and the thread is none of these.
    #[error("the log has {threads} threads")]
    NoThread { threads: u32 },
    /// The thread has this number of events, and the event is none of these.
    #[error("the thread has {events} events")]
    NoEvent { events: u64 },
    #[error("out of memory")]
    OutOfMemory,
}

impl From<OutOfMemory> for SliceFault {
    ghost from_gives = { λ _ e. e ≡ MemoryRefused };

    fn from(_: OutOfMemory) -> Self {
        SliceFault::OutOfMemory
    }
}

// How many events a thread has.
fn events_of(log: &ThreadLog) -> u64
    requires { events_of log.now < 2 ^ 33 }
    ensures { result ≡ events_of log.now }
{
    u64::from(log.accesses) + log.marks.len() as u64
}

// How many events all threads have.
fn all_events(logs: &[ThreadLog]) -> u64
    requires few { length logs.now ≤ MAX_THREADS }
    requires each { (thread : ℕ) → thread < length logs.now → events_of (thread_log_of logs.now thread) < 2 ^ 33 }
    ensures { result ≡ sum_by events_of logs.now }
{
    let mut all = 0;
    for log in logs {
        all += events_of(log);
    }
    all
}

/// The event at a place of the lowest order's journals, found by a replay of its past alone. The past
/// is gathered from the log's marks, backwards from the event, as a number of first events of each
/// thread; then only these events are stepped.
pub fn slice(
    alloc: Global,
    script: &Script,
    log: &Log,
    thread: u64,
    event: u64,
) -> Result<Sliced, SliceFault>
    requires lawful { IsLawful script.now log.now.threads }
    requires ordered { IsOrdered (journals_after script.now log.now.threads (lowest_order script.now log.now.threads)) }
    ensures sliced { IfOk result (IsSliceOf (journals_after script.now log.now.threads (lowest_order script.now log.now.threads)) (record { thread = thread; event = event })) }
    ensures there { IfOk result (λ _. HasEvent log.now.threads thread event) }
    ensures refused { IfErr result (HasSliceCause log.now.threads thread event) }
{
    let logs = log.threads.as_slice();
    if thread >= logs.len() as u64 {
        return Err(SliceFault::NoThread {
            threads: logs.len() as u32,
        });
    }
    let events = events_of(&logs[thread as usize]);
    if event >= events {
        return Err(SliceFault::NoEvent { events });
    }
    let all = all_events(logs);
    let past = gather(alloc, logs, thread as usize, event + 1)?;
    let part = cut(alloc, logs, &past)?;
    let replayed = replay_to(alloc, script, &part, thread, event)?;
    Ok(Sliced {
        event: replayed.event,
        made: replayed.made,
        all,
    })
}
