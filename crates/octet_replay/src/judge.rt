//! What becomes of the threads when none may step.
ghost use Rattle.std.specs.Prelude.{◌≡◌, ◌<◌, ◌≤◌, ◌+◌, ◌^◌, ◌↔◌, ℕ, true, false, length, map, slice_get, Some, All, IfOk, IfSome, IsNone, IsTrue};
ghost use Rattle.octet_model.specs.declared.limits.TheConstants.{MAX_ACCESSES, MAX_THREADS};
ghost use Rattle.octet_model.specs.Machine.{Finished};
ghost use Rattle.octet_model.specs.Orders.{thread_log_of};
ghost use Rattle.octet_replay.specs.Replayed.{FindsIn, FindsNothing, IsFinishedHere, TellsMisfit};
ghost use Rattle.octet_replay.specs.Threads.{next_by_counts};
ghost use Rattle.octet_replay.specs.declared.thread.ThreadReplay.{ThreadReplay};

use crate::ReplayFault;
use crate::thread::{NextDemand, ThreadReplay};
use octet_model::{List, OutOfMemory, ThreadLog};
use std::alloc::Global;

// Whether no mark of a thread's log is left.
fn has_all_marks(thread: &ThreadReplay, log: &ThreadLog) -> bool
    ensures { IsTrue result ↔ (length log.now.marks ≤ thread.now.marks) }
{
    thread.marks >= log.marks.len()
}

// How many accesses are found of a thread that does not fit its log.
fn misfit(thread: &ThreadReplay, log: &ThreadLog) -> Option<u32>
    requires { log.now.accesses ≤ MAX_ACCESSES }
    ensures some { IfSome result (FindsIn log.now thread.now) }
    ensures none { IsNone result → FindsNothing log.now thread.now }
{
    match thread.up_next {
        NextDemand::Ended { .. } if thread.accesses < log.accesses => Some(thread.accesses),
        NextDemand::Ended { .. } => None,
        _ if thread.accesses == log.accesses && has_all_marks(thread, log) => {
            Some(log.accesses + 1)
        }
        _ => None,
    }
}

/// The refusal that names the lowest thread that does not fit its log, if there is one.
pub(crate) fn lowest_misfit(threads: &[ThreadReplay], logs: &[ThreadLog]) -> Option<ReplayFault>
    requires few { length threads.now ≤ MAX_THREADS }
    requires as_many { length threads.now ≡ length logs.now }
    requires room { (thread : ℕ) → (thread_log_of logs.now thread).accesses ≤ MAX_ACCESSES }
    ensures some { IfSome result (TellsMisfit logs.now threads.now) }
    ensures none { IsNone result → (thread : ℕ) (t : ThreadReplay) → slice_get threads.now thread ≡ Some t → FindsNothing (thread_log_of logs.now thread) t }
{
    for thread in 0..threads.len() {
        let log = &logs[thread];
        if let Some(found) = misfit(&threads[thread], log) {
            return Some(ReplayFault::Misfit {
                thread: thread as u8,
                wanted: log.accesses,
                found,
            });
        }
    }
    None
}

fn is_finished(thread: &ThreadReplay, log: &ThreadLog) -> bool
    ensures { IsTrue result ↔ (next_by_counts log.now thread.now ≡ Finished) }
{
    let NextDemand::Ended { .. } = thread.up_next else {
        return false;
    };
    thread.accesses >= log.accesses && has_all_marks(thread, log)
}

/// Whether all threads have finished: they demand their ends, and have made what the log says.
pub(crate) fn are_finished(threads: &[ThreadReplay], logs: &[ThreadLog]) -> bool
    requires { length threads.now ≡ length logs.now }
    ensures all { result ≡ true → (thread : ℕ) → IsFinishedHere logs.now threads.now thread }
    ensures some { result ≡ false → (thread : ℕ) × (thread < length threads.now) × ¬ IsFinishedHere logs.now threads.now thread }
{
    for thread in 0..threads.len() {
        if !is_finished(&threads[thread], &logs[thread]) {
            return false;
        }
    }
    true
}

/// How many events each thread has made.
pub(crate) fn positions_of(
    alloc: Global,
    threads: &[ThreadReplay],
) -> Result<List<u64>, OutOfMemory>
    requires { (thread : ℕ) (t : ThreadReplay) → slice_get threads.now thread ≡ Some t → t.marks < 2 ^ 32 }
    ensures { IfOk result (λ positions. positions ≡ map (λ t. t.accesses + t.marks) threads.now) }
{
    let mut positions = List::new(alloc);
    for thread in threads {
        positions.push(u64::from(thread.accesses) + thread.marks as u64)?;
    }
    Ok(positions)
}
