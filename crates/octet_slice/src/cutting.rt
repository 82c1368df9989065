//! The log of the gathered events.
ghost use Rattle.std.specs.Prelude.{◌≡◌, ◌<◌, ℕ, length, IfOk, IsTrue};
ghost use Rattle.octet_model.specs.Log.{is_log};
ghost use Rattle.octet_model.specs.Orders.{thread_log_of};
ghost use Rattle.octet_slice.specs.code.Cutting.{CanCut, cut_log, cut_thread};
ghost use Rattle.octet_slice.specs.code.Reached.{reach_of};

use crate::gathering::{Gathering, Reach};
use octet_model::{List, Log, OutOfMemory, ThreadLog};
use std::alloc::Global;

// The marks that were taken in, and as many accesses as the other events gathered.
fn cut_thread(alloc: Global, log: &ThreadLog, reach: Reach) -> Result<ThreadLog, OutOfMemory>
    requires { CanCut log.now reach }
    ensures { IfOk result (λ cut. cut ≡ cut_thread log.now reach) }
{
    let marks = &log.marks.as_slice()[..reach.taken_in.marks];
    Ok(ThreadLog {
        accesses: reach.count.saturating_sub(reach.taken_in.marks as u64) as u32,
        marks: List::from_vec(Vec::from_slice(alloc, marks)?),
    })
}

fn cut_threads(
    alloc: Global,
    logs: &[ThreadLog],
    threads: &[Reach],
) -> Result<List<ThreadLog>, OutOfMemory>
    requires many { length threads.now ≡ length logs.now }
    requires each { (thread : ℕ) → thread < length logs.now → CanCut (thread_log_of logs.now thread) (reach_of threads.now thread) }
    ensures { IfOk result (λ cut. cut ≡ cut_log logs.now threads.now) }
{
    let mut cut = List::new(alloc);
    for thread in 0..logs.len() {
        cut.push(cut_thread(alloc, &logs[thread], threads[thread])?)?;
    }
    Ok(cut)
}

/// The log of the gathered events alone. They are such that it is valid.
pub(crate) fn cut(
    alloc: Global,
    logs: &[ThreadLog],
    gathered: &Gathering,
) -> Result<Log, OutOfMemory>
    requires many { length gathered.now.threads.items ≡ length logs.now }
    requires each { (thread : ℕ) → thread < length logs.now → CanCut (thread_log_of logs.now thread) (reach_of gathered.now.threads.items thread) }
    requires valid { IsTrue (is_log (cut_log logs.now gathered.now.threads.items)) }
    ensures { IfOk result (λ log. log.threads ≡ cut_log logs.now gathered.now.threads.items) }
{
    Ok(Log {
        threads: cut_threads(alloc, logs, &gathered.threads)?,
    })
}
