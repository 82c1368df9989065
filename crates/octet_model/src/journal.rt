//! What is kept of journals: the log, and the values that were read.
ghost use Rattle.std.specs.Prelude.{◌≡◌, ◌<◌, ◌^◌, ℕ, map, IfOk, IsTrue};
ghost use Rattle.octet_model.specs.Journals.{access_count, log_of, log_of_journal};
ghost use Rattle.octet_model.specs.Log.{is_log};
ghost use Rattle.octet_model.specs.Machine.{journal_of};
ghost use Rattle.octet_model.specs.Orders.{values_read};

use crate::{Event, Gapped, List, Log, OutOfMemory, ThreadLog};
use std::alloc::Global;

/// The log of one journal: how many accesses, and the marks, each with the accesses since the
/// mark before it.
pub fn log_of_journal(alloc: Global, journal: &[Event]) -> Result<ThreadLog, OutOfMemory>
    requires { access_count journal.now < 2 ^ 32 }
    ensures { IfOk result (λ log. log ≡ log_of_journal journal.now) }
{
    let mut accesses = 0;
    let mut gap = 0;
    let mut marks = List::new(alloc);
    for event in journal {
        match *event {
            Event::Read { .. } | Event::Write { .. } | Event::Update { .. } => {
                accesses += 1;
                gap += 1;
            }
            Event::Marked { mark } => {
                marks.push(Gapped { gap, mark })?;
                gap = 0;
            }
        }
    }
    Ok(ThreadLog { accesses, marks })
}

fn thread_logs(alloc: Global, journals: &[List<Event>]) -> Result<List<ThreadLog>, OutOfMemory>
    requires { (thread : ℕ) → access_count (journal_of journals.now thread) < 2 ^ 32 }
    ensures { IfOk result (λ logs. logs ≡ log_of journals.now) }
{
    let mut logs = List::new(alloc);
    for journal in journals {
        logs.push(log_of_journal(alloc, journal.as_slice())?)?;
    }
    Ok(logs)
}

/// The log of journals. These are such that it is valid.
#[tactic(auto, using(crate::proofs::FewAccesses::few_accesses))]
pub fn log_of(alloc: Global, journals: &[List<Event>]) -> Result<Log, OutOfMemory>
    requires { IsTrue (is_log (log_of journals.now)) }
    ensures { IfOk result (λ log. log.threads ≡ log_of journals.now) }
{
    Ok(Log {
        threads: thread_logs(alloc, journals)?,
    })
}

/// The values that a thread read, in order.
pub fn values_read(alloc: Global, journal: &[Event]) -> Result<List<u64>, OutOfMemory>
    ensures { IfOk result (λ values. values ≡ values_read journal.now) }
{
    let mut values = List::new(alloc);
    for event in journal {
        if let Event::Read { value, .. } = *event {
            values.push(value)?;
        }
    }
    Ok(values)
}

/// The values that each thread read, in order.
pub fn reads_of(alloc: Global, journals: &[List<Event>]) -> Result<List<List<u64>>, OutOfMemory>
    ensures { IfOk result (λ reads. reads ≡ map values_read journals.now) }
{
    let mut reads = List::new(alloc);
    for journal in journals {
        reads.push(values_read(alloc, journal.as_slice())?)?;
    }
    Ok(reads)
}
