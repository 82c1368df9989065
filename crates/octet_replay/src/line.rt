//! The line that says why a replay was refused.
ghost use Rattle.std.specs.Prelude.{◌≡◌, ◌++◌, IfOk, OnOk};
ghost use Rattle.std.specs.List.{flat_map};
ghost use Rattle.octet_model.specs.Texts.{value_word};
ghost use Rattle.octet_replay.specs.Line.{fit_line};
ghost use Rattle.octet_replay.specs.declared.fault.ReplayFault.TheVariants.{ThreadsDiffer, Stuck, Misfit};

use crate::ReplayFault;
use octet_model::{OutOfMemory, push_number};
use std::alloc::Global;

fn threads_line(alloc: Global, of_script: u32, of_log: u32) -> Result<Vec<u8>, OutOfMemory>
    ensures { IfOk result (λ line. line.items ≡ fit_line (ThreadsDiffer of_script of_log)) }
{
    let mut line = Vec::from_slice(alloc, b"fit: threads ")?;
    push_number(&mut line, u64::from(of_script))?;
    line.extend_from_slice(b" in the script, ")?;
    push_number(&mut line, u64::from(of_log))?;
    line.extend_from_slice(b" in the log\n")?;
    Ok(line)
}

fn push_positions(line: &mut Vec<u8>, positions: &[u64]) -> Result<(), OutOfMemory>
    ensures { OnOk result (line.new.items ≡ line.old.items ++ flat_map value_word positions.now) }
{
    for position in positions {
        line.extend_from_slice(b" ")?;
        push_number(line, *position)?;
    }
    Ok(())
}

fn stuck_line(alloc: Global, positions: &[u64]) -> Result<Vec<u8>, OutOfMemory>
    ensures { IfOk result (λ line. line.items ≡ fit_line (Stuck positions.now)) }
{
    let mut line = Vec::from_slice(alloc, b"fit: stuck at")?;
    push_positions(&mut line, positions)?;
    line.extend_from_slice(b"\n")?;
    Ok(line)
}

fn misfit_line(alloc: Global, thread: u8, wanted: u32, found: u32) -> Result<Vec<u8>, OutOfMemory>
    ensures { IfOk result (λ line. line.items ≡ fit_line (Misfit thread wanted found)) }
{
    let mut line = Vec::from_slice(alloc, b"fit: thread ")?;
    push_number(&mut line, u64::from(thread))?;
    line.extend_from_slice(b" wants ")?;
    push_number(&mut line, u64::from(wanted))?;
    line.extend_from_slice(b" accesses, found ")?;
    push_number(&mut line, u64::from(found))?;
    line.extend_from_slice(b"\n")?;
    Ok(line)
}

/// The line that says how a log does not fit its script: both numbers of threads, the positions
/// of all threads, or the accesses of the thread that does not fit. Out of memory has no line.
pub fn fit_line(alloc: Global, fault: &ReplayFault) -> Result<Vec<u8>, OutOfMemory>
    ensures { IfOk result (λ line. line.items ≡ fit_line fault.now) }
{
    match fault {
        ReplayFault::ThreadsDiffer { script, log } => threads_line(alloc, *script, *log),
        ReplayFault::Stuck { positions } => stuck_line(alloc, positions.as_slice()),
        ReplayFault::Misfit {
            thread,
            wanted,
            found,
        } => misfit_line(alloc, *thread, *wanted, *found),
        ReplayFault::OutOfMemory => Ok(Vec::new(alloc)),
    }
}
