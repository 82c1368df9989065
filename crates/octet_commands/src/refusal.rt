//! Why a request is refused, and the replies that say so.
ghost use Rattle.std.specs.Prelude.{◌≡◌, IfOk};
ghost use Rattle.octet_commands.specs.declared.refusal.Refused.TheVariants.{OutOfMemory as MemoryRefused};
ghost use Rattle.octet_commands.specs.Answer.{answer_of, not_a_command, no_such_object, read_failed, too_long, script_refused, log_refused, wrong_script, does_not_fit};

use crate::reply::{Reply, Status};
use octet_log::{LogCause, refusal_line};
use octet_model::OutOfMemory;
use octet_replay::{FitFault, ReplayFault, fit_line, wrong_script_line};
use octet_script::ScriptCause;
use std::alloc::{AllocError, Global};

/// Why a request is refused.
#[derive(Drop)]
pub enum Refused {
    /// Its words, its files, or what is in them; the reply says why.
    Because(Reply),
    OutOfMemory,
}

impl From<OutOfMemory> for Refused {
    ghost from_gives = { λ _ e. e ≡ MemoryRefused };

    fn from(_: OutOfMemory) -> Self {
        Refused::OutOfMemory
    }
}

impl From<AllocError> for Refused {
    ghost from_gives = { λ _ e. e ≡ MemoryRefused };

    fn from(_: AllocError) -> Self {
        Refused::OutOfMemory
    }
}

pub(crate) fn not_a_command(alloc: Global) -> Result<Reply, OutOfMemory>
    ensures { IfOk result (λ reply. answer_of reply ≡ not_a_command) }
{
    let line = Vec::from_slice(alloc, b"words: not a command\n")?;
    Ok(Reply::saying(alloc, Status::Words, line))
}

pub(crate) fn no_such_object(alloc: Global) -> Result<Reply, OutOfMemory>
    ensures { IfOk result (λ reply. answer_of reply ≡ no_such_object) }
{
    let line = Vec::from_slice(alloc, b"words: no such object\n")?;
    Ok(Reply::saying(alloc, Status::Words, line))
}

pub(crate) fn read_failed(alloc: Global) -> Result<Reply, OutOfMemory>
    ensures { IfOk result (λ reply. answer_of reply ≡ read_failed) }
{
    let line = Vec::from_slice(alloc, b"read: failed\n")?;
    Ok(Reply::saying(alloc, Status::Read, line))
}

pub(crate) fn too_long(alloc: Global, name: &str, limit: u64) -> Result<Reply, OutOfMemory>
    ensures { IfOk result (λ reply. answer_of reply ≡ too_long name.now limit) }
{
    let line = format!(in alloc; "long: {name} over {limit} bytes\n")?;
    Ok(Reply::saying(alloc, Status::TooLong, line.into_bytes()))
}

pub(crate) fn script_refused(
    alloc: Global,
    line: u32,
    cause: ScriptCause,
) -> Result<Reply, OutOfMemory>
    ensures { IfOk result (λ reply. answer_of reply ≡ script_refused line cause) }
{
    let number = cause.number();
    let text = cause.text();
    let line = format!(in alloc; "script: line {line}: {number} {text}\n")?;
    Ok(Reply::saying(alloc, Status::Script, line.into_bytes()))
}

pub(crate) fn log_refused(alloc: Global, cause: LogCause) -> Result<Reply, OutOfMemory>
    ensures { IfOk result (λ reply. answer_of reply ≡ log_refused cause) }
{
    let line = refusal_line(alloc, cause)?;
    Ok(Reply::saying(alloc, Status::Log, line))
}

pub(crate) fn wrong_script(alloc: Global, fault: &FitFault) -> Result<Reply, OutOfMemory>
    ensures { IfOk result (λ reply. answer_of reply ≡ wrong_script fault.now) }
{
    let line = wrong_script_line(alloc, fault)?;
    Ok(Reply::saying(alloc, Status::Misfit, line))
}

pub(crate) fn does_not_fit(alloc: Global, fault: &ReplayFault) -> Result<Reply, OutOfMemory>
    ensures { IfOk result (λ reply. answer_of reply ≡ does_not_fit fault.now) }
{
    let line = fit_line(alloc, fault)?;
    Ok(Reply::saying(alloc, Status::Misfit, line))
}
