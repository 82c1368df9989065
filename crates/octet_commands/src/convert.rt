//! The command `convert SCRIPT LOG OUT`.
ghost use Rattle.std.specs.Prelude.{◌≡◌, ◌≤◌, IfOk, Some};
ghost use Rattle.sha2.specs.Sha256.{sha256};
ghost use Rattle.octet_log.specs.v2.Pieces.{marks_in};
ghost use Rattle.octet_log.specs.declared.limits.TheConstants.{MAX_MARKS};
ghost use Rattle.octet_commands.specs.Commands.{second_bytes, Converts, IsLogFile};
ghost use Rattle.octet_commands.specs.Answer.{answer_of, reports, IsAnswered};

use crate::inputs::{Pair, Source};
use crate::refusal::{Refused, does_not_fit};
use crate::reply::{Reply, Status};
use octet_log::{digest, encode_v2};
use octet_model::{Log, OutOfMemory};
use octet_replay::ReplayFault;
use std::alloc::Global;

/// The log is written in version 2, with the digest of the script's text.
pub(crate) fn convert(alloc: Global, pair: &Pair, out: &str) -> Result<Reply, Refused>
    requires { marks_in pair.now.loaded.log.threads ≤ MAX_MARKS }
    ensures { IsAnswered (Converts out.now pair.now) result }
{
    let script = pair.source.script.threads.len() as u32;
    let log = pair.loaded.log.threads.len() as u32;
    if script != log {
        let reply = does_not_fit(alloc, &ReplayFault::ThreadsDiffer { script, log })?;
        return Err(Refused::Because(reply));
    }
    let said = Vec::from_slice(alloc, b"converted\n")?;
    let log = &pair.loaded.log;
    Ok(write_log(alloc, &pair.source, log, Status::Done, out, said)?)
}

/// A log is written in version 2, with the digest of the script's text, and a text is said.
pub(crate) fn write_log(
    alloc: Global,
    source: &Source,
    log: &Log,
    status: Status,
    name: &str,
    text: Vec<u8>,
) -> Result<Reply, OutOfMemory>
    requires { marks_in log.now.threads ≤ MAX_MARKS }
    ensures { IfOk result (λ reply. IsLogFile (second_bytes source.now.text log.now.threads) (Some (sha256 source.now.text)) log.now.threads × (answer_of reply ≡ reports status name.now (second_bytes source.now.text log.now.threads) text.items)) }
{
    let digest = digest(source.text.as_slice());
    let bytes = encode_v2(alloc, log, &digest)?;
    Reply::reporting(alloc, status, name, bytes, text)
}
