//! Whether a log is of the script that it is taken with.
ghost use Rattle.std.specs.Prelude.{◌≡◌, IfOk};
ghost use Rattle.octet_replay.specs.Fit.{IsFitted, wrong_script_line};
ghost use Rattle.octet_replay.specs.declared.fitting.FitFault.TheVariants.{WrongScript};

use octet_log::{Digest, Loaded, digest};
use octet_model::OutOfMemory;
use std::alloc::Global;
use thiserror::Error;

/// Why a log does not go with a script.
#[derive(Debug, Drop, Error)]
pub enum FitFault {
    /// The log has the digest of another script: that of the script's bytes, and the log's.
    #[error("the log is of another script")]
    WrongScript { script: Digest, log: Digest },
}

/// Refuses a log that is of another script than the one with this text: it has a digest, and that is
/// not the text's. Takes no memory.
pub fn fit(text: &[u8], loaded: &Loaded) -> Result<(), FitFault>
    ensures { IsFitted text.now loaded.now.digest result }
{
    let Some(log) = loaded.digest else {
        return Ok(());
    };
    let script = digest(text);
    if log.bytes == script.bytes {
        Ok(())
    } else {
        Err(FitFault::WrongScript { script, log })
    }
}

fn digests_line(alloc: Global, script: &Digest, log: &Digest) -> Result<Vec<u8>, OutOfMemory>
    ensures { IfOk result (λ line. line.items ≡ wrong_script_line (WrongScript script.now log.now)) }
{
    let of_script = hex::encode(alloc, script.bytes)?;
    let of_log = hex::encode(alloc, log.bytes)?;
    let line = format!(in alloc; "fit: digest {of_script} of the script, {of_log} of the log\n")?;
    Ok(line.into_bytes())
}

/// The line that says that a log is of another script, with both digests in hexadecimal digits.
pub fn wrong_script_line(alloc: Global, fault: &FitFault) -> Result<Vec<u8>, OutOfMemory>
    ensures { IfOk result (λ line. line.items ≡ wrong_script_line fault.now) }
{
    match fault {
        FitFault::WrongScript { script, log } => digests_line(alloc, script, log),
    }
}
