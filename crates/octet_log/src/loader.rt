//! Bytes of either version as a log.
ghost use Rattle.std.specs.Prelude.{◌≡◌, ◌≤◌, length, IfOk};
ghost use Rattle.octet_log.specs.Judging.{Gives};
ghost use Rattle.octet_log.specs.Spellings.{IsSpelling};
ghost use Rattle.octet_log.specs.v2.Pieces.{marks_in};
ghost use Rattle.octet_log.specs.Loading.{loaded, LoadsSpelling};
ghost use Rattle.octet_log.specs.Readings.{reading, reading_of};

use crate::{LogFault, MAX_MARKS, v1, v2};
use octet_model::{List, Log, MAX_LOG_FILE, ThreadLog};
use std::alloc::Global;

/// The SHA-256 of a script's bytes.
#[derive(Clone, Copy, Debug, PartialEq, Eq)]
pub struct Digest {
    pub bytes: [u8; 32],
}

/// A log that was read, and the digest of its script where the bytes have one.
#[derive(Debug, Drop)]
pub struct Loaded {
    pub log: Log,
    pub digest: Option<Digest>,
}

// The threads' logs and the digest that the bytes spell in either version.
#[tactic(auto, unfolding(crate::specs::Loading::loaded))]
fn read_either(alloc: Global, bytes: &[u8]) -> Result<(List<ThreadLog>, Option<Digest>), LogFault>
    ensures { Gives (λ x. reading x.0 x.1) result (loaded bytes.now) }
{
    match bytes.strip_prefix(b"OCTL\x02") {
        Some(rest) => {
            let (logs, digest) = v2::read_log(alloc, bytes.len(), rest)?;
            Ok((List::from_vec(logs), Some(digest)))
        }
        None => {
            let logs = v1::read_log(alloc, bytes)?;
            Ok((List::from_vec(logs), None))
        }
    }
}

/// The log that the bytes spell, all of them, in version 1 or 2, with its digest in version 2;
/// else the first refusal from the front, with its place. The bytes are at most 67,108,864. Room
/// is taken for no more marks than the bytes can hold, whatever number they claim.
pub fn decode(alloc: Global, bytes: &[u8]) -> Result<Loaded, LogFault>
    requires { length bytes.now ≤ MAX_LOG_FILE }

    // What is read is spelled so.
    ensures spelled { IfOk result (λ x. IsSpelling bytes.now (reading_of x).digest (reading_of x).logs) }
    // What spells a log is read, unless memory runs out.
    ensures read { LoadsSpelling reading_of bytes.now result }
    // Which refusal it is, and where.
    ensures judged { Gives reading_of result (loaded bytes.now) }
    // It has no more marks than version 2 may hold.
    ensures few { IfOk result (λ x. marks_in x.log.threads ≤ MAX_MARKS) }
{
    let (threads, digest) = read_either(alloc, bytes)?;
    let log = Log { threads };
    Ok(Loaded { log, digest })
}
