//! A window as files.
ghost use Rattle.std.specs.Prelude.{◌≡◌, ◌<◌, ◌≤◌, true, false, IfOk, IfErr};
ghost use Rattle.octet_log.specs.v2.Pieces.{marks_in};
ghost use Rattle.octet_tail.specs.declared.texts.Unwritten.TheVariants as unwritten;
ghost use Rattle.octet_tail.specs.Texts.{IsTexts, IsUnwritten};

use octet_log::{MAX_MARKS, digest, encode_v2};
use octet_model::{MAX_SCRIPT_FILE, OutOfMemory, ThreadLog};
use octet_script::print;
use octet_window::Window;
use std::alloc::Global;

/// The text of a window's script, and the bytes of its log, which name that text by its digest.
#[derive(Debug, Drop)]
pub struct Texts {
    pub script: Vec<u8>,
    pub log: Vec<u8>,
}

/// Why a window has no files.
#[derive(Clone, Copy, Debug, PartialEq, Eq)]
pub enum Unwritten {
    /// The text of the script is longer than a script's file may be, or the log has more marks than a log's file may have.
    TooLong,
    OutOfMemory,
}

impl From<OutOfMemory> for Unwritten {
    ghost from_gives = { λ _ e. e ≡ unwritten.OutOfMemory };

    fn from(_: OutOfMemory) -> Self {
        Unwritten::OutOfMemory
    }
}

// Whether they have no more marks than a file may have.
fn are_few(logs: &[ThreadLog]) -> bool
    ensures few { result ≡ true → marks_in logs.now ≤ MAX_MARKS }
    ensures many { result ≡ false → MAX_MARKS < marks_in logs.now }
{
    let mut total = 0;
    for log in logs {
        let marks = log.marks.len();
        if marks > MAX_MARKS as usize - total {
            return false;
        }
        total += marks;
    }
    true
}

/// The files of a window, which every command takes that takes a script and a log.
pub fn texts_of(alloc: Global, window: &Window) -> Result<Texts, Unwritten>
    ensures texts { IfOk result (IsTexts window.now) }
    ensures unwritten { IfErr result (IsUnwritten window.now) }
{
    if !are_few(window.log.threads.as_slice()) {
        return Err(Unwritten::TooLong);
    }
    let script = print(alloc, &window.script)?;
    if script.len() > MAX_SCRIPT_FILE as usize {
        return Err(Unwritten::TooLong);
    }
    let log = encode_v2(alloc, &window.log, &digest(script.as_slice()))?;
    Ok(Texts { script, log })
}
