//! From a text to the script that it spells.
ghost use Rattle.std.specs.Prelude.{◌≡◌, ◌≤◌, ℕ, length, count_by, IfOk};
ghost use Rattle.octet_script.specs.Words.{lines, is_line_end};
ghost use Rattle.octet_script.specs.Spelling.{Spells, contents};
ghost use Rattle.octet_script.specs.Parsing.{Gives, judged_bytes, judged_lines, parsed};
ghost use Rattle.octet_script.specs.Building.{draft};

use crate::builder::Builder;
use crate::line::Line;
use crate::words::{cut_line, split_words};
use crate::{ScriptCause, ScriptFault};
use octet_model::{MAX_SCRIPT_FILE, Script};
use std::alloc::Global;

fn judge_bytes(text: &[u8]) -> Result<(), ScriptFault>
    requires { length text.now ≤ MAX_SCRIPT_FILE }
    ensures { Gives (λ _. tt) result (judged_bytes text.now) }
{
    match str::from_utf8(text) {
        Ok(_) => Ok(()),
        Err(fault) => Err(ScriptFault::Refused {
            line: 1 + count_line_ends(&text[..fault.valid_up_to()]) as u32,
            cause: ScriptCause::NotUtf8,
        }),
    }
}

fn count_line_ends(text: &[u8]) -> usize
    ensures { result ≡ count_by is_line_end text.now }
{
    text.iter().filter(|byte| **byte == b'\n').count()
}

// Judges all lines, and gives the number of the last.
fn judge_lines<'a>(
    alloc: Global,
    builder: &mut Builder<'a>,
    text: &'a [u8],
) -> Result<u32, ScriptFault>
    requires { length text.now ≤ MAX_SCRIPT_FILE }
    ensures said { Gives (λ _. draft builder.new) result (judged_lines (lines text.now) (draft builder.old) 1) }
    ensures last { IfOk result (λ last. last ≡ length (lines text.now)) }
{
    let mut words = Vec::new(alloc);
    let mut number = 1;
    let mut rest = text;
    while let Some((line, after)) = cut_line(rest) {
        split_words(line, &mut words)?;
        builder.judge(
            alloc,
            Line {
                number,
                words: words.as_slice(),
            },
        )?;
        number += 1;
        rest = after;
    }
    split_words(rest, &mut words)?;
    builder.judge(
        alloc,
        Line {
            number,
            words: words.as_slice(),
        },
    )?;
    Ok(number)
}

// The script of the text, or the first refusal.
fn read(alloc: Global, text: &[u8]) -> Result<Script, ScriptFault>
    requires { length text.now ≤ MAX_SCRIPT_FILE }
    ensures { Gives contents result (parsed text.now) }
{
    judge_bytes(text)?;
    let mut builder = Builder::new(alloc);
    let last = judge_lines(alloc, &mut builder, text)?;
    builder.finish(alloc, last)
}

/// The script that a text spells, or the first refusal of the text.
pub fn parse(alloc: Global, text: &[u8]) -> Result<Script, ScriptFault>
    requires { length text.now ≤ MAX_SCRIPT_FILE }
    // Which script, or which refusal, it is.
    ensures exact { Gives contents result (parsed text.now) }
    // What is read is spelled so.
    ensures ok { IfOk result (λ script. Spells text.now script) }
    // What is spelled so is read, unless memory is refused.
    ensures only { (script : Script) → Spells text.now script → Gives (λ s. s) result (Ok script) }
{
    read(alloc, text)
}
