//! `marks FILE`: the text of a marks file is said piece by piece while the file is taken, in bounded memory.
ghost use Rattle.std.specs.Prelude.{◌≡◌, IfOk};
ghost use Rattle.octet_marks.specs.Files.{unread_of, ending_of};
ghost use Rattle.octet_marks.specs.Texts.{ending_text};
ghost use Rattle.octet_commands.specs.declared.reply.Status.TheVariants.{Done};
ghost use Rattle.octet_commands.specs.Answer.{answer_of, says};
ghost use Rattle.octet_commands.specs.Marks.{IsMarksSaid, AddsNext, AddsAll, AreLines, IsReplySaid, IsUnreadSaid, IsTold};

use crate::giving::code_given;
use crate::refusal::{read_failed, too_long};
use crate::reply::{Reply, Status};
use octet_base::{Desk, DeskFault};
use octet_marks::{MarksFault, Reader, push_ending_text, push_piece_text, refusal_line};
use octet_model::OutOfMemory;
use std::alloc::Global;

/// How many bytes of a file are taken at once.
const TAKEN_AT_ONCE: u64 = 65_536;

/// A marks file has fewer bytes: POSIX counts the bytes of a file in 63 bits.
pub const TOO_MANY_BYTES: u64 = 9_223_372_036_854_775_808;

/// Lines of a marks file.
#[derive(Drop)]
struct Lines {
    text: Vec<u8>,
    /// Whether the last line says why what comes next is refused.
    refused: bool,
}

/// Takes the file and says its text meanwhile: the lines of its pieces, and then how it ends.
pub fn serve_marks<D: Desk>(alloc: Global, desk: &mut D, name: &str) -> u8
    ensures { IsMarksSaid name.now (D.state desk.old) (D.state desk.new) result }
{
    let mut reader = Reader::new(alloc);
    let mut from = 0;
    while from < TOO_MANY_BYTES {
        let limit = TAKEN_AT_ONCE.min(TOO_MANY_BYTES - from);
        let bytes = match desk.take_piece(alloc, name, from, limit as u32) {
            Ok(bytes) => bytes,
            Err(fault) => return end_unread(alloc, desk, fault),
        };
        if bytes.is_empty() {
            return say_last(alloc, desk, ending(alloc, &reader));
        }
        from += bytes.len() as u64;
        if let Some(code) = tell(alloc, desk, &mut reader, bytes.as_slice()) {
            return code;
        }
    }
    say_last(alloc, desk, too_long(alloc, name, TOO_MANY_BYTES - 1))
}

/// Feeds the reader, and says the lines of all pieces that are whole then. The answer is the status, if
/// nothing more is to be read: what comes next is refused, or not all could be said.
fn tell<D: Desk>(alloc: Global, desk: &mut D, reader: &mut Reader, bytes: &[u8]) -> Option<u8>
    ensures { IsTold bytes.now (unread_of reader.old) (unread_of reader.new) (D.state desk.old) (D.state desk.new) result }
{
    if reader.feed(alloc, bytes).is_err() {
        return Some(Status::Memory.code());
    }
    let Ok(lines) = read_lines(alloc, reader) else {
        return Some(Status::Memory.code());
    };
    if lines.refused {
        let reply = Reply::saying(alloc, Status::Log, lines.text);
        return Some(say_last(alloc, desk, Ok(reply)));
    }
    match desk.say(alloc, lines.text.as_slice()) {
        Ok(()) => None,
        Err(fault) => Some(code_given(Status::Done, Err(fault))),
    }
}

/// Reads all pieces that are whole.
fn read_lines(alloc: Global, reader: &mut Reader) -> Result<Lines, OutOfMemory>
    ensures { IfOk result (λ lines. AreLines (unread_of reader.old) (unread_of reader.new) lines.text.items lines.refused) }
{
    let mut text = Vec::new(alloc);
    match push_all(alloc, reader, &mut text) {
        Ok(()) => Ok(Lines {
            text,
            refused: false,
        }),
        Err(MarksFault::Refused { cause, at }) => {
            let line = refusal_line(alloc, cause, at)?;
            text.extend_from_slice(line.as_slice())?;
            Ok(Lines {
                text,
                refused: true,
            })
        }
        Err(MarksFault::OutOfMemory) => Err(OutOfMemory),
    }
}

/// Reads pieces and adds their lines at the end, up to one that is not whole or is refused.
fn push_all(alloc: Global, reader: &mut Reader, text: &mut Vec<u8>) -> Result<(), MarksFault>
    ensures { AddsAll (unread_of reader.old) (unread_of reader.new) text.old.items text.new.items result }
{
    'pieces: while push_next(alloc, reader, text)? {}
    Ok(())
}

/// Reads the next piece and adds its lines at the end, if it is whole.
fn push_next(alloc: Global, reader: &mut Reader, text: &mut Vec<u8>) -> Result<bool, MarksFault>
    ensures { AddsNext (unread_of reader.old) (unread_of reader.new) text.old.items text.new.items result }
{
    let Some(piece) = reader.next(alloc)? else {
        return Ok(false);
    };
    if push_piece_text(alloc, text, &piece).is_err() {
        return Err(MarksFault::OutOfMemory);
    }
    Ok(true)
}

/// Says the text of the reply. The answer is the exit status.
fn say_last<D: Desk>(alloc: Global, desk: &mut D, reply: Result<Reply, OutOfMemory>) -> u8
    ensures { IsReplySaid reply (D.state desk.old) (D.state desk.new) result }
{
    let Ok(reply) = reply else {
        return Status::Memory.code();
    };
    let said = desk.say(alloc, reply.text.as_slice());
    code_given(reply.status, said)
}

/// Says that reading failed, unless memory was refused. The answer is the exit status.
#[tactic(auto, using(crate::proofs::reading::Told::last_of))]
fn end_unread<D: Desk>(alloc: Global, desk: &mut D, fault: DeskFault) -> u8
    ensures { IsUnreadSaid fault (D.state desk.old) (D.state desk.new) result }
{
    match fault {
        DeskFault::OutOfMemory => Status::Memory.code(),
        DeskFault::Failed => say_last(alloc, desk, read_failed(alloc)),
        DeskFault::Absent => say_last(alloc, desk, read_failed(alloc)),
        DeskFault::TooLong => say_last(alloc, desk, read_failed(alloc)),
    }
}

/// The line that tells how the file ends, which is all that is left to say.
fn ending(alloc: Global, reader: &Reader) -> Result<Reply, OutOfMemory>
    ensures { IfOk result (λ reply. answer_of reply ≡ says Done (ending_text (ending_of (unread_of reader.now)))) }
{
    let mut line = Vec::new(alloc);
    push_ending_text(&mut line, reader.ending())?;
    Ok(Reply::saying(alloc, Status::Done, line))
}
