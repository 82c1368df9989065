//! Gives an answer to the desk: first the files, in pieces, and then the text in one call.
ghost use Rattle.std.specs.Prelude.{◌≡◌, None, OnOk, map as list_map};
ghost use Rattle.std.specs.List.{flat_map};
ghost use Rattle.octet_commands.specs.Answer.{answer_of, file_of, given_reply};
ghost use Rattle.octet_commands.specs.Delivery.{Makes, file_acts, acts_of, code_given, IsGiven};

use crate::refusal::Refused;
use crate::reply::{Output, Reply, Status};
use octet_base::{Desk, DeskFault};
use std::alloc::Global;

/// How many bytes of a file are written at once.
const PIECE: usize = 65536;

fn write_file<D: Desk>(
    alloc: Global,
    desk: &mut D,
    name: &str,
    bytes: &[u8],
) -> Result<(), DeskFault>
    requires { (D.state desk.old).begun ≡ None }
    ensures made { Makes (file_acts (name.now, bytes.now)) (D.state desk.old) result (D.state desk.new) }
    ensures begun { OnOk result ((D.state desk.new).begun ≡ None) }
{
    desk.begin(alloc, name)?;
    let mut rest = bytes;
    while !rest.is_empty() {
        let (piece, after) = rest.split_at(PIECE.min(rest.len()));
        match desk.add(alloc, piece) {
            Ok(()) => rest = after,
            Err(fault) => return Err(fault),
        }
    }
    desk.finish()
}

fn write_outputs<D: Desk>(alloc: Global, desk: &mut D, outputs: &[Output]) -> Result<(), DeskFault>
    requires { (D.state desk.old).begun ≡ None }
    ensures made { Makes (flat_map file_acts (list_map file_of outputs.now)) (D.state desk.old) result (D.state desk.new) }
{
    for output in outputs {
        if let Err(fault) = write_file(alloc, desk, output.name.as_str(), output.bytes.as_slice()) {
            return Err(fault);
        }
    }
    Ok(())
}

/// Writes the reply's files and says its text, up to the first call that is refused.
fn give<D: Desk>(alloc: Global, desk: &mut D, reply: &Reply) -> Result<(), DeskFault>
    requires { (D.state desk.old).begun ≡ None }
    ensures { Makes (acts_of (answer_of reply.now)) (D.state desk.old) result (D.state desk.new) }
{
    match write_outputs(alloc, desk, reply.outputs.as_slice()) {
        Ok(()) => desk.say(alloc, reply.text.as_slice()),
        Err(fault) => Err(fault),
    }
}

/// Gives the reply to the desk. The answer is the exit status: the reply's own, or that of a call
/// that failed or of memory that was refused.
pub fn deliver<D: Desk>(alloc: Global, desk: &mut D, reply: Result<Reply, Refused>) -> u8
    requires { (D.state desk.old).begun ≡ None }
    ensures { IsGiven (given_reply reply) (D.state desk.old) (D.state desk.new) result }
{
    let reply = match reply {
        Ok(reply) => reply,
        Err(Refused::Because(reply)) => reply,
        Err(Refused::OutOfMemory) => return Status::Memory.code(),
    };
    let given = give(alloc, desk, &reply);
    code_given(reply.status, given)
}

/// The exit status: this one, where all was given, or that of a call that failed or of memory that was
/// refused.
pub fn code_given(status: Status, given: Result<(), DeskFault>) -> u8
    ensures { result ≡ code_given status given }
{
    match given {
        Ok(()) => status.code(),
        Err(DeskFault::OutOfMemory) => Status::Memory.code(),
        Err(_) => Status::Write.code(),
    }
}
