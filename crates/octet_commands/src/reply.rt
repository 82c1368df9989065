//! What a command answers, before any of it is written or said.
ghost use Rattle.std.specs.Prelude.{◌≡◌, IfOk, string_bytes};

use octet_model::{List, OutOfMemory};
use std::alloc::Global;

/// What the exit status tells.
#[derive(Clone, Copy, Debug, PartialEq, Eq)]
pub enum Status {
    /// All was done.
    Done,
    /// The words are no command, or name no object.
    Words,
    /// The script is refused.
    Script,
    /// The log is refused.
    Log,
    /// The log is of another script, or does not fit it.
    Misfit,
    /// A file could not be taken.
    Read,
    /// Something could not be written or said.
    Write,
    /// Memory was refused.
    Memory,
    /// A file is over its limit.
    TooLong,
    /// The log does not order all conflicts.
    Unordered,
    /// The serial choice does not take all regions: a cycle was found.
    Cycle,
    /// There is no such thread or event in the log.
    NoEvent,
    /// A hunt has found no run that is looked for.
    NotFound,
    /// A search through all interleavings was cut off.
    NotAll,
    /// A run ends otherwise than was said.
    Otherwise,
}

impl Status {
    ghost use Rattle.octet_commands.specs.Answer.{code_of};

    /// The exit status.
    pub fn code(self) -> u8
        ensures { result ≡ code_of self }
    {
        match self {
            Status::Done => 0,
            Status::Words => 1,
            Status::Script => 2,
            Status::Log => 3,
            Status::Misfit => 4,
            Status::Read => 5,
            Status::Write => 6,
            Status::Memory => 7,
            Status::TooLong => 8,
            Status::Unordered => 9,
            Status::Cycle => 10,
            Status::NoEvent => 11,
            Status::NotFound => 12,
            Status::NotAll => 13,
            Status::Otherwise => 14,
        }
    }
}

/// A file to be written.
#[derive(Debug, Drop)]
pub struct Output {
    pub name: String,
    pub bytes: List<u8>,
}

/// The files to be written, in order, and then the text to be said.
#[derive(Debug, Drop)]
pub struct Reply {
    pub status: Status,
    pub outputs: List<Output>,
    pub text: List<u8>,
}

impl Reply {
    ghost use Rattle.octet_commands.specs.Answer.{answer_of, file_of, reports, says, writes_file, writes_both};

    /// A text is said, and no file is written.
    pub fn saying(alloc: Global, status: Status, text: Vec<u8>) -> Reply
        ensures { answer_of result ≡ says status text.items }
    {
        Reply {
            status,
            outputs: List::new(alloc),
            text: List::from_vec(text),
        }
    }

    /// All went well: a file is written, and then a text is said.
    pub fn writing(
        alloc: Global,
        name: &str,
        bytes: Vec<u8>,
        text: Vec<u8>,
    ) -> Result<Reply, OutOfMemory>
        ensures { IfOk result (λ reply. answer_of reply ≡ writes_file name.now bytes.items text.items) }
    {
        Reply::reporting(alloc, Status::Done, name, bytes, text)
    }

    /// A file is written, and then a text is said, with this status.
    pub(crate) fn reporting(
        alloc: Global,
        status: Status,
        name: &str,
        bytes: Vec<u8>,
        text: Vec<u8>,
    ) -> Result<Reply, OutOfMemory>
        ensures { IfOk result (λ reply. answer_of reply ≡ reports status name.now bytes.items text.items) }
    {
        let mut outputs = List::new(alloc);
        outputs.push(Output {
            name: String::from_str(alloc, name)?,
            bytes: List::from_vec(bytes),
        })?;
        Ok(Reply {
            status,
            outputs,
            text: List::from_vec(text),
        })
    }

    /// All went well: two files are written, one after the other, and then a text is said.
    pub fn writing_both(
        alloc: Global,
        first: Output,
        second: Output,
        text: Vec<u8>,
    ) -> Result<Reply, OutOfMemory>
        ensures { IfOk result (λ reply. answer_of reply ≡ writes_both (file_of first) (file_of second) text.items) }
    {
        let mut outputs = List::new(alloc);
        outputs.push(first)?;
        outputs.push(second)?;
        Ok(Reply {
            status: Status::Done,
            outputs,
            text: List::from_vec(text),
        })
    }
}
