//! Why a text is no script.
ghost use Rattle.std.specs.Prelude.{◌≡◌};
ghost use Rattle.octet_script.specs.Causes.{cause_number, cause_text};

use octet_model::OutOfMemory;
use std::alloc::AllocFailed;
use thiserror::Error;

/// Why a text is no script.
#[derive(Clone, Copy, Debug, PartialEq, Eq, Error)]
pub enum ScriptCause {
    #[error("not UTF-8")]
    NotUtf8,
    #[error("unknown word")]
    UnknownWord,
    #[error("wrong count of words")]
    WrongCount,
    #[error("bad number")]
    BadNumber,
    #[error("bad name")]
    BadName,
    #[error("name given twice")]
    NameTwice,
    #[error("no such object")]
    NoSuchObject,
    #[error("bad register")]
    BadRegister,
    #[error("misplaced")]
    Misplaced,
    #[error("unclosed")]
    Unclosed,
    #[error("end without open")]
    EndWithoutOpen,
    #[error("too many")]
    TooMany,
    #[error("no thread")]
    NoThread,
    #[error("bad fuel")]
    BadFuel,
}

impl ScriptCause {
    /// The number of the cause, from 1 to 14.
    pub fn number(&self) -> u8
        ensures { result ≡ cause_number self.now }
    {
        match self {
            ScriptCause::NotUtf8 => 1,
            ScriptCause::UnknownWord => 2,
            ScriptCause::WrongCount => 3,
            ScriptCause::BadNumber => 4,
            ScriptCause::BadName => 5,
            ScriptCause::NameTwice => 6,
            ScriptCause::NoSuchObject => 7,
            ScriptCause::BadRegister => 8,
            ScriptCause::Misplaced => 9,
            ScriptCause::Unclosed => 10,
            ScriptCause::EndWithoutOpen => 11,
            ScriptCause::TooMany => 12,
            ScriptCause::NoThread => 13,
            ScriptCause::BadFuel => 14,
        }
    }

    /// The cause in words.
    pub fn text(&self) -> &'static str
        ensures { result.now ≡ cause_text self.now }
    {
        match self {
            ScriptCause::NotUtf8 => "not UTF-8",
            ScriptCause::UnknownWord => "unknown word",
            ScriptCause::WrongCount => "wrong count of words",
            ScriptCause::BadNumber => "bad number",
            ScriptCause::BadName => "bad name",
            ScriptCause::NameTwice => "name given twice",
            ScriptCause::NoSuchObject => "no such object",
            ScriptCause::BadRegister => "bad register",
            ScriptCause::Misplaced => "misplaced",
            ScriptCause::Unclosed => "unclosed",
            ScriptCause::EndWithoutOpen => "end without open",
            ScriptCause::TooMany => "too many",
            ScriptCause::NoThread => "no thread",
            ScriptCause::BadFuel => "bad fuel",
        }
    }
}

/// What `parse` answers in place of a script.
#[derive(Clone, Copy, Debug, PartialEq, Eq, Error)]
pub enum ScriptFault {
    /// The first refusal of the text, with its line, counted from 1.
    #[error("line {line}: {cause}")]
    Refused { line: u32, cause: ScriptCause },
    /// Memory was refused.
    #[error("out of memory")]
    OutOfMemory,
}

impl From<OutOfMemory> for ScriptFault {
    ghost use Rattle.std.specs.Prelude.{◌≡◌};
    ghost use Rattle.octet_script.specs.declared.cause.ScriptFault.TheVariants.{OutOfMemory};

    ghost from_gives = { λ _ e. e ≡ OutOfMemory };

    fn from(_: OutOfMemory) -> Self {
        ScriptFault::OutOfMemory
    }
}

impl<T: Drop> From<AllocFailed<T>> for ScriptFault {
    ghost use Rattle.std.specs.Prelude.{◌≡◌};
    ghost use Rattle.octet_script.specs.declared.cause.ScriptFault.TheVariants.{OutOfMemory};

    ghost from_gives = { λ _ e. e ≡ OutOfMemory };

    fn from(_: AllocFailed<T>) -> Self {
        ScriptFault::OutOfMemory
    }
}
