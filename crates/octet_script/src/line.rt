//! The arguments of a line.
ghost use Rattle.std.specs.Prelude.{◌≡◌, ◌≤◌, length, IfOk, None};
ghost use Rattle.std.specs.Char.{is_ascii_digit};
ghost use Rattle.std.specs.List.{list_all};
ghost use Rattle.octet_model.specs.Name.{IsName, is_name, is_name_start, is_name_byte};
ghost use Rattle.octet_script.specs.Words.{texts};
ghost use Rattle.octet_script.specs.Spelling.{number_of, register_of, object_named, declared_names};
ghost use Rattle.octet_script.specs.Parsing.{word_at, number_at, register_at, object_at, name_at, command_of, Gives};

use crate::keyword::Verb;
use crate::objects::Objects;
use crate::{ScriptCause, ScriptFault};
use octet_model::{Command, MAX_NAME, MAX_OBJECTS};

const MAX_DIGITS: usize = 20;

fn are_digits(word: &[u8]) -> bool
    ensures { result ≡ list_all is_ascii_digit word.now }
{
    word.iter().all(|byte| byte.is_ascii_digit())
}

/// The number that a word is: 1 to 20 ASCII digits of value below 2^64. None for other words.
pub fn number_of(word: &[u8]) -> Option<u64>
    ensures { result ≡ number_of word.now }
{
    if word.len() > MAX_DIGITS {
        return None;
    }
    if !are_digits(word) {
        return None;
    }
    match str::from_utf8(word) {
        Ok(digits) => digits.parse::<u64>().ok(),
        Err(_) => None,
    }
}

fn register_of(word: &[u8]) -> Option<u8>
    ensures { result ≡ register_of word.now }
{
    match word {
        b"r0" => Some(0),
        b"r1" => Some(1),
        b"r2" => Some(2),
        b"r3" => Some(3),
        b"r4" => Some(4),
        b"r5" => Some(5),
        b"r6" => Some(6),
        b"r7" => Some(7),
        b"r8" => Some(8),
        b"r9" => Some(9),
        b"r10" => Some(10),
        b"r11" => Some(11),
        b"r12" => Some(12),
        b"r13" => Some(13),
        b"r14" => Some(14),
        b"r15" => Some(15),
        _ => None,
    }
}

fn starts_name(byte: u8) -> bool
    ensures { result ≡ is_name_start byte }
{
    byte.is_ascii_alphabetic() || byte == b'_'
}

fn continues_name(byte: u8) -> bool
    ensures { result ≡ is_name_byte byte }
{
    starts_name(byte) || byte.is_ascii_digit()
}

fn continue_name(bytes: &[u8]) -> bool
    ensures { result ≡ list_all is_name_byte bytes.now }
{
    bytes.iter().all(|byte| continues_name(*byte))
}

// A letter or `_`, then letters, digits and `_`, at most 32 bytes.
fn is_name(word: &[u8]) -> bool
    ensures { result ≡ is_name word.now }
{
    let Some((first, others)) = word.split_first() else {
        return false;
    };
    if word.len() > MAX_NAME {
        return false;
    }
    if !starts_name(*first) {
        return false;
    }
    continue_name(others)
}

/// A line: its number, counted from 1, and its words.
#[derive(Clone, Copy)]
pub(crate) struct Line<'l, 'a> {
    pub number: u32,
    pub words: &'l [&'a [u8]],
}

impl<'l, 'a> Line<'l, 'a> {
    pub(crate) fn refused(&self, cause: ScriptCause) -> ScriptFault
        ensures { result ≡ ScriptFault.Refused self.now.number cause }
    {
        ScriptFault::Refused {
            line: self.number,
            cause,
        }
    }

    /// The word at a place, or no bytes where there are too few.
    pub(crate) fn word_at(&self, place: usize) -> &'a [u8]
        ensures { result.now ≡ word_at (texts self.now.words.now) place }
    {
        match self.words.get(place) {
            Some(word) => word,
            None => b"",
        }
    }

    pub(crate) fn number_at(&self, place: usize) -> Result<u64, ScriptFault>
        ensures { result ≡ number_at self.now.number (texts self.now.words.now) place }
    {
        number_of(self.word_at(place)).ok_or(self.refused(ScriptCause::BadNumber))
    }

    fn register_at(&self, place: usize) -> Result<u8, ScriptFault>
        ensures { result ≡ register_at self.now.number (texts self.now.words.now) place }
    {
        register_of(self.word_at(place)).ok_or(self.refused(ScriptCause::BadRegister))
    }

    fn object_at(&self, objects: &Objects<'a>, place: usize) -> Result<u16, ScriptFault>
        requires { length objects.now ≤ MAX_OBJECTS }
        ensures { result ≡ object_at (declared_names objects.now) self.now.number (texts self.now.words.now) place }
    {
        match objects.place_of(self.word_at(place)) {
            Some(object) => Ok(object as u16),
            None => Err(self.refused(ScriptCause::NoSuchObject)),
        }
    }

    /// A name that no object has.
    pub(crate) fn name_at(
        &self,
        objects: &Objects<'a>,
        place: usize,
    ) -> Result<&'a [u8], ScriptFault>
        ensures form { IfOk result (λ name. IsName name.now) }
        ensures fresh { IfOk result (λ name. object_named (declared_names objects.now) name.now ≡ None) }
        ensures value { Gives (λ name. name.now) result (name_at (declared_names objects.now) self.now.number (texts self.now.words.now) place) }
    {
        let word = self.word_at(place);
        if !is_name(word) {
            return Err(self.refused(ScriptCause::BadName));
        }
        if objects.place_of(word).is_some() {
            return Err(self.refused(ScriptCause::NameTwice));
        }
        Ok(word)
    }

    /// The command that the line writes.
    pub(crate) fn command(&self, objects: &Objects<'a>, verb: Verb) -> Result<Command, ScriptFault>
        requires { length objects.now ≤ MAX_OBJECTS }
        ensures { result ≡ command_of (declared_names objects.now) self.now.number (texts self.now.words.now) verb }
    {
        match verb {
            Verb::Set => Ok(Command::Set {
                to: self.register_at(1)?,
                number: self.number_at(2)?,
            }),
            Verb::Copy => Ok(Command::Copy {
                to: self.register_at(1)?,
                from: self.register_at(2)?,
            }),
            Verb::Arithmetic(operation) => {
                let to = self.register_at(1)?;
                let left = self.register_at(2)?;
                let right = self.register_at(3)?;
                Ok(operation.command(to, left, right))
            }
            Verb::Read => Ok(Command::Read {
                to: self.register_at(1)?,
                object: self.object_at(objects, 2)?,
            }),
            Verb::Write => Ok(Command::Write {
                object: self.object_at(objects, 1)?,
                from: self.register_at(2)?,
            }),
            Verb::Bump => Ok(Command::Bump {
                object: self.object_at(objects, 1)?,
                from: self.register_at(2)?,
            }),
            Verb::While => Ok(Command::Loop {
                test: self.register_at(1)?,
            }),
            Verb::If => Ok(Command::Branch {
                test: self.register_at(1)?,
            }),
            Verb::End => Ok(Command::Close),
            Verb::Safe => Ok(Command::Safe),
            Verb::Pause => Ok(Command::Pause),
            Verb::Region => Ok(Command::Region),
        }
    }
}
