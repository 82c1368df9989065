//! The first words of lines.
ghost use Rattle.std.specs.Prelude.{◌≡◌};
ghost use Rattle.octet_script.specs.Parsing.{keyword, word_count, arithmetic_command};

use octet_model::Command;

/// The first word of a command that computes one register of two.
#[derive(Clone, Copy)]
pub(crate) enum Arithmetic {
    Add,
    Sub,
    Mul,
    Xor,
    Less,
    Same,
}

/// The first word of a command.
#[derive(Clone, Copy)]
pub(crate) enum Verb {
    Set,
    Copy,
    Arithmetic(Arithmetic),
    Read,
    Write,
    Bump,
    While,
    If,
    End,
    Safe,
    Pause,
    Region,
}

/// The first word of a line.
#[derive(Clone, Copy)]
pub(crate) enum Keyword {
    Fuel,
    Object,
    Thread,
    Command(Verb),
}

impl Keyword {
    /// The keyword that a word is.
    pub(crate) fn of(word: &[u8]) -> Option<Keyword>
        ensures { result ≡ keyword word.now }
    {
        match word {
            b"fuel" => Some(Keyword::Fuel),
            b"object" => Some(Keyword::Object),
            b"thread" => Some(Keyword::Thread),
            b"set" => Some(Keyword::Command(Verb::Set)),
            b"copy" => Some(Keyword::Command(Verb::Copy)),
            b"add" => Some(Keyword::Command(Verb::Arithmetic(Arithmetic::Add))),
            b"sub" => Some(Keyword::Command(Verb::Arithmetic(Arithmetic::Sub))),
            b"mul" => Some(Keyword::Command(Verb::Arithmetic(Arithmetic::Mul))),
            b"xor" => Some(Keyword::Command(Verb::Arithmetic(Arithmetic::Xor))),
            b"less" => Some(Keyword::Command(Verb::Arithmetic(Arithmetic::Less))),
            b"same" => Some(Keyword::Command(Verb::Arithmetic(Arithmetic::Same))),
            b"read" => Some(Keyword::Command(Verb::Read)),
            b"write" => Some(Keyword::Command(Verb::Write)),
            b"bump" => Some(Keyword::Command(Verb::Bump)),
            b"while" => Some(Keyword::Command(Verb::While)),
            b"if" => Some(Keyword::Command(Verb::If)),
            b"end" => Some(Keyword::Command(Verb::End)),
            b"safe" => Some(Keyword::Command(Verb::Safe)),
            b"pause" => Some(Keyword::Command(Verb::Pause)),
            b"region" => Some(Keyword::Command(Verb::Region)),
            _ => None,
        }
    }

    /// How many words its line has.
    pub(crate) fn word_count(self) -> usize
        ensures { result ≡ word_count self }
    {
        match self {
            Keyword::Fuel => 2,
            Keyword::Object => 3,
            Keyword::Thread => 1,
            Keyword::Command(verb) => verb.word_count(),
        }
    }
}

impl Verb {
    fn word_count(self) -> usize
        ensures { result ≡ word_count (Keyword.Command self) }
    {
        match self {
            Verb::Set | Verb::Copy | Verb::Read | Verb::Write | Verb::Bump => 3,
            Verb::Arithmetic(_) => 4,
            Verb::While | Verb::If => 2,
            Verb::End | Verb::Safe | Verb::Pause | Verb::Region => 1,
        }
    }
}

impl Arithmetic {
    pub(crate) fn command(self, to: u8, left: u8, right: u8) -> Command
        ensures { result ≡ arithmetic_command self to left right }
    {
        match self {
            Arithmetic::Add => Command::Add { to, left, right },
            Arithmetic::Sub => Command::Sub { to, left, right },
            Arithmetic::Mul => Command::Mul { to, left, right },
            Arithmetic::Xor => Command::Xor { to, left, right },
            Arithmetic::Less => Command::Less { to, left, right },
            Arithmetic::Same => Command::Same { to, left, right },
        }
    }
}
