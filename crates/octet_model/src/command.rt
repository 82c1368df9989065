//! The commands of a script's threads.
ghost use Rattle.std.specs.Prelude.{◌≡◌};
ghost use Rattle.octet_model.specs.Thread.{access_of, is_access};

/// What an access does: which object it is of, and whether it writes the object.
#[derive(Clone, Copy, Debug, PartialEq, Eq)]
pub struct Access {
    pub object: u16,
    pub writes: bool,
}

/// A command of a thread. Registers are named by their number, below 16, and objects by their
/// place in the script. Arithmetic is modulo 2^64.
#[derive(Clone, Copy, Debug, PartialEq, Eq)]
pub enum Command {
    /// The register gets the number.
    Set { to: u8, number: u64 },
    /// The register gets another one's value.
    Copy { to: u8, from: u8 },
    Add { to: u8, left: u8, right: u8 },
    Sub { to: u8, left: u8, right: u8 },
    Mul { to: u8, left: u8, right: u8 },
    /// Exclusive or, bit by bit.
    Xor { to: u8, left: u8, right: u8 },
    /// 1 where left is below right, else 0.
    Less { to: u8, left: u8, right: u8 },
    /// 1 where left and right are equal, else 0.
    Same { to: u8, left: u8, right: u8 },
    /// The register gets the object's value.
    Read { to: u8, object: u16 },
    /// The object gets the register's value.
    Write { object: u16, from: u8 },
    /// The register's value is added to the object's, as one access; the thread learns no value.
    Bump { object: u16, from: u8 },
    /// Where the register is 0, goes on after its `Close`; its `Close` leads back here.
    Loop { test: u8 },
    /// Where the register is 0, goes on after its `Close`.
    Branch { test: u8 },
    /// Ends the nearest open `Loop` or `Branch`.
    Close,
    /// A safe point.
    Safe,
    /// The thread is marked blocked, and then unblocked again.
    Pause,
    /// Where a new region of the thread begins.
    Region,
}

impl Command {
    /// The access that it makes, if it makes one. A bump writes its object.
    #[inline(always)]
    pub fn access(self) -> Option<Access>
        ensures { result ≡ access_of self }
    {
        match self {
            Command::Read { object, .. } => Some(Access {
                object,
                writes: false,
            }),
            Command::Write { object, .. } | Command::Bump { object, .. } => Some(Access {
                object,
                writes: true,
            }),
            _ => None,
        }
    }

    /// Whether it is an access.
    #[inline(always)]
    pub fn is_access(self) -> bool
        ensures { result ≡ is_access self }
    {
        self.access().is_some()
    }
}
