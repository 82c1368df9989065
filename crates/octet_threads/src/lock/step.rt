//! What a worker does while it has the machine.
ghost use Rattle.std.specs.Prelude.{◌≡◌, ◌<◌, length};

use octet_machine::{Machine, Turned};

/// What a worker finds while it has the machine.
#[derive(Clone, Copy, Debug, PartialEq, Eq)]
pub(crate) enum Found {
    /// The thread is about to make the access of this number, for which the gate was not passed.
    AtGate { access: u32 },
    /// The thread took a turn.
    Took { turned: Turned },
}

/// Takes one turn of the thread, unless the gate is to be passed before it. It was last passed
/// for the access of the number `passed`, if it was passed at all.
pub(crate) fn step(machine: &mut Machine, thread: u8, passed: Option<u32>) -> Found
    requires { thread < length machine.old.runners }
    ensures { length machine.new.runners ≡ length machine.old.runners }
{
    if let Some(access) = machine.wants(thread) {
        if passed != Some(access) {
            return Found::AtGate { access };
        }
    }
    Found::Took {
        turned: machine.turn(thread),
    }
}
