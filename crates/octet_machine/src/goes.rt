//! Turns of one thread up to its next access, while the others rest.
ghost use Rattle.std.specs.Prelude.{◌≡◌, ◌<◌, length};
ghost use Rattle.octet_machine.specs.Turns.{is_through, HasGone};

use crate::machine::Machine;
use crate::turned::Turned;

// Whether the thread has ended, or has made another number of accesses than this one.
fn is_through(machine: &Machine, thread: u8, accesses: u64) -> bool
    requires { thread < length machine.now.runners }
    ensures { result ≡ is_through machine.now thread accesses }
{
    machine.has_ended(thread) || machine.accesses(thread) != accesses
}

/// Takes turns of a thread until it has made one more access or has ended, `most` turns at most, and
/// then lets it rest. Where all others rest or have ended, nobody holds it up.
pub fn go(machine: &mut Machine, thread: u8, most: u32)
    requires { thread < length machine.old.runners }
    ensures gone { HasGone machine.old thread most machine.new }
    ensures threads { length machine.new.runners ≡ length machine.old.runners }
    ensures script { machine.new.script ≡ machine.old.script }
{
    let before = machine.accesses(thread);
    for _taken in 0..most {
        if is_through(machine, thread, before) {
            break;
        }
        machine.turn(thread);
    }
    machine.rest(thread);
}
