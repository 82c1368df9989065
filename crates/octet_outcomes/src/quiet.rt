//! From where on a thread makes no access that conflicts with another one.
ghost use Rattle.std.specs.Prelude.{◌≡◌, ◌<◌, ◌≤◌, true, false, length, IfSome, IfOk};
ghost use Rattle.octet_outcomes.specs.Flow.{AreEnds, IsQuietAt, IsQuietFrom, MayConflict};
ghost use Rattle.octet_outcomes.specs.Quiets.{AreQuiet, IsKnown, IsOver, IsQuiet};

use crate::live::is_loop;
use octet_interp::Demand;
use octet_model::{Command, OutOfMemory};
use std::alloc::Global;

/// From which place on a thread makes no access that conflicts with a read, a write or a bump of an
/// object, if that is known.
#[derive(Clone, Copy)]
pub(crate) struct Quiet {
    pub(crate) read: Option<usize>,
    pub(crate) write: Option<usize>,
    pub(crate) bump: Option<usize>,
}

// Whether the order of an access and of what a command may make matters.
fn may_conflict(demand: Demand, command: Command) -> bool
    ensures { result ≡ false → MayConflict demand command → ⊥ }
{
    match (demand, command) {
        (Demand::Read { object }, Command::Write { object: other, .. }) => object == other,
        (Demand::Read { object }, Command::Bump { object: other, .. }) => object == other,
        (Demand::Write { object, .. }, Command::Read { object: other, .. }) => object == other,
        (Demand::Write { object, .. }, Command::Write { object: other, .. }) => object == other,
        (Demand::Write { object, .. }, Command::Bump { object: other, .. }) => object == other,
        (Demand::Bump { object, .. }, Command::Read { object: other, .. }) => object == other,
        (Demand::Bump { object, .. }, Command::Write { object: other, .. }) => object == other,
        _ => false,
    }
}

fn is_quiet_at(
    commands: &[Command],
    ends: &[usize],
    demand: Demand,
    from: usize,
    place: usize,
) -> bool
    requires ends { AreEnds commands.now ends.now }
    requires there { place < length commands.now }
    ensures { result ≡ true → IsQuietAt commands.now demand from place }
{
    let command = commands[place];
    if from <= place {
        return !may_conflict(demand, command);
    }
    !is_loop(command) || ends[place] < from
}

fn is_quiet_from(commands: &[Command], ends: &[usize], demand: Demand, from: usize) -> bool
    requires { AreEnds commands.now ends.now }
    ensures { result ≡ true → IsQuietFrom commands.now demand from }
{
    for place in 0..commands.len() {
        if !is_quiet_at(commands, ends, demand, from, place) {
            return false;
        }
    }
    true
}

// The place past the last command that may conflict, and past the outermost loop over that.
fn past_last(commands: &[Command], ends: &[usize], demand: Demand) -> usize
    requires { AreEnds commands.now ends.now }
{
    let mut from: usize = 0;
    for place in 0..commands.len() {
        if may_conflict(demand, commands[place]) {
            from = place + 1;
        }
    }
    for place in 0..commands.len() {
        if place < from && is_loop(commands[place]) && ends[place] >= from {
            from = ends[place].saturating_add(1);
        }
    }
    from
}

fn quiet_from(commands: &[Command], ends: &[usize], demand: Demand) -> Option<usize>
    requires { AreEnds commands.now ends.now }
    ensures { IfSome result (IsQuietFrom commands.now demand) }
{
    let from = past_last(commands, ends, demand);
    if is_quiet_from(commands, ends, demand, from) {
        return Some(from);
    }
    None
}

fn quiet_of(commands: &[Command], ends: &[usize], object: u16) -> Quiet
    requires { AreEnds commands.now ends.now }
    ensures { IsQuiet commands.now object result }
{
    let write = Demand::Write { object, value: 0 };
    let bump = Demand::Bump { object, amount: 0 };
    Quiet {
        read: quiet_from(commands, ends, Demand::Read { object }),
        write: quiet_from(commands, ends, write),
        bump: quiet_from(commands, ends, bump),
    }
}

/// For each of so many objects from where on a thread makes no access that conflicts with its own.
pub(crate) fn quiets_of(
    alloc: Global,
    commands: &[Command],
    ends: &[usize],
    objects: usize,
) -> Result<Vec<Quiet>, OutOfMemory>
    requires { AreEnds commands.now ends.now }
    ensures { IfOk result (λ quiets. AreQuiet commands.now quiets.items) }
{
    let mut quiets = Vec::new(alloc);
    for object in 0..objects {
        let Ok(number) = u16::try_from(object) else {
            break;
        };
        quiets.push(quiet_of(commands, ends, number))?;
    }
    Ok(quiets)
}

// From where on no access conflicts with this one, by what is known of the objects.
fn known(quiets: &[Quiet], demand: Demand) -> Option<usize>
    ensures { IfSome result (IsKnown quiets.now demand) }
{
    match demand {
        Demand::Read { object } => quiets.get(object as usize)?.read,
        Demand::Write { object, .. } => quiets.get(object as usize)?.write,
        Demand::Bump { object, .. } => quiets.get(object as usize)?.bump,
        _ => None,
    }
}

/// Whether it is known that from this place on no access conflicts with this one.
pub(crate) fn is_over(commands: &[Command], quiets: &[Quiet], demand: Demand, place: usize) -> bool
    requires { AreQuiet commands.now quiets.now }
    ensures { result ≡ true → IsOver commands.now demand place }
{
    match known(quiets, demand) {
        Some(from) => from <= place,
        None => false,
    }
}
