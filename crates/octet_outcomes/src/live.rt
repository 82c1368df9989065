//! Which registers are read later, from each place of a thread's commands on.
ghost use Rattle.std.specs.Prelude.{◌≡◌, ◌<◌, ◌≤◌, ℕ, suc, true, false, length, get_or};
ghost use Rattle.octet_model.specs.declared.limits.TheConstants.{REGISTERS};
ghost use Rattle.octet_outcomes.specs.Flow.{AreEnds, AreLive, IsKept, IsLiveHere, IsSpared, is_loop, live_at, set_by, uses};

use crate::closers::is_opener;
use octet_interp::Stand;
use octet_model::{Command, OutOfMemory, REGISTERS};
use std::alloc::Global;

/// So many times all places are gone through at most.
const MOST_PASSES: usize = 64;

// Whether a command reads a register.
fn uses(command: Command, register: u8) -> bool
    ensures { result ≡ uses command register }
{
    match command {
        Command::Copy { from, .. } => register == from,
        Command::Write { from, .. } => register == from,
        Command::Bump { from, .. } => register == from,
        Command::Loop { test } => register == test,
        Command::Branch { test } => register == test,
        Command::Add { left, right, .. } => register == left || register == right,
        Command::Sub { left, right, .. } => register == left || register == right,
        Command::Mul { left, right, .. } => register == left || register == right,
        Command::Xor { left, right, .. } => register == left || register == right,
        Command::Less { left, right, .. } => register == left || register == right,
        Command::Same { left, right, .. } => register == left || register == right,
        _ => false,
    }
}

// The register that a command sets.
fn set_by(command: Command) -> Option<u8>
    ensures { result ≡ set_by command }
{
    match command {
        Command::Set { to, .. } => Some(to),
        Command::Copy { to, .. } => Some(to),
        Command::Add { to, .. } => Some(to),
        Command::Sub { to, .. } => Some(to),
        Command::Mul { to, .. } => Some(to),
        Command::Xor { to, .. } => Some(to),
        Command::Less { to, .. } => Some(to),
        Command::Same { to, .. } => Some(to),
        Command::Read { to, .. } => Some(to),
        _ => None,
    }
}

fn sets(command: Command, register: u8) -> bool
    ensures { result ≡ true → set_by command ≡ Some register }
{
    match set_by(command) {
        Some(to) => to == register,
        None => false,
    }
}

// Whether a register is live at a place; past the end none is.
fn is_live(live: &[[bool; REGISTERS]], place: usize, register: u8) -> bool
    requires { register < REGISTERS }
    ensures { result ≡ live_at live.now place register }
{
    match live.get(place) {
        Some(row) => row[register as usize],
        None => false,
    }
}

// Whether a register is live past a place.
fn is_live_past(live: &[[bool; REGISTERS]], place: usize, register: u8) -> bool
    requires { register < REGISTERS }
    ensures { result ≡ live_at live.now (suc place) register }
{
    place < live.len() && is_live(live, place + 1, register)
}

// Whether a register has to be live at a place, by what its command does and what is live at the
// places after it.
fn is_needed(
    commands: &[Command],
    ends: &[usize],
    live: &[[bool; REGISTERS]],
    place: usize,
    register: u8,
) -> bool
    requires ends { AreEnds commands.now ends.now }
    requires there { place < length commands.now }
    requires register { register < REGISTERS }
    ensures { result ≡ false → IsSpared commands.now live.now place register }
{
    let command = commands[place];
    if uses(command, register) {
        return true;
    }
    if is_live_past(live, place, register) && !sets(command, register) {
        return true;
    }
    is_opener(command) && is_live_past(live, ends[place], register)
}

pub(crate) fn is_loop(command: Command) -> bool
    ensures { result ≡ is_loop command }
{
    match command {
        Command::Loop { .. } => true,
        _ => false,
    }
}

// Whether a register is live at a place for what comes after it. From the end of a loop a thread
// goes back to its head.
fn is_wanted(
    commands: &[Command],
    ends: &[usize],
    openers: &[usize],
    live: &[[bool; REGISTERS]],
    place: usize,
    register: u8,
) -> bool
    requires ends { AreEnds commands.now ends.now }
    requires there { place < length commands.now }
    requires register { register < REGISTERS }
{
    if is_needed(commands, ends, live, place, register) {
        return true;
    }
    let (Command::Close, Some(opener)) = (commands[place], openers.get(place)) else {
        return false;
    };
    match commands.get(*opener) {
        Some(Command::Loop { .. }) => is_live(live, *opener, register),
        _ => false,
    }
}

// Makes live at a place what is wanted there, and says whether that is more than before.
fn fill(
    commands: &[Command],
    ends: &[usize],
    openers: &[usize],
    live: &mut [[bool; REGISTERS]],
    place: usize,
) -> bool
    requires ends { AreEnds commands.now ends.now }
    requires there { place < length commands.now }
{
    let mut is_more = false;
    for register in 0..REGISTERS {
        if place < live.len()
            && !live[place][register]
            && is_wanted(commands, ends, openers, live, place, register as u8)
        {
            live[place][register] = true;
            is_more = true;
        }
    }
    is_more
}

/// For each place the registers that are read from there on before they are set, if few passes
/// over the places find them. Nothing is promised of it but what `are_live` finds.
pub(crate) fn find_live(
    alloc: Global,
    commands: &[Command],
    ends: &[usize],
    openers: &[usize],
) -> Result<Vec<[bool; REGISTERS]>, OutOfMemory>
    requires { AreEnds commands.now ends.now }
{
    let mut live = vec![in alloc; [false; REGISTERS]; commands.len()]?;
    for _pass in 0..MOST_PASSES {
        let mut is_more = false;
        for before in 0..commands.len() {
            let place = commands.len() - 1 - before;
            if fill(commands, ends, openers, &mut live, place) {
                is_more = true;
            }
        }
        if !is_more {
            break;
        }
    }
    Ok(live)
}

// Whether a register is live at a place where it has to be.
fn is_right(
    commands: &[Command],
    ends: &[usize],
    live: &[[bool; REGISTERS]],
    place: usize,
    register: u8,
) -> bool
    requires ends { AreEnds commands.now ends.now }
    requires there { place < length commands.now }
    requires register { register < REGISTERS }
    ensures { result ≡ true → IsLiveHere commands.now live.now place register }
{
    if !is_live(live, place, register) {
        return !is_needed(commands, ends, live, place, register);
    }
    !is_loop(commands[place]) || is_live(live, ends[place], register)
}

fn are_right(commands: &[Command], ends: &[usize], live: &[[bool; REGISTERS]], place: usize) -> bool
    requires ends { AreEnds commands.now ends.now }
    requires there { place < length commands.now }
    ensures { result ≡ true → (register : ℕ) → register < REGISTERS → IsLiveHere commands.now live.now place register }
{
    for register in 0..REGISTERS {
        if !is_right(commands, ends, live, place, register as u8) {
            return false;
        }
    }
    true
}

/// Whether all registers are live where they have to be.
pub(crate) fn are_live(commands: &[Command], ends: &[usize], live: &[[bool; REGISTERS]]) -> bool
    requires { AreEnds commands.now ends.now }
    ensures { result ≡ true → AreLive commands.now live.now }
{
    for place in 0..commands.len() {
        if !are_right(commands, ends, live, place) {
            return false;
        }
    }
    true
}

/// The stand with 0 in each register that is not live there.
pub(crate) fn kept(live: &[[bool; REGISTERS]], stand: &Stand) -> Stand
    ensures kept { IsKept live.now stand.now result }
    ensures len { length stand.now.registers ≡ REGISTERS }
{
    let mut registers = stand.registers;
    for register in 0..REGISTERS {
        if !is_live(live, stand.place, register as u8) {
            registers[register] = 0;
        }
    }
    Stand {
        place: stand.place,
        registers,
    }
}
