//! Where the openers of a thread's commands are closed.
ghost use Rattle.std.specs.Prelude.{◌≡◌, ◌+◌, ◌<◌, ◌≤◌, true, length, IfOk, IfSome};
ghost use Rattle.octet_model.specs.Thread.{is_opener, matching_end};
ghost use Rattle.octet_outcomes.specs.Flow.{AreEnds, AreOpened, IsDepthAfter, IsOpened, IsRightEnd};

use octet_model::{Command, OutOfMemory};
use std::alloc::Global;

pub(crate) fn is_opener(command: Command) -> bool
    ensures { result ≡ is_opener command }
{
    match command {
        Command::Loop { .. } | Command::Branch { .. } => true,
        _ => false,
    }
}

// How many openers are open after a command, unless it closes the last one.
fn depth_after(command: Command, depth: usize) -> Option<usize>
    requires { depth < usize.MAX }
    ensures depth { IsDepthAfter command depth result }
    ensures few { IfSome result (λ after. after ≤ depth + 1) }
{
    match command {
        Command::Loop { .. } => Some(depth + 1),
        Command::Branch { .. } => Some(depth + 1),
        Command::Close => {
            if depth <= 1 {
                return None;
            }
            Some(depth - 1)
        }
        _ => Some(depth),
    }
}

// The place of the closer that ends the opener at a place.
fn end_of(commands: &[Command], place: usize) -> usize
    requires { place ≤ length commands.now }
    ensures { result ≡ matching_end commands.now place }
{
    let mut depth: usize = 0;
    for at in place..commands.len() {
        let Some(after) = depth_after(commands[at], depth) else {
            return at;
        };
        depth = after;
    }
    commands.len()
}

fn end_at(commands: &[Command], place: usize) -> usize
    requires { place < length commands.now }
    ensures { IsRightEnd commands.now place result }
{
    if is_opener(commands[place]) {
        return end_of(commands, place);
    }
    0
}

/// For each opener the place of the closer that ends it, and 0 for every other command.
pub(crate) fn ends_of(alloc: Global, commands: &[Command]) -> Result<Vec<usize>, OutOfMemory>
    ensures { IfOk result (λ ends. AreEnds commands.now ends.items) }
{
    let mut ends = Vec::new(alloc);
    for place in 0..commands.len() {
        ends.push(end_at(commands, place))?;
    }
    Ok(ends)
}

// Whether the opener at a place is ended by this closer.
fn opens(commands: &[Command], ends: &[usize], opener: usize, end: usize) -> bool
    requires { AreEnds commands.now ends.now }
    ensures { result ≡ true → IsOpened commands.now end }
{
    if opener >= end {
        return false;
    }
    if opener >= commands.len() {
        return false;
    }
    if !is_opener(commands[opener]) {
        return false;
    }
    ends[opener] == end
}

/// For each closer the place of its opener, and 0 for every other command.
pub(crate) fn openers_of(alloc: Global, ends: &[usize]) -> Result<Vec<usize>, OutOfMemory> {
    let mut openers = vec![in alloc; 0; ends.len()]?;
    for place in 0..ends.len() {
        let end = ends[place];
        if place < end && end < openers.len() {
            openers[end] = place;
        }
    }
    Ok(openers)
}

/// Whether each closer has its opener.
pub(crate) fn are_opened(commands: &[Command], ends: &[usize], openers: &[usize]) -> bool
    requires { AreEnds commands.now ends.now }
    ensures { result ≡ true → AreOpened commands.now }
{
    for place in 0..commands.len() {
        if let Command::Close = commands[place] {
            let Some(opener) = openers.get(place) else {
                return false;
            };
            if !opens(commands, ends, *opener, place) {
                return false;
            }
        }
    }
    true
}
