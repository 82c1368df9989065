//! The places to which openers and their ends lead, found once for all commands of a thread.
ghost use Rattle.std.specs.Prelude.{◌≡◌, ◌<◌, ◌≤◌, suc, Some, true, length, IfOk, IsTrue, OnOk};
ghost use Rattle.octet_model.specs.Script.{is_nested};
ghost use Rattle.octet_model.specs.Thread.{is_opener, place_past_end};
ghost use Rattle.octet_model.specs.Validity.{is_closer};
ghost use Rattle.octet_interp.specs.Leads.{IsLeadTable, IsMatched};

use octet_model::{Command, OutOfMemory};
use std::alloc::Global;

fn is_opener(command: Command) -> bool
    ensures { result ≡ is_opener command }
{
    match command {
        Command::Loop { .. } | Command::Branch { .. } => true,
        _ => false,
    }
}

fn is_closer(command: Command) -> bool
    ensures { result ≡ is_closer command }
{
    match command {
        Command::Close => true,
        _ => false,
    }
}

// Where the end of an opener leads.
fn place_past_end(command: Command, opener: usize, end: usize) -> usize
    requires { end < usize.MAX }
    ensures { result ≡ place_past_end (Some command) opener end }
{
    match command {
        Command::Loop { .. } => opener,
        _ => end + 1,
    }
}

// Takes in the command at a place: an opener stays open until its end comes.
fn take_in(
    commands: &[Command],
    place: usize,
    opened: &mut Vec<usize>,
    leads: &mut [usize],
) -> Result<(), OutOfMemory>
    requires within { place < length commands.now }
    requires room { place < usize.MAX }
    requires matched { IsMatched commands.now place opened.old.items leads.old }
    ensures { OnOk result (IsMatched commands.now (suc place) opened.new.items leads.new) }
{
    let command = commands[place];
    if is_opener(command) {
        opened.push(place)?;
        return Ok(());
    }
    if is_closer(command) {
        let Some(opener) = opened.pop() else {
            unreachable!()
        };
        leads[opener] = place + 1;
        leads[place] = place_past_end(commands[opener], opener, place);
        return Ok(());
    }
    Ok(())
}

/// For each opener the place past its end, for each end the place where it leads, and 0 for
/// every other command.
pub(crate) fn find_leads(alloc: Global, commands: &[Command]) -> Result<Vec<usize>, OutOfMemory>
    requires { IsTrue (is_nested 0 commands.now) }
    ensures { IfOk result (λ leads. IsLeadTable commands.now leads.items) }
{
    let mut leads = vec![in alloc; 0; commands.len()]?;
    let mut opened: Vec<usize> = Vec::new(alloc);
    for place in 0..commands.len() {
        take_in(commands, place, &mut opened, &mut leads)?;
    }
    Ok(leads)
}
