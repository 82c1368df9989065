//! The program of what is noted of a thread.
ghost use Rattle.std.specs.Prelude.{◌≡◌, ◌++◌, ◌∷◌, [], IfOk, OnOk};
ghost use Rattle.octet_model.specs.declared.command.Command.TheVariants as set;
ghost use Rattle.octet_recorder.specs.Programs.{region_lines};
ghost use Rattle.octet_window.specs.Noting.{lines_of, program_of};

use crate::notes::Note;
use octet_model::{Command, Event, List, OutOfMemory};
use std::alloc::Global;

/// The register from which a value is written or added.
const FROM: u8 = 0;

/// The register to which a value is read.
const TO: u8 = 1;

// Adds the line of a region that begins with an access, if one does.
fn push_region(commands: &mut List<Command>, region: bool) -> Result<(), OutOfMemory>
    ensures { OnOk result (commands.new ≡ commands.old ++ region_lines region) }
{
    if region {
        commands.push(Command::Region)?;
    }
    Ok(())
}

// Adds the lines of an access by a value that is set first.
fn push_set(commands: &mut List<Command>, number: u64, access: Command) -> Result<(), OutOfMemory>
    ensures { OnOk result (commands.new ≡ commands.old ++ set.Set 0 number ∷ access ∷ []) }
{
    commands.push(Command::Set { to: FROM, number })?;
    commands.push(access)
}

// Adds the lines of a note.
fn push_lines(commands: &mut List<Command>, note: Note) -> Result<(), OutOfMemory>
    ensures { OnOk result (commands.new ≡ commands.old ++ lines_of note.region note.event) }
{
    if note.event.is_access() {
        push_region(commands, note.region)?;
    }
    match note.event {
        Event::Read { object, .. } => commands.push(Command::Read { to: TO, object }),
        Event::Write { object, value } => {
            push_set(commands, value, Command::Write { object, from: FROM })
        }
        Event::Update {
            object,
            before,
            after,
        } => {
            let amount = after.wrapping_sub(before);
            push_set(commands, amount, Command::Bump { object, from: FROM })
        }
        Event::Marked { .. } => Ok(()),
    }
}

/// The program of notes.
pub(crate) fn program_of(alloc: Global, notes: &[Note]) -> Result<List<Command>, OutOfMemory>
    ensures { IfOk result (λ program. program ≡ program_of notes.now) }
{
    let mut program = List::new(alloc);
    for note in notes {
        push_lines(&mut program, *note)?;
    }
    Ok(program)
}
