//! The canonical text of a script.
ghost use Rattle.std.specs.Prelude.{◌≡◌, ◌++◌, [], IfOk, OnOk, codes};
ghost use Rattle.std.specs.List.{flat_map};
ghost use Rattle.octet_script.specs.Spelling.{declaration, object_names, object_word, register_word, canonical_words, canonical_line, canonical_text, command_form, head_form, thread_forms, ObjectHead, Spells};
ghost use Rattle.octet_model.specs.Name.{IsName};

use octet_model::{Command, Object, OutOfMemory, Script, push_number};
use std::alloc::Global;

// A word, and registers after it.
fn push_registers(out: &mut Vec<u8>, word: &[u8], registers: &[u8]) -> Result<(), OutOfMemory>
    ensures { OnOk result (out.new.items ≡ out.old.items ++ word.now ++ flat_map (λ r. codes " " ++ register_word r) registers.now) }
{
    out.extend_from_slice(word)?;
    for register in registers {
        out.extend_from_slice(b" r")?;
        push_number(out, *register as u64)?;
    }
    Ok(())
}

fn name_of(objects: &[Object], object: u16) -> &[u8]
    ensures { result.now ≡ object_word (object_names objects.now) object }
{
    match objects.get(object as usize) {
        Some(object) => object.name.as_bytes(),
        None => b"",
    }
}

fn push_name(out: &mut Vec<u8>, objects: &[Object], object: u16) -> Result<(), OutOfMemory>
    ensures { OnOk result (out.new.items ≡ out.old.items ++ codes " " ++ object_word (object_names objects.now) object) }
{
    out.extend_from_slice(b" ")?;
    out.extend_from_slice(name_of(objects, object))?;
    Ok(())
}

fn push_words(out: &mut Vec<u8>, objects: &[Object], command: Command) -> Result<(), OutOfMemory>
    ensures { OnOk result (out.new.items ≡ out.old.items ++ canonical_words (object_names objects.now) (command_form command)) }
{
    match command {
        Command::Set { to, number } => {
            push_registers(out, b"set", &[to])?;
            out.extend_from_slice(b" ")?;
            push_number(out, number)
        }
        Command::Copy { to, from } => push_registers(out, b"copy", &[to, from]),
        Command::Add { to, left, right } => push_registers(out, b"add", &[to, left, right]),
        Command::Sub { to, left, right } => push_registers(out, b"sub", &[to, left, right]),
        Command::Mul { to, left, right } => push_registers(out, b"mul", &[to, left, right]),
        Command::Xor { to, left, right } => push_registers(out, b"xor", &[to, left, right]),
        Command::Less { to, left, right } => push_registers(out, b"less", &[to, left, right]),
        Command::Same { to, left, right } => push_registers(out, b"same", &[to, left, right]),
        Command::Read { to, object } => {
            push_registers(out, b"read", &[to])?;
            push_name(out, objects, object)
        }
        Command::Write { object, from } => {
            out.extend_from_slice(b"write")?;
            push_name(out, objects, object)?;
            push_registers(out, b"", &[from])
        }
        Command::Bump { object, from } => {
            out.extend_from_slice(b"bump")?;
            push_name(out, objects, object)?;
            push_registers(out, b"", &[from])
        }
        Command::Loop { test } => push_registers(out, b"while", &[test]),
        Command::Branch { test } => push_registers(out, b"if", &[test]),
        Command::Close => push_registers(out, b"end", &[]),
        Command::Safe => push_registers(out, b"safe", &[]),
        Command::Pause => push_registers(out, b"pause", &[]),
        Command::Region => push_registers(out, b"region", &[]),
    }
}

fn push_command(out: &mut Vec<u8>, objects: &[Object], command: Command) -> Result<(), OutOfMemory>
    ensures { OnOk result (out.new.items ≡ out.old.items ++ canonical_line (object_names objects.now) (command_form command)) }
{
    push_words(out, objects, command)?;
    out.extend_from_slice(b"\n")?;
    Ok(())
}

fn push_object(out: &mut Vec<u8>, object: &Object) -> Result<(), OutOfMemory>
    ensures text { OnOk result (out.new.items ≡ out.old.items ++ canonical_line [] (head_form (ObjectHead (declaration object.now)))) }
    ensures name { IsName object.now.name }
{
    let name = object.name.as_bytes();
    out.extend_from_slice(b"object ")?;
    out.extend_from_slice(name)?;
    out.extend_from_slice(b" ")?;
    push_number(out, object.start)?;
    out.extend_from_slice(b"\n")?;
    Ok(())
}

fn push_thread(
    out: &mut Vec<u8>,
    objects: &[Object],
    commands: &[Command],
) -> Result<(), OutOfMemory>
    ensures { OnOk result (out.new.items ≡ out.old.items ++ flat_map (canonical_line (object_names objects.now)) (thread_forms commands.now)) }
{
    out.extend_from_slice(b"thread\n")?;
    for command in commands {
        push_command(out, objects, *command)?;
    }
    Ok(())
}

/// The canonical text of a script: the fuel, each object, then each thread with its commands.
pub fn print(alloc: Global, script: &Script) -> Result<Vec<u8>, OutOfMemory>
    ensures text { IfOk result (λ text. text.items ≡ canonical_text script.now) }
    // It spells the script, so that parsing gives the script back.
    ensures spells { IfOk result (λ text. Spells text.items script.now) }
{
    let mut out = Vec::new(alloc);
    out.extend_from_slice(b"fuel ")?;
    push_number(&mut out, script.fuel as u64)?;
    out.extend_from_slice(b"\n")?;
    let objects = script.objects.as_slice();
    for object in objects {
        push_object(&mut out, object)?;
    }
    for commands in script.threads.as_slice() {
        push_thread(&mut out, objects, commands.as_slice())?;
    }
    Ok(out)
}
