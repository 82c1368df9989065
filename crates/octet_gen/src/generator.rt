//! The generated script.
ghost use Rattle.std.specs.Prelude.{◌≡◌, ◌<◌, ◌*◌, ◌+◌, ◌++◌, IfOk, OnOk, length, map};
ghost use Rattle.octet_gen.specs.Generated.{number_after, access_of_draw, accesses_from, loop_round, generated_name, generated_names, first_numbers, generated_threads, IsGenerated};

use crate::draws::Draws;
use octet_model::{Command, List, Name, Object, OutOfMemory, Script};
use std::alloc::Global;

const FUEL: u32 = 32_768;

const THREADS: u16 = 8;

const OBJECTS: u16 = 64;

const OBJECTS_OF_A_THREAD: u16 = 4;

const SHARED_OBJECTS: u16 = 32;

const ACCESSES: u16 = 16;

const TURNS: u64 = 1250;

fn name_of(alloc: Global, place: u16) -> Result<Name, OutOfMemory>
    requires { place < 64 }
    ensures { IfOk result (λ name. name ≡ generated_name place) }
{
    let text = format!(in alloc; "o{place}")?;
    Name::new(alloc, text.as_bytes())
}

fn make_objects(alloc: Global) -> Result<List<Object>, OutOfMemory>
    ensures names { IfOk result (λ objects. map (λ object. object.name) objects ≡ generated_names 64) }
    ensures starts { IfOk result (λ objects. map (λ object. object.start) objects ≡ first_numbers 64) }
{
    let mut objects = List::new(alloc);
    for place in 0..OBJECTS {
        objects.push(Object {
            name: name_of(alloc, place)?,
            start: u64::from(place),
        })?;
    }
    Ok(objects)
}

fn access_of(thread: u16, draw: u64) -> Command
    requires { thread < 8 }
    ensures { result ≡ access_of_draw thread draw }
{
    let kind = (draw % 16) as u16;
    let object = if kind < 14 {
        OBJECTS_OF_A_THREAD * thread + kind % OBJECTS_OF_A_THREAD
    } else {
        SHARED_OBJECTS + (draw / 16 % 32) as u16
    };
    if draw / 512 % 4 == 0 {
        Command::Write { object, from: 0 }
    } else {
        Command::Read { to: 2, object }
    }
}

fn push_accesses(
    commands: &mut List<Command>,
    thread: u16,
    draws: &mut Draws,
) -> Result<(), OutOfMemory>
    requires { thread < 8 }
    ensures commands { OnOk result (commands.new ≡ commands.old ++ accesses_from draws.old.number 0 thread 16) }
    ensures draws { OnOk result (draws.new.number ≡ number_after draws.old.number 16) }
{
    for _place in 0..ACCESSES {
        commands.push(access_of(thread, draws.draw()))?;
    }
    Ok(())
}

fn make_thread(alloc: Global, thread: u16, draws: &mut Draws) -> Result<List<Command>, OutOfMemory>
    requires { thread < 8 }
    ensures commands { IfOk result (λ commands. commands ≡ loop_round (accesses_from draws.old.number 0 thread 16)) }
    ensures draws { OnOk result (draws.new.number ≡ number_after draws.old.number 16) }
{
    let mut commands = List::new(alloc);
    commands.push(Command::Set {
        to: 0,
        number: TURNS,
    })?;
    commands.push(Command::Set { to: 1, number: 1 })?;
    commands.push(Command::Loop { test: 0 })?;
    push_accesses(&mut commands, thread, draws)?;
    commands.push(Command::Safe)?;
    commands.push(Command::Sub {
        to: 0,
        left: 0,
        right: 1,
    })?;
    commands.push(Command::Close)?;
    Ok(commands)
}

fn make_threads(alloc: Global, number: u64) -> Result<List<List<Command>>, OutOfMemory>
    ensures { IfOk result (λ threads. threads ≡ generated_threads number 8) }
{
    let mut draws = Draws { number };
    let mut threads = List::new(alloc);
    for thread in 0..THREADS {
        threads.push(make_thread(alloc, thread, &mut draws)?)?;
    }
    Ok(threads)
}

/// The generated script of a number: 64 objects, and eight threads, each of which makes sixteen
/// accesses of its own, as they are drawn, 1,250 times.
pub fn make(alloc: Global, number: u64) -> Result<Script, OutOfMemory>
    ensures { IfOk result (λ script. IsGenerated number script) }
{
    let objects = make_objects(alloc)?;
    let threads = make_threads(alloc, number)?;
    Ok(Script {
        fuel: FUEL,
        objects,
        threads,
    })
}
