//! Whether no thread of a script writes an object that another one names.
ghost use Rattle.std.specs.Prelude.{◌↔◌, ◌<◌, ◌^◌, length, IfOk, IsTrue};
ghost use Rattle.std.specs.List.{All};
ghost use Rattle.octet_model.specs.Validity.{HasObject, IsValidThread};
ghost use Rattle.octet_parallel.specs.Apart.{AreApart, IsUnshared, AreSeenIn, AddsUse, TakesCommand, TakesCommands, KnowsThreads};

use octet_model::{Command, List, OutOfMemory, Script};
use std::alloc::Global;

/// How the threads use an object.
#[derive(Clone, Copy)]
struct Use {
    /// The thread that named it first.
    first: Option<u8>,
    /// Whether another one names it too.
    by_others: bool,
    is_written: bool,
}

impl Use {
    // With one more access, by this thread.
    fn with_access(self, thread: u8, writes: bool) -> Use
        ensures { AddsUse self thread writes result }
    {
        let is_written = self.is_written || writes;
        match self.first {
            None => Use {
                first: Some(thread),
                by_others: self.by_others,
                is_written,
            },
            Some(first) => Use {
                first: Some(first),
                by_others: self.by_others || first != thread,
                is_written,
            },
        }
    }
}

// Notes how a thread's command uses its object, if it is an access.
fn note(uses: &mut [Use], thread: u8, command: Command)
    requires { HasObject (length uses.old) command }
    ensures { TakesCommand uses.old thread command uses.new }
{
    if let Some(access) = command.access() {
        let kept = uses[access.object as usize];
        uses[access.object as usize] = kept.with_access(thread, access.writes);
    }
}

fn note_commands(uses: &mut [Use], thread: u8, commands: &[Command])
    requires { All (HasObject (length uses.old)) commands.now }
    ensures { TakesCommands uses.old thread commands.now (length commands.now) uses.new }
{
    for command in commands {
        note(uses, thread, *command);
    }
}

fn note_threads(uses: &mut [Use], threads: &[List<Command>])
    requires valid { All (IsValidThread (length uses.old)) threads.now }
    requires few { length threads.now < 2 ^ 8 }
    ensures known { KnowsThreads uses.new threads.now (length threads.now) }
    ensures seen { AreSeenIn threads.now uses.old → AreSeenIn threads.now uses.new }
{
    for thread in 0..threads.len() {
        note_commands(uses, thread as u8, threads[thread].as_slice());
    }
}

// Whether no object that is written is named by several threads.
fn none_is_shared(uses: &[Use]) -> bool
    ensures { IsTrue result ↔ All IsUnshared uses.now }
{
    uses.iter().all(|it| !(it.is_written && it.by_others))
}

/// Whether no thread of the script writes an object that another one names. Takes time in proportion to the commands.
pub(crate) fn are_apart(alloc: Global, script: &Script) -> Result<bool, OutOfMemory>
    ensures { IfOk result (λ apart. IsTrue apart ↔ AreApart script.now) }
{
    let unused = Use {
        first: None,
        by_others: false,
        is_written: false,
    };
    let mut uses = vec![in alloc; unused; script.objects.len()]?;
    note_threads(uses.as_mut_slice(), script.threads.as_slice());
    Ok(none_is_shared(uses.as_slice()))
}
