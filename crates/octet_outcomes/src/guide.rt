//! A thread's program, and what is known of its commands beforehand.
ghost use Rattle.std.specs.Prelude.{◌≡◌, ℕ, ◌<◌, ◌≤◌, ◌↔◌, [], true, length, get_or, IfOk, IfSome, IsSome, IsTrue};
ghost use Rattle.octet_model.specs.declared.limits.TheConstants.{MAX_FUEL};
ghost use Rattle.octet_model.specs.Thread.{settled, starting_configuration};
ghost use Rattle.octet_interp.specs.declared.program.Stand.{Stand};
ghost use Rattle.octet_interp.specs.Demands.{IsPossible};
ghost use Rattle.octet_interp.specs.Standing.{access_at, stand_of, stand_past};
ghost use Rattle.octet_outcomes.specs.Alike.{StandAlike};
ghost use Rattle.octet_outcomes.specs.Alone.{KeepsOff};
ghost use Rattle.octet_outcomes.specs.Guided.{IsGuided};

use crate::closers::{are_opened, ends_of, openers_of};
use crate::live::{are_live, find_live, kept};
use crate::quiet::{Quiet, is_over, quiets_of};
use octet_interp::{Demand, Program, Stand};
use octet_model::{Command, OutOfMemory, REGISTERS, Script};
use std::alloc::Global;
use std::marker::Model;

/// Nothing is found out beforehand of a thread with more commands, as that would take long.
const MOST_COMMANDS: usize = 4096;

/// For each place the registers that are live there, and for each object from where on there is no
/// access that conflicts with its own.
#[derive(Drop)]
pub(crate) struct Tables {
    live: Vec<[bool; REGISTERS]>,
    quiets: Vec<Quiet>,
}

/// A thread's program, with tables of its commands, if they were made.
#[derive(Drop)]
pub(crate) struct Guide {
    program: Program,
    commands: Vec<Command>,
    tables: Option<Tables>,
}

impl Model for Guide {
    ghost use Rattle.std.specs.Prelude.{◌≡◌, IfSome};
    ghost use Rattle.octet_interp.specs.Standing.{ThreadProgram};
    ghost use Rattle.octet_outcomes.specs.Guided.{IsGuided};

    ghost Value = { ThreadProgram };

    ghost view = { λ g. g.program };

    ghost invariant = { λ g. (g.commands.items ≡ g.program.commands) × IfSome g.tables (λ t. IsGuided g.program.commands t.live.items t.quiets.items) };
}

fn commands_of(script: &Script, thread: u8) -> &[Command]
    requires { thread < length script.now.threads }
    ensures { result.now ≡ get_or script.now.threads thread [] }
{
    script.threads.as_slice()[thread as usize].as_slice()
}

fn tables_of(
    alloc: Global,
    commands: &[Command],
    objects: usize,
) -> Result<Option<Tables>, OutOfMemory>
    ensures { IfOk result (λ made. IfSome made (λ t. IsGuided commands.now t.live.items t.quiets.items)) }
{
    if commands.len() > MOST_COMMANDS {
        return Ok(None);
    }
    let ends = ends_of(alloc, commands)?;
    let openers = openers_of(alloc, &ends)?;
    let live = find_live(alloc, commands, &ends, &openers)?;
    if !are_opened(commands, &ends, &openers) || !are_live(commands, &ends, &live) {
        return Ok(None);
    }
    let quiets = quiets_of(alloc, commands, &ends, objects)?;
    Ok(Some(Tables { live, quiets }))
}

impl Guide {
    /// The program of a thread of a script.
    pub(crate) fn new(alloc: Global, script: &Script, thread: u8) -> Result<Guide, OutOfMemory>
        requires { thread < length script.now.threads }
        ensures commands { IfOk result (λ guide. guide.commands ≡ get_or script.now.threads thread []) }
        ensures objects { IfOk result (λ guide. guide.objects ≡ length script.now.objects) }
    {
        let commands = commands_of(script, thread);
        Ok(Guide {
            program: Program::new(alloc, script, thread)?,
            tables: tables_of(alloc, commands, script.objects.len())?,
            commands: Vec::from_slice(alloc, commands)?,
        })
    }

    /// Where the thread stands at its start, once it has come to its first access or its end.
    pub(crate) fn start(&self, fuel: u32) -> Stand
        requires { fuel ≤ MAX_FUEL }
        ensures { result ≡ stand_of (settled self.now.commands (starting_configuration fuel)) }
    {
        self.program.start(fuel)
    }

    /// The access at which a thread stands, if it stands at one.
    pub(crate) fn access(&self, stand: &Stand) -> Option<Demand>
        ensures access { result ≡ access_at self.now.commands stand.now }
        ensures possible { IfSome result (IsPossible self.now.objects) }
    {
        self.program.access(stand)
    }

    /// Whether the thread has no command left.
    pub(crate) fn is_done(&self, stand: &Stand) -> bool
        ensures { IsTrue result ↔ (length self.now.commands ≤ stand.now.place) }
    {
        self.program.is_done(stand)
    }

    /// Where the thread stands after the access at which it stands, which gives a read this value,
    /// with 0 in registers that are read no more.
    pub(crate) fn past(&self, stand: &Stand, value: u64, fuel: u32) -> Stand
        requires access { IsSome (access_at self.now.commands stand.now) }
        requires some { 0 < fuel }
        requires few { fuel ≤ MAX_FUEL }
        ensures { StandAlike self.now.commands fuel (stand_past self.now.commands fuel stand.now value) result }
    {
        let past = self.program.past(stand, value, fuel);
        match &self.tables {
            Some(tables) => kept(&tables.live, &past),
            None => past,
        }
    }

    /// Whether it is known that from this place on the thread makes no access that conflicts with
    /// this one.
    pub(crate) fn keeps_off(&self, demand: Demand, place: usize) -> bool
        ensures { result ≡ true → (fuel more : ℕ) (stand : Stand) → stand.place ≡ place → KeepsOff more self.now.commands fuel demand stand }
    {
        match &self.tables {
            Some(tables) => is_over(&self.commands, &tables.quiets, demand, place),
            None => false,
        }
    }
}
