//! The program of a thread, which is run on from wherever the thread may stand.
ghost use Rattle.std.specs.Prelude.{◌≡◌, ◌+◌, ◌<◌, ◌≤◌, ◌^◌, ◌↔◌, [], Some, get_or, length, All, IfOk, IfSome, IsSome, IsTrue};
ghost use Rattle.octet_model.specs.declared.limits.TheConstants.{MAX_FUEL};
ghost use Rattle.octet_model.specs.Thread.{past_access, settled, starting_configuration};
ghost use Rattle.octet_model.specs.Validity.{HasRegisters};
ghost use Rattle.octet_interp.specs.Context.{configuration_of};
ghost use Rattle.octet_interp.specs.Demands.{IsPossible};
ghost use Rattle.octet_interp.specs.Leads.{IsLeadTable};
ghost use Rattle.octet_interp.specs.Standing.{access_at, access_demand, stand_of, stand_past};

use crate::Demand;
use crate::config::commands_of;
use crate::context::{Context, move_to, obey, set_register};
use crate::leads::find_leads;
use octet_model::{Command, OutOfMemory, REGISTERS, Script};
use std::alloc::Global;
use std::marker::Model;

/// Where a thread stands, without its fuel.
#[derive(Clone, Copy, Debug)]
pub struct Stand {
    /// The place of its next command among its commands; their number when it has none left.
    pub place: usize,
    /// What its registers hold.
    pub registers: [u64; REGISTERS],
}

/// The commands of a thread of a script.
#[derive(Drop)]
pub struct Program {
    commands: Vec<Command>,
    leads: Vec<usize>,
    objects: usize,
}

impl Model for Program {
    ghost use Rattle.octet_interp.specs.Standing.{ThreadProgram, IsProgram};

    ghost Value = { ThreadProgram };

    ghost view = { λ p. record { commands = p.commands.items; objects = p.objects } };

    ghost invariant = { λ p. IsProgram p.commands.items p.leads.items p.objects };
}

// Runs on to the next access, or to the thread's end.
fn settle(commands: &[Command], leads: &[usize], context: &mut Context)
    requires registers { All HasRegisters commands.now }
    requires leads { IsLeadTable commands.now leads.now }
    requires few { context.old.regions + context.old.fuel < 2 ^ 32 }
    ensures { configuration_of context.new ≡ settled commands.now (configuration_of context.old) }
{
    while context.place < commands.len() {
        if context.fuel == 0 {
            return;
        }
        let command = commands[context.place];
        if command.is_access() {
            return;
        }
        let lead = leads[context.place];
        obey(context, command, lead);
    }
}

// What a command demands, if it is an access.
fn access_demand(command: Command, registers: &[u64; REGISTERS]) -> Option<Demand>
    requires { HasRegisters command }
    ensures { result ≡ access_demand command registers.now }
{
    match command {
        Command::Read { object, .. } => Some(Demand::Read { object }),
        Command::Write { object, from } => Some(Demand::Write {
            object,
            value: registers[from as usize],
        }),
        Command::Bump { object, from } => Some(Demand::Bump {
            object,
            amount: registers[from as usize],
        }),
        _ => None,
    }
}

// Past the access at hand, which gives a read this value.
fn pass(command: Command, context: &mut Context, value: u64)
    requires registers { HasRegisters command }
    requires fuel { 0 < context.old.fuel }
    requires room { context.old.place < usize.MAX }
    ensures past { configuration_of context.new ≡ past_access (Some command) (configuration_of context.old) value }
    ensures regions { context.new.regions ≡ context.old.regions }
{
    match command {
        Command::Read { to, .. } => set_register(context, to, value),
        _ => {
            let next = context.place + 1;
            move_to(context, next);
        }
    }
}

impl Program {
    /// The program of a thread of a script.
    pub fn new(alloc: Global, script: &Script, thread: u8) -> Result<Program, OutOfMemory>
        requires { thread < length script.now.threads }
        ensures commands { IfOk result (λ program. program.commands ≡ get_or script.now.threads thread []) }
        ensures objects { IfOk result (λ program. program.objects ≡ length script.now.objects) }
    {
        let commands = commands_of(script, thread);
        Ok(Program {
            leads: find_leads(alloc, commands)?,
            commands: Vec::from_slice(alloc, commands)?,
            objects: script.objects.len(),
        })
    }

    /// Where the thread stands at its start, once it has come to its first access or its end.
    pub fn start(&self, fuel: u32) -> Stand
        requires { fuel ≤ MAX_FUEL }
        ensures { result ≡ stand_of (settled self.now.commands (starting_configuration fuel)) }
    {
        let mut context = Context {
            place: 0,
            registers: [0; REGISTERS],
            fuel,
            regions: 0,
        };
        settle(&self.commands, &self.leads, &mut context);
        Stand {
            place: context.place,
            registers: context.registers,
        }
    }

    /// The access at which a thread stands, if it stands at one.
    pub fn access(&self, stand: &Stand) -> Option<Demand>
        ensures access { result ≡ access_at self.now.commands stand.now }
        ensures possible { IfSome result (IsPossible self.now.objects) }
    {
        let command = self.commands.get(stand.place)?;
        access_demand(*command, &stand.registers)
    }

    /// Whether the thread has no command left.
    pub fn is_done(&self, stand: &Stand) -> bool
        ensures { IsTrue result ↔ (length self.now.commands ≤ stand.now.place) }
    {
        self.commands.len() <= stand.place
    }

    /// Where the thread stands after the access at which it stands, which gives a read this value,
    /// once it has come to its next access or its end, or has run as many commands as this fuel allows.
    pub fn past(&self, stand: &Stand, value: u64, fuel: u32) -> Stand
        requires access { IsSome (access_at self.now.commands stand.now) }
        requires some { 0 < fuel }
        requires few { fuel ≤ MAX_FUEL }
        ensures { result ≡ stand_past self.now.commands fuel stand.now value }
    {
        let mut context = Context {
            place: stand.place,
            registers: stand.registers,
            fuel,
            regions: 0,
        };
        let Some(command) = self.commands.get(stand.place) else {
            unreachable!()
        };
        pass(*command, &mut context, value);
        settle(&self.commands, &self.leads, &mut context);
        Stand {
            place: context.place,
            registers: context.registers,
        }
    }
}
