//! One thread of a script as it runs.
ghost use Rattle.std.specs.Prelude.{◌≡◌, ◌<◌, ◌≤◌, true, false, [], get_or, length, All, IfOk, IsTrue};
ghost use Rattle.octet_model.specs.Script.{is_thread};
ghost use Rattle.octet_model.specs.Validity.{IsCommand};
ghost use Rattle.octet_interp.specs.Demands.{after_demand, given, is_read, starting_thread, next_demand, IsPossible, TakesFuel};

use crate::Demand;
use crate::context::{Context, advance, pass, set_register};
use crate::leads::find_leads;
use octet_model::{Command, MAX_FUEL, OutOfMemory, REGISTERS, Script};
use std::alloc::Global;
use std::marker::Model;

/// One thread of a script, as far as it has run. A caller asks for the next demand, and gives
/// each read its value.
#[derive(Debug, Drop)]
pub struct Config {
    commands: Vec<Command>,
    /// Where each command leads, if it leads away from the next place.
    leads: Vec<usize>,
    /// The number of the script's objects.
    objects: usize,
    context: Context,
    /// Whether a read waits for its value.
    waits: bool,
}

impl Model for Config {
    ghost use Rattle.octet_interp.specs.Demands.{ThreadState};

    ghost Value = { ThreadState };

    ghost use Rattle.octet_interp.specs.Context.{configuration_of, IsConsistent};

    ghost view = { λ c. record { commands = c.commands.items; at = configuration_of c.context; waits = c.waits; objects = c.objects; regions = c.context.regions } };

    ghost invariant = { λ c. IsConsistent c.commands.items c.leads.items c.objects c.context c.waits };
}

fn is_read(demand: Demand) -> bool
    ensures { result ≡ is_read demand }
{
    match demand {
        Demand::Read { .. } => true,
        _ => false,
    }
}

/// The commands of a thread of a script.
#[tactic(auto, using(crate::proofs::Valid::thread_valid, crate::proofs::Valid::commands_valid))]
pub(crate) fn commands_of(script: &Script, thread: u8) -> &[Command]
    requires { thread < length script.now.threads }
    ensures commands { result.now ≡ get_or script.now.threads thread [] }
    ensures valid { IsTrue (is_thread (length script.now.objects) result.now) }
    ensures in_range { All (IsCommand (length script.now.objects)) result.now }
{
    script.threads.as_slice()[thread as usize].as_slice()
}

impl Config {
    /// The thread at its start. Takes time and memory in proportion to its commands.
    pub fn new(alloc: Global, script: &Script, thread: u8) -> Result<Config, OutOfMemory>
        requires { thread < length script.now.threads }
        ensures { IfOk result (λ config. config ≡ starting_thread script.now thread) }
    {
        let commands = commands_of(script, thread);
        Ok(Config {
            leads: find_leads(alloc, commands)?,
            commands: Vec::from_slice(alloc, commands)?,
            objects: script.objects.len(),
            context: Context {
                place: 0,
                registers: [0; REGISTERS],
                fuel: script.fuel,
                regions: 0,
            },
            waits: false,
        })
    }

    /// Runs to the next demand and answers it. A read then waits for its value.
    #[inline(always)]
    pub fn next(&mut self) -> Demand
        requires { self.old.waits ≡ false }
        ensures demand { result ≡ next_demand self.old }
        ensures state { self.new ≡ after_demand self.old }
        ensures possible { IsPossible self.old.objects result }
        ensures fuel { TakesFuel result self.old.at.fuel self.new.at.fuel }
    {
        let demand = advance(&self.commands, &self.leads, &mut self.context);
        pass(&mut self.context, demand);
        self.waits = is_read(demand);
        demand
    }

    /// What `next` would answer. Changes nothing, and takes no memory.
    pub fn peek(&self) -> Demand
        requires { self.now.waits ≡ false }
        ensures { result ≡ next_demand self.now }
    {
        let mut ahead = self.context;
        advance(&self.commands, &self.leads, &mut ahead)
    }

    /// How many `region` commands the thread has run.
    pub fn regions(&self) -> u32
        ensures regions { result ≡ self.now.regions }
        ensures few { result ≤ MAX_FUEL }
    {
        self.context.regions
    }

    /// Gives the read that waits its value.
    #[inline(always)]
    pub fn give(&mut self, value: u64)
        requires { self.old.waits ≡ true }
        ensures { self.new ≡ given self.old value }
    {
        let Command::Read { to, .. } = self.commands[self.context.place] else {
            unreachable!()
        };
        set_register(&mut self.context, to, value);
        self.waits = false;
    }
}
