//! A thread of a script that follows its journal: which of its commands made the events.
ghost use Rattle.std.specs.Prelude.{◌≡◌, ◌+◌, ◌<◌, ◌≤◌, ◌^◌, suc, [], ◌∷◌, get_or, length, slice_get, All, IfOk, IfSome, IsNone};
ghost use Rattle.octet_model.specs.Thread.{past_access, settled, starting_configuration};
ghost use Rattle.octet_model.specs.Validity.{HasRegisters};
ghost use Rattle.octet_interp.specs.Context.{configuration_of};
ghost use Rattle.octet_interp.specs.Leads.{IsLeadTable};
ghost use Rattle.octet_interp.specs.Following.{is_region, places_ahead, CanFollow, FollowsOn, HasAccess, IsFollowing, TellsRegion};

use crate::config::commands_of;
use crate::context::{Context, move_to, obey, set_register};
use crate::leads::find_leads;
use octet_model::{Command, Event, OutOfMemory, REGISTERS, Script};
use std::alloc::Global;
use std::marker::Model;

/// A thread of a script that follows its journal, event by event, and tells the places of the
/// commands: of each `region` that it runs, and of each access.
#[derive(Drop)]
pub struct Follower<'a> {
    commands: &'a [Command],
    // Where each command leads, if it leads away from the next place.
    leads: Vec<usize>,
    context: Context,
}

impl<'a> Model for Follower<'a> {
    ghost use Rattle.octet_interp.specs.Following.{FollowerState};

    ghost Value = { FollowerState };

    ghost use Rattle.octet_interp.specs.Context.{configuration_of};
    ghost use Rattle.octet_interp.specs.Following.{IsFollower};

    ghost view = { λ f. record { commands = f.commands.now; at = configuration_of f.context; regions = f.context.regions } };

    ghost invariant = { λ f. IsFollower f.commands.now f.leads.items f.context };
}

fn is_region(command: Command) -> bool
    ensures { result ≡ is_region command }
{
    match command {
        Command::Region => true,
        _ => false,
    }
}

// Runs on past the next `region` command, and answers its place. None where an access or the
// thread's end comes before it, and there it stops.
fn pass_region(commands: &[Command], leads: &[usize], context: &mut Context) -> Option<usize>
    requires registers { All HasRegisters commands.now }
    requires leads { IsLeadTable commands.now leads.now }
    requires few { context.old.regions + context.old.fuel < 2 ^ 32 }
    ensures some { IfSome result (λ place. (places_ahead commands.now (configuration_of context.old) ≡ place ∷ places_ahead commands.now (configuration_of context.new)) × (context.new.regions ≡ suc context.old.regions)) }
    ensures none { IsNone result → (places_ahead commands.now (configuration_of context.old) ≡ []) × (places_ahead commands.now (configuration_of context.new) ≡ []) × (context.new.regions ≡ context.old.regions) }
    ensures stands { IsNone result → configuration_of context.new ≡ settled commands.now (configuration_of context.old) }
    ensures settles { settled commands.now (configuration_of context.new) ≡ settled commands.now (configuration_of context.old) }
    ensures few { context.new.regions + context.new.fuel ≤ context.old.regions + context.old.fuel }
{
    while context.place < commands.len() {
        if context.fuel == 0 {
            return None;
        }
        let place = context.place;
        let command = commands[place];
        if command.is_access() {
            return None;
        }
        let lead = leads[place];
        obey(context, command, lead);
        if is_region(command) {
            return Some(place);
        }
    }
    None
}

impl<'a> Follower<'a> {
    /// Before the thread's first event.
    pub fn new(alloc: Global, script: &'a Script, thread: u8) -> Result<Follower<'a>, OutOfMemory>
        requires { thread < length script.now.threads }
        ensures commands { IfOk result (λ follower. follower.commands ≡ get_or script.now.threads thread []) }
        ensures follows { IfOk result (λ follower. IsFollowing (starting_configuration script.now.fuel) [] follower) }
    {
        let commands = commands_of(script, thread);
        Ok(Follower {
            commands,
            leads: find_leads(alloc, commands)?,
            context: Context {
                place: 0,
                registers: [0; REGISTERS],
                fuel: script.fuel,
                regions: 0,
            },
        })
    }

    /// The place of the next `region` command that the thread runs before its next access, and goes
    /// past it. None where there is none left: then the thread stands where its next access is.
    pub fn next_region(&mut self) -> Option<usize>
        ensures tells { TellsRegion self.old result self.new }
        ensures commands { self.new.commands ≡ self.old.commands }
    {
        pass_region(self.commands, &self.leads, &mut self.context)
    }

    /// How many `region` commands the thread ran.
    pub fn regions(&self) -> u32
        ensures { result ≡ self.now.regions }
    {
        self.context.regions
    }

    /// The place at which the thread stands.
    pub fn place(&self) -> usize
        ensures { result ≡ self.now.at.place }
    {
        self.context.place
    }

    // Past the access at hand, with its value.
    fn pass(&mut self, value: u64)
        requires { HasAccess self.old }
        ensures at { self.new.at ≡ past_access (slice_get self.old.commands self.old.at.place) self.old.at value }
        ensures commands { self.new.commands ≡ self.old.commands }
        ensures regions { self.new.regions ≡ self.old.regions }
    {
        match self.commands[self.context.place] {
            Command::Read { to, .. } => set_register(&mut self.context, to, value),
            _ => {
                let next = self.context.place + 1;
                move_to(&mut self.context, next);
            }
        }
    }

    /// Follows the next event of the journal.
    pub fn follow(&mut self, event: Event)
        requires { CanFollow event self.old }
        ensures follows { FollowsOn self.old event self.new }
        ensures commands { self.new.commands ≡ self.old.commands }
    {
        match event {
            Event::Read { value, .. }
            | Event::Write { value, .. }
            | Event::Update { after: value, .. } => self.pass(value),
            Event::Marked { .. } => {}
        }
    }
}
