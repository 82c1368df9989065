//! Where a thread is, and its run up to the next command that is a demand.
ghost use Rattle.std.specs.Prelude.{◌≡◌, ◌+◌, ◌<◌, ◌≤◌, ◌^◌, ◌↔◌, false, length, slice_get, slice_index, All, IfSome, IsNone};
ghost use Rattle.octet_model.specs.Thread.{moved_to, with_register};
ghost use Rattle.octet_interp.specs.Leads.{IsLeadTable};
ghost use Rattle.octet_model.specs.Validity.{HasRegisters};
ghost use Rattle.octet_interp.specs.Context.{configuration_of, is_calculation, leads_away, Calculates, CanPass, HasSmallValue, Obeys};
ghost use Rattle.octet_interp.specs.Regions.{region_count, regions_to};
ghost use Rattle.octet_interp.specs.Demands.{at_demand, is_demand, demand_of_command, past_demand, demand_from};

use crate::Demand;
use octet_model::{Command, End, REGISTERS};

/// A place among a thread's commands, its registers, the fuel left, and how many `region` commands
/// were run.
#[derive(Clone, Copy, Debug)]
pub(crate) struct Context {
    pub(crate) place: usize,
    pub(crate) registers: [u64; REGISTERS],
    pub(crate) fuel: u32,
    pub(crate) regions: u32,
}

/// One command on, to this place.
pub(crate) fn move_to(context: &mut Context, place: usize)
    requires { 0 < context.old.fuel }
    ensures place { configuration_of context.new ≡ moved_to (configuration_of context.old) place }
    ensures regions { context.new.regions ≡ context.old.regions }
{
    context.place = place;
    context.fuel -= 1;
}

/// One command on, to the next place, with this value in a register.
pub(crate) fn set_register(context: &mut Context, to: u8, value: u64)
    requires register { to < REGISTERS }
    requires fuel { 0 < context.old.fuel }
    requires room { context.old.place < usize.MAX }
    ensures set { configuration_of context.new ≡ with_register (configuration_of context.old) to value }
    ensures regions { context.new.regions ≡ context.old.regions }
{
    context.registers[to as usize] = value;
    let next = context.place + 1;
    move_to(context, next);
}

// The demand of a command, if it is one.
fn demand_of_command(command: Command, registers: &[u64; REGISTERS]) -> Option<Demand>
    requires { HasRegisters command }
    ensures demand { result ≡ demand_of_command command registers.now }
    ensures small { IfSome result HasSmallValue }
{
    match command {
        Command::Read { object, .. } => Some(Demand::Read { object }),
        Command::Write { object, from } => Some(Demand::Write {
            object,
            value: registers[from as usize],
        }),
        Command::Bump { object, from } => Some(Demand::Bump {
            object,
            amount: registers[from as usize],
        }),
        Command::Safe => Some(Demand::Safe),
        Command::Pause => Some(Demand::Pause),
        _ => None,
    }
}

fn value_in(registers: &[u64; REGISTERS], register: u8) -> u64
    requires { register < REGISTERS }
    ensures { result ≡ slice_index registers.now register }
{
    registers[register as usize]
}

// The register that a command sets, if it sets one, and its value.
fn calculation(command: Command, registers: &[u64; REGISTERS]) -> Option<(u8, u64)>
    requires { HasRegisters command }
    ensures none { IsNone result ↔ (is_calculation command ≡ false) }
    ensures some { IfSome result (Calculates command registers.now) }
{
    match command {
        Command::Set { to, number } => Some((to, number)),
        Command::Copy { to, from } => Some((to, value_in(registers, from))),
        Command::Add { to, left, right } => {
            let sum = value_in(registers, left).wrapping_add(value_in(registers, right));
            Some((to, sum))
        }
        Command::Sub { to, left, right } => {
            let difference = value_in(registers, left).wrapping_sub(value_in(registers, right));
            Some((to, difference))
        }
        Command::Mul { to, left, right } => {
            let product = value_in(registers, left).wrapping_mul(value_in(registers, right));
            Some((to, product))
        }
        Command::Xor { to, left, right } => {
            Some((to, value_in(registers, left) ^ value_in(registers, right)))
        }
        Command::Less { to, left, right } => {
            let is_less = value_in(registers, left) < value_in(registers, right);
            Some((to, u64::from(is_less)))
        }
        Command::Same { to, left, right } => {
            let is_same = value_in(registers, left) == value_in(registers, right);
            Some((to, u64::from(is_same)))
        }
        _ => None,
    }
}

// Whether a command leads away from the next place.
fn leads_away(command: Command, registers: &[u64; REGISTERS]) -> bool
    requires { HasRegisters command }
    ensures { result ≡ leads_away command registers.now }
{
    match command {
        Command::Loop { test } | Command::Branch { test } => value_in(registers, test) == 0,
        Command::Close => true,
        _ => false,
    }
}

/// One command that is no access; the lead is where it leads, if it leads away.
pub(crate) fn obey(context: &mut Context, command: Command, lead: usize)
    requires registers { HasRegisters command }
    requires fuel { 0 < context.old.fuel }
    requires room { context.old.place < usize.MAX }
    requires few { context.old.regions + 1 < 2 ^ 32 }
    ensures obeys { Obeys command lead (configuration_of context.old) (configuration_of context.new) }
    ensures regions { context.new.regions ≡ context.old.regions + region_count command }
{
    if let Some((to, value)) = calculation(command, &context.registers) {
        set_register(context, to, value);
        return;
    }
    if leads_away(command, &context.registers) {
        move_to(context, lead);
        return;
    }
    if let Command::Region = command {
        context.regions += 1;
    }
    let next = context.place + 1;
    move_to(context, next);
}

/// Runs on to the next command that is a demand, or to the thread's end, and answers the demand.
/// Inlined, so that a context and its demand go through no memory.
#[inline(always)]
pub(crate) fn advance(commands: &[Command], leads: &[usize], context: &mut Context) -> Demand
    requires registers { All HasRegisters commands.now }
    requires leads { IsLeadTable commands.now leads.now }
    requires few { context.old.regions + context.old.fuel < 2 ^ 32 }
    ensures at_demand { configuration_of context.new ≡ at_demand commands.now (configuration_of context.old) }
    ensures demand { result ≡ demand_from (slice_get commands.now context.new.place) (configuration_of context.new) }
    ensures fuel { context.new.fuel ≤ context.old.fuel }
    ensures regions { context.new.regions ≡ context.old.regions + regions_to is_demand commands.now context.old.fuel (configuration_of context.old) }
    ensures few { context.new.regions + context.new.fuel ≤ context.old.regions + context.old.fuel }
    ensures ready { CanPass result context.new.place context.new.fuel (length commands.now) }
    ensures small { HasSmallValue result }
{
    while context.place < commands.len() {
        if context.fuel == 0 {
            return Demand::Ended { end: End::Spent };
        }
        let command = commands[context.place];
        if let Some(demand) = demand_of_command(command, &context.registers) {
            return demand;
        }
        let lead = leads[context.place];
        obey(context, command, lead);
    }
    Demand::Ended { end: End::Done }
}

/// Goes past a demand: a read stays where it is till its value comes, and so does the end.
pub(crate) fn pass(context: &mut Context, demand: Demand)
    requires ready { CanPass demand context.old.place context.old.fuel usize.MAX }
    ensures past { configuration_of context.new ≡ past_demand demand (configuration_of context.old) }
    ensures regions { context.new.regions ≡ context.old.regions }
    ensures fuel { context.new.fuel ≤ context.old.fuel }
{
    match demand {
        Demand::Write { .. } | Demand::Bump { .. } | Demand::Safe | Demand::Pause => {
            let next = context.place + 1;
            move_to(context, next);
        }
        Demand::Read { .. } | Demand::Ended { .. } => {}
    }
}
