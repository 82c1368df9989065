//! What a hunt looks for.
ghost use Rattle.std.specs.Prelude.{◌≡◌, ◌≢◌, true, length, get_or, IfOk, IfSome};
ghost use Rattle.std.specs.List.{list_all};
ghost use Rattle.octet_model.specs.Orders.{is_done, IsFaithful};
ghost use Rattle.octet_machine.specs.Machine.{have_ended};
ghost use Rattle.octet_hunt.specs.Hunts.{HasCycle, IsAimAt, Meets};

use octet_machine::{Machine, Rooms};
use octet_model::{End, List, OutOfMemory, Recorded, Script};
use octet_regions::{Hop, Serial, regions};
use std::alloc::Global;

/// What makes a run the one that is looked for.
#[derive(Clone, Copy, Debug, PartialEq, Eq)]
pub enum Aim {
    /// All its threads are done, and the object has another value than this number.
    OtherValue { object: u16, number: u64 },
    /// Its regions have a cycle: they cannot run one after another with each conflict as it was.
    Cycle,
}

/// What was recorded of a run that is looked for, with the hops of its cycle where that is the aim.
#[derive(Drop)]
pub(crate) struct Met {
    pub(crate) recorded: Recorded,
    pub(crate) hops: List<Hop>,
}

/// Whether all threads came to their ends.
pub fn are_done(ends: &[End]) -> bool
    ensures { result ≡ list_all is_done ends.now }
{
    for end in ends {
        if *end == End::Spent {
            return false;
        }
    }
    true
}

// Whether all threads are done, and the object has another value.
fn ends_otherwise(recorded: &Recorded, object: u16, number: u64) -> bool
    ensures done { result ≡ true → list_all is_done recorded.now.outcome.ends ≡ true }
    ensures other { result ≡ true → get_or recorded.now.outcome.heap object 0 ≢ number }
{
    let outcome = &recorded.outcome;
    let Some(value) = outcome.heap.as_slice().get(object as usize) else {
        return false;
    };
    *value != number && are_done(outcome.ends.as_slice())
}

// The hops of a cycle of the recording's regions, if they have one.
fn cycle_of(
    alloc: Global,
    script: &Script,
    recorded: &Recorded,
) -> Result<Option<List<Hop>>, OutOfMemory>
    requires faithful { IsFaithful script.now recorded.now.log.threads recorded.now.outcome }
    ensures { IfOk result (λ found. IfSome found (λ hops. HasCycle script.now recorded.now hops)) }
{
    match regions(alloc, script, &recorded.log) {
        Ok(Serial::Cycle { hops }) => Ok(Some(hops)),
        Ok(Serial::Order { .. }) => Ok(None),
        // A faithful recording is refused for want of memory alone.
        Err(_) => Err(OutOfMemory),
    }
}

impl Aim {
    /// What was recorded of a machine's run, if that is looked for. The room of one that is not goes
    /// back, where its journals are not needed to tell.
    pub(crate) fn judge(
        self,
        alloc: Global,
        script: &Script,
        machine: Machine,
        rooms: &mut Rooms,
    ) -> Result<Option<Met>, OutOfMemory>
        requires object { IsAimAt (length script.now.objects) self }
        requires script { machine.script ≡ script.now }
        requires ended { have_ended machine ≡ true }
        ensures { IfOk result (λ found. IfSome found (λ met. Meets script.now self met.recorded met.hops)) }
    {
        match self {
            Aim::OtherValue { object, number } => {
                if machine.value(object) == number {
                    machine.vacate(rooms)?;
                    return Ok(None);
                }
                let recorded = machine.finish(alloc)?;
                let hops = List::new(alloc);
                if !ends_otherwise(&recorded, object, number) {
                    return Ok(None);
                }
                Ok(Some(Met { recorded, hops }))
            }
            Aim::Cycle => {
                let recorded = machine.finish(alloc)?;
                let Some(hops) = cycle_of(alloc, script, &recorded)? else {
                    return Ok(None);
                };
                Ok(Some(Met { recorded, hops }))
            }
        }
    }
}
