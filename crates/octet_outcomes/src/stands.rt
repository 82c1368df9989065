//! Where threads stand, each kept once, and named by its place.
ghost use Rattle.std.specs.Prelude.{◌≡◌, ◌<◌, true, length, get_or, [], IfOk, OnErr};
ghost use Rattle.octet_outcomes.specs.Moments.{no_stand};
ghost use Rattle.octet_outcomes.specs.Stands.{IsStandFoundAt, KeepsStand};

use crate::hash::{hash_of, stirred};
use crate::slots::{Found, Slots, place_of};
use octet_interp::Stand;
use octet_model::OutOfMemory;
use std::alloc::Global;
use std::marker::Model;

/// Stands, in the order in which they came.
#[derive(Drop)]
pub(crate) struct Stands {
    items: Vec<Stand>,
    slots: Slots,
}

impl Model for Stands {
    ghost use Rattle.std.specs.Prelude.{List};
    ghost use Rattle.octet_interp.specs.declared.program.Stand.{Stand};

    ghost Value = { List Stand };

    ghost view = { λ s. s.items.items };
}

fn are_equal(stand: &Stand, other: &Stand) -> bool
    ensures { result ≡ true → stand.now ≡ other.now }
{
    stand.place == other.place && stand.registers == other.registers
}

fn hash_of_stand(stand: &Stand) -> u64 {
    stirred(hash_of(&stand.registers), stand.place as u64)
}

impl Stands {
    pub(crate) fn new(alloc: Global) -> Result<Stands, OutOfMemory>
        ensures { IfOk result (λ stands. stands ≡ []) }
    {
        Ok(Stands {
            items: Vec::new(alloc),
            slots: Slots::new(alloc)?,
        })
    }

    pub(crate) fn stand(&self, place: usize) -> Stand
        requires { place < length self.now }
        ensures { result ≡ get_or self.now place no_stand }
    {
        self.items[place]
    }

    // Where the stand is, if it is found.
    fn find(&self, stand: &Stand) -> Found
        ensures { IsStandFoundAt self.now stand.now result }
    {
        let mut slot = self.slots.first(hash_of_stand(stand));
        for _tried in 0..self.slots.len() {
            let Some(place) = self.slots.place(slot) else {
                return Found::Free { slot };
            };
            if (place as usize) < self.items.len()
                && are_equal(&self.items[place as usize], stand)
            {
                return Found::At { place };
            }
            slot = self.slots.after(slot);
        }
        Found::Nowhere
    }

    /// Adds a stand that is not found, and answers its place.
    pub(crate) fn add(&mut self, stand: Stand) -> Result<u32, OutOfMemory>
        ensures keeps { IfOk result (λ place. KeepsStand self.old stand place self.new) }
        ensures err { OnErr result (self.new ≡ self.old) }
    {
        let found = self.find(&stand);
        if let Found::At { place } = found {
            return Ok(place);
        }
        let place = place_of(self.items.len())?;
        self.items.push(stand)?;
        self.slots.lead(found, place);
        Ok(place)
    }

    /// Makes room for as many slots again, where more than half of them are taken.
    pub(crate) fn widen(&mut self, alloc: Global) -> Result<(), OutOfMemory>
        ensures { self.new ≡ self.old }
    {
        let Some(mut slots) = self.slots.wider(alloc, self.items.len())? else {
            return Ok(());
        };
        for place in 0..self.items.len() {
            slots.put(hash_of_stand(&self.items[place]), place_of(place)?);
        }
        self.slots = slots;
        Ok(())
    }
}
