//! Where to look for what is kept once. Nothing is promised of it: what is not found is only kept twice.
ghost use Rattle.std.specs.Prelude.{◌≡◌, ◌<◌, IfOk};

use octet_model::OutOfMemory;
use std::alloc::Global;

/// How many slots there are at first: a power of two.
const FIRST_SLOTS: usize = 64;

/// No more slots are made than twice as many: a power of two.
const MOST_SLOTS: usize = 0x8000_0000;

/// A place as a number of 32 bits, if it has one. The greatest of them is none.
pub(crate) fn place_of(place: usize) -> Result<u32, OutOfMemory>
    ensures is { IfOk result (λ number. number ≡ place) }
    ensures few { IfOk result (λ number. number < u32.MAX) }
{
    match u32::try_from(place) {
        Ok(number) if number < u32::MAX => Ok(number),
        _ => Err(OutOfMemory),
    }
}

/// Where something is, or the slot that is to lead to it.
#[derive(Clone, Copy)]
pub(crate) enum Found {
    At { place: u32 },
    Free { slot: usize },
    Nowhere,
}

/// Slots, each of which leads to a place or is free. Their number is a power of two.
#[derive(Drop)]
pub(crate) struct Slots {
    /// 0, or one more than a place.
    entries: Vec<u32>,
}

impl Slots {
    pub(crate) fn new(alloc: Global) -> Result<Slots, OutOfMemory> {
        Ok(Slots {
            entries: vec![in alloc; 0; FIRST_SLOTS]?,
        })
    }

    pub(crate) fn len(&self) -> usize {
        self.entries.len()
    }

    // The slot with this number, of numbers that go round.
    fn slot_of(&self, number: usize) -> usize {
        number & self.entries.len().wrapping_sub(1)
    }

    /// The slot at which to look first.
    pub(crate) fn first(&self, hash: u64) -> usize {
        self.slot_of(hash as usize)
    }

    /// The slot at which to look next.
    pub(crate) fn after(&self, slot: usize) -> usize {
        self.slot_of(slot.wrapping_add(1))
    }

    /// The place to which a slot leads, if it is not free.
    pub(crate) fn place(&self, slot: usize) -> Option<u32> {
        match self.entries.get(slot) {
            Some(entry) if *entry > 0 => Some(*entry - 1),
            _ => None,
        }
    }

    /// Lets a slot that was found free lead to a place.
    pub(crate) fn lead(&mut self, found: Found, place: u32) {
        if let Found::Free { slot } = found {
            if slot < self.entries.len() {
                self.entries[slot] = place.wrapping_add(1);
            }
        }
    }

    /// Lets the first free slot from where a hash leads lead to a place.
    pub(crate) fn put(&mut self, hash: u64, place: u32) {
        let mut slot = self.first(hash);
        for _tried in 0..self.entries.len() {
            if self.place(slot).is_none() {
                self.lead(Found::Free { slot }, place);
                return;
            }
            slot = self.after(slot);
        }
    }

    /// Twice as many slots, all free, where these are too few for so many places.
    pub(crate) fn wider(&self, alloc: Global, places: usize) -> Result<Option<Slots>, OutOfMemory> {
        let many = self.entries.len();
        if many / 2 > places || many > MOST_SLOTS {
            return Ok(None);
        }
        Ok(Some(Slots {
            entries: vec![in alloc; 0; many * 2]?,
        }))
    }
}
