//! Moments that wait to know whether others lead to an end. Nothing is promised of them: each is
//! looked at again when it is called.
use crate::slots::place_of;
use octet_model::OutOfMemory;
use std::alloc::Global;

/// A moment from which an edge leads to the one that it waits for.
#[derive(Clone, Copy)]
pub(crate) struct Wait {
    pub(crate) place: u32,
    /// The number of the next one that waits for the same.
    pub(crate) next: u32,
}

/// Who waits for each moment, and the moments that were called.
#[derive(Drop)]
pub(crate) struct Waiting {
    /// For each moment the number of the first that waits for it. No number is 0.
    firsts: Vec<u32>,
    waits: Vec<Wait>,
    called: Vec<u32>,
}

impl Waiting {
    /// Nobody waits for any of so many moments.
    pub(crate) fn new(alloc: Global, many: usize) -> Result<Waiting, OutOfMemory> {
        Ok(Waiting {
            firsts: vec![in alloc; 0; many]?,
            waits: Vec::new(alloc),
            called: Vec::new(alloc),
        })
    }

    /// How many wait.
    pub(crate) fn len(&self) -> usize {
        self.waits.len()
    }

    /// The number of the first that waits for a moment.
    pub(crate) fn first(&self, place: usize) -> u32 {
        match self.firsts.get(place) {
            Some(number) => *number,
            None => 0,
        }
    }

    /// Who waits under a number.
    pub(crate) fn get(&self, number: u32) -> Option<Wait> {
        if number == 0 {
            return None;
        }
        self.waits.get(number as usize - 1).copied()
    }

    /// Lets a moment wait for another one.
    pub(crate) fn wait(&mut self, after: usize, place: usize) -> Result<(), OutOfMemory> {
        let next = self.first(after);
        self.waits.push(Wait {
            place: place_of(place)?,
            next,
        })?;
        let number = place_of(self.waits.len())?;
        if after < self.firsts.len() {
            self.firsts[after] = number;
        }
        Ok(())
    }

    /// Calls those that wait for a moment, if there are some.
    pub(crate) fn call(&mut self, place: usize) -> Result<(), OutOfMemory> {
        if self.first(place) != 0 {
            self.called.push(place_of(place)?)?;
        }
        Ok(())
    }

    /// A moment for which those that wait were called.
    pub(crate) fn next_called(&mut self) -> Option<usize> {
        let place = self.called.pop()?;
        Some(place as usize)
    }
}
