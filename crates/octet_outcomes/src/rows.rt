//! Rows of numbers, each of which is kept once, and named by its place.
ghost use Rattle.std.specs.Prelude.{◌≡◌, ◌<◌, length, get_or, [], IfOk, OnErr};
ghost use Rattle.octet_outcomes.specs.Rows.{IsFoundAt, Keeps};

use crate::hash::{Number, hash_of};
use crate::slots::{Found, Slots, place_of};
use crate::table::Table;
use octet_model::OutOfMemory;
use std::alloc::Global;
use std::marker::Model;

/// Rows of equally many numbers, in the order in which they came.
#[derive(Drop)]
pub(crate) struct Rows<N> {
    table: Table<N>,
    slots: Slots,
}

impl<N> Model for Rows<N> {
    ghost use Rattle.octet_outcomes.specs.Rows.{RowsState};

    ghost Value = { RowsState N };

    ghost view = { λ r. r.table };
}

impl<N: Number> Rows<N> {
    /// No rows yet, of this width.
    pub(crate) fn new(alloc: Global, width: usize) -> Result<Rows<N>, OutOfMemory>
        ensures { IfOk result (λ rows. rows ≡ record { width = width; rows = [] }) }
    {
        Ok(Rows {
            table: Table::new(alloc, width),
            slots: Slots::new(alloc)?,
        })
    }

    /// How many rows there are.
    pub(crate) fn len(&self) -> usize
        ensures { result ≡ length self.now.rows }
    {
        self.table.len()
    }

    /// How many numbers each row has.
    pub(crate) fn width(&self) -> usize
        ensures { result ≡ self.now.width }
    {
        self.table.width()
    }

    /// The row at a place.
    pub(crate) fn row(&self, place: usize) -> &[N]
        requires { place < length self.now.rows }
        ensures row { result.now ≡ get_or self.now.rows place [] }
        ensures len { length result.now ≡ self.now.width }
    {
        self.table.row(place)
    }

    // Where the row is, if it is found.
    fn find(&self, row: &[N]) -> Found
        ensures { IsFoundAt self.now.rows row.now result }
    {
        let mut slot = self.slots.first(hash_of(row));
        for _tried in 0..self.slots.len() {
            let Some(place) = self.slots.place(slot) else {
                return Found::Free { slot };
            };
            if (place as usize) < self.table.len()
                && N::are_equal(self.table.row(place as usize), row)
            {
                return Found::At { place };
            }
            slot = self.slots.after(slot);
        }
        Found::Nowhere
    }

    /// Adds a row that is not found, and answers its place.
    pub(crate) fn add(&mut self, row: &[N]) -> Result<u32, OutOfMemory>
        requires { length row.now ≡ self.old.width }
        ensures keeps { IfOk result (λ place. Keeps self.old row.now place self.new) }
        ensures err { OnErr result (self.new ≡ self.old) }
    {
        let found = self.find(row);
        if let Found::At { place } = found {
            return Ok(place);
        }
        let place = place_of(self.table.len())?;
        self.table.add(row)?;
        self.slots.lead(found, place);
        Ok(place)
    }

    /// Makes room for as many slots again, where more than half of them are taken.
    pub(crate) fn widen(&mut self, alloc: Global) -> Result<(), OutOfMemory>
        ensures { self.new ≡ self.old }
    {
        let Some(mut slots) = self.slots.wider(alloc, self.table.len())? else {
            return Ok(());
        };
        for place in 0..self.table.len() {
            slots.put(hash_of(self.table.row(place)), place_of(place)?);
        }
        self.slots = slots;
        Ok(())
    }
}
