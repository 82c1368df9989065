//! The seats join into one, and the cells' values are read.
ghost use Rattle.std.specs.Prelude.{◌≡◌, ◌+◌, ◌*◌, [], length, map, IfOk};
ghost use Rattle.octet_rule.specs.Conditions.{IsResting};
ghost use Rattle.octet_rule.specs.Views.{after_join};
ghost use Rattle.octet_rule.specs.Seats.{view, threads_of, starts_of, BelongsTo, RestsAs, EachRests, AreResting, left_by, Closes};

use crate::plays;
use crate::words::{Seat, Words};
use octet_model::{List, OutOfMemory};
use octet_seats::read_cells;
use std::alloc::{AllocError, Global};

impl Words {
    /// The cells' values. Every seat of the words is handed in, in order.
    pub fn close(self, alloc: Global, seats: List<Seat>) -> Result<List<u64>, OutOfMemory>
        requires { (length seats ≡ threads_of self) × EachRests self seats }
        ensures { IfOk result (λ values. Closes (starts_of self) seats values) }
    {
        let values = self.read_out(alloc, seats.into_vec())?;
        Ok(List::from_vec(values))
    }

    fn read_out(self, alloc: Global, mut seats: Vec<Seat>) -> Result<Vec<u64>, AllocError>
        requires { (length seats.items ≡ threads_of self) × EachRests self seats.items }
        ensures { IfOk result (λ values. Closes (starts_of self) seats.items values.items) }
    {
        let first = seats.remove(0);
        let first = self.join_all(first, seats);
        let Words {
            table,
            threads,
            objects,
            ..
        } = self;
        let Seat { inner, .. } = first;
        let closed = table.close_with(inner);
        let first_cell = 8 * (1 + threads as usize) + 1;
        let values = read_cells(alloc, &closed, first_cell, objects);
        closed.free();
        values
    }

    // Takes all seats back into that of thread 0.
    fn join_all(&self, mut first: Seat, mut seats: Vec<Seat>) -> Seat
        requires first { BelongsTo self.now first × RestsAs 0 first × ((view first).joined ≡ []) }
        requires seats { AreResting self.now 1 seats.items }
        ensures own { BelongsTo self.now result × RestsAs 0 result }
        ensures first { ((view result).thread ≡ (view first).thread) × ((view result).journal ≡ (view first).journal) × ((view result).trail ≡ (view first).trail) }
        ensures joined { (view result).joined ≡ map left_by seats.items }
    {
        while !seats.is_empty() {
            let seat = seats.remove(0);
            self.join(&mut first, seat);
        }
        first
    }

    // Takes a seat back.
    fn join(&self, first: &mut Seat, seat: Seat)
        requires own { BelongsTo self.now first.old × ((view first.old).number ≡ 0) }
        requires seat { BelongsTo self.now seat × IsResting (view seat).thread.phase }
        ensures first { BelongsTo self.now first.new × (view first.new ≡ after_join (view first.old) (view seat)) }
    {
        let Seat { inner, .. } = seat;
        self.table
            .shared
            .join_seat::<plays::JoinSeat>(&mut first.inner, inner);
    }
}
