//! The seats join into one, and the cells' values are read.
ghost use Rattle.std.specs.Prelude.{◌≡◌, ◌+◌, ◌*◌, [], length, map, IfOk};
ghost use Rattle.octet_follow.specs.Views.{after_join};
ghost use Rattle.octet_follow.specs.Seats.{view, starts_of, BelongsTo, EachOf, AreNumbered, left_by, Closes};

use crate::words::{Seat, Words, kinds};
use octet_seats::read_cells;
use std::alloc::{AllocError, Global};

impl Words {
    /// The cells' values. Every seat of the words is handed in, in order.
    pub(crate) fn close(self, alloc: Global, mut seats: Vec<Seat>) -> Result<Vec<u64>, AllocError>
        requires { (length seats.items ≡ self.followers) × EachOf self seats.items }
        ensures { IfOk result (λ values. Closes (starts_of self) seats.items values.items) }
    {
        let first = seats.remove(0);
        let first = self.join_all(first, seats);
        let Words {
            table,
            followers,
            objects,
            ..
        } = self;
        let Seat { inner, .. } = first;
        let closed = table.close_with(inner);
        let first_cell = 8 * (followers as usize + 1);
        let values = read_cells(alloc, &closed, first_cell, objects);
        closed.free();
        values
    }

    // Takes all seats back into the first.
    fn join_all(&self, mut first: Seat, mut seats: Vec<Seat>) -> Seat
        requires first { BelongsTo self.now first × ((view first).number ≡ 0) × ((view first).joined ≡ []) }
        requires seats { AreNumbered self.now 1 seats.items }
        ensures own { BelongsTo self.now result × ((view result).number ≡ 0) }
        ensures first { (view result).follower ≡ (view first).follower }
        ensures joined { (view result).joined ≡ map left_by seats.items }
    {
        while !seats.is_empty() {
            let seat = seats.remove(0);
            self.join(&mut first, seat);
        }
        first
    }

    // Takes a seat back.
    fn join(&self, first: &mut Seat, seat: Seat)
        requires own { BelongsTo self.now first.old × ((view first.old).number ≡ 0) }
        requires seat { BelongsTo self.now seat }
        ensures first { BelongsTo self.now first.new × (view first.new ≡ after_join (view first.old) (view seat)) }
    {
        let Seat { inner, .. } = seat;
        self.table
            .shared
            .join_seat::<kinds::JoinSeat>(&mut first.inner, inner);
    }
}
