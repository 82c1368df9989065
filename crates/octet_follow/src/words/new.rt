//! The words and the seats at first.
ghost use Rattle.std.specs.Prelude.{◌≡◌, ◌+◌, ◌<◌, ◌^◌, [], length, IfOk};
ghost use Rattle.octet_follow.specs.Views.{after_split, split_off};
ghost use Rattle.octet_follow.specs.Seats.{view, starts_of, BelongsTo, IsFresh, EachFresh};

use crate::view::Key;
use crate::words::{Seat, Words, kinds};
use atomic_table::Table;
use octet_model::{List, OutOfMemory};
use octet_seats::lay_out;
use std::alloc::{AllocError, Global};
use std::snapshot::Snapshot;

impl Words {
    /// The words, and one seat per follower, in order.
    pub(crate) fn new(
        alloc: Global,
        starts: &List<u64>,
        followers: u8,
    ) -> Result<(Words, Vec<Seat>), OutOfMemory>
        requires some { 0 < followers }
        requires objects { length starts.now < 2 ^ 16 }
        ensures of { IfOk result (λ new. (starts_of new.0 ≡ starts.now) × (new.0.followers ≡ followers)) }
        ensures seats { IfOk result (λ new. (length new.1.items ≡ followers) × EachFresh new.0 new.1.items) }
    {
        let words = lay_out(alloc, followers as u16 + 1, starts.as_slice())?;
        let key = Key {
            starts: Snapshot::of(starts),
            followers,
        };
        let (table, inner) = Table::of_words(alloc, words.as_slice(), &key)?;
        let words = Words {
            table,
            followers,
            objects: starts.len() as u16,
        };
        let seats = words.split_all(alloc, Seat { inner })?;
        Ok((words, seats))
    }

    // The seats of all followers, in order.
    fn split_all(&self, alloc: Global, mut first: Seat) -> Result<Vec<Seat>, AllocError>
        requires own { BelongsTo self.now first × IsFresh 0 first }
        requires alone { ((view first).followers_made ≡ 1) × ((view first).joined ≡ []) }
        ensures { IfOk result (λ seats. (length seats.items ≡ self.now.followers) × EachFresh self.now seats.items) }
    {
        let mut seats = Vec::new(alloc);
        for _ in 1..self.followers {
            seats.push(self.split(&mut first))?;
        }
        seats.insert(0, first)?;
        Ok(seats)
    }

    // The seat of the next follower.
    fn split(&self, first: &mut Seat) -> Seat
        requires own { BelongsTo self.now first.old × ((view first.old).number ≡ 0) }
        requires room { (view first.old).followers_made < self.now.followers }
        ensures first { BelongsTo self.now first.new × (view first.new ≡ after_split (view first.old)) }
        ensures seat { BelongsTo self.now result × (view result ≡ split_off (view first.old)) }
    {
        Seat {
            inner: self
                .table
                .shared
                .split_seat::<kinds::SplitSeat>(&mut first.inner),
        }
    }
}
