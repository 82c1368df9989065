//! The words and the seats at first.
ghost use Rattle.std.specs.Prelude.{◌≡◌, ◌+◌, ◌<◌, [], length, IfOk};
ghost use Rattle.octet_clock.specs.Untied.{IsUntied};
ghost use Rattle.octet_parallel.specs.Views.{after_split, split_off};
ghost use Rattle.octet_parallel.specs.Seats.{view, script_of, log_of, BelongsTo, IsFresh, EachFresh};

use crate::view::Key;
use crate::words::{Seat, Words, kinds};
use atomic_table::Table;
use octet_model::{Log, OutOfMemory, Script};
use octet_seats::lay_out;
use std::alloc::{AllocError, Global};
use std::snapshot::Snapshot;

impl Words {
    /// The words, and one seat per player, in order.
    pub(crate) fn new(
        alloc: Global,
        script: &Script,
        log: &Log,
    ) -> Result<(Words, Vec<Seat>), OutOfMemory>
        requires threads { length script.now.threads ≡ length log.now.threads }
        requires untied { IsUntied log.now.threads }
        ensures of { IfOk result (λ new. (script_of new.0 ≡ script.now) × (log_of new.0 ≡ log.now)) }
        ensures seats { IfOk result (λ new. (length new.1.items ≡ length log.now.threads) × EachFresh new.0 new.1.items) }
    {
        let players = script.thread_count();
        let cells = script.starting_heap(alloc)?;
        let words = lay_out(alloc, players as u16, cells.as_slice())?;
        let key = Key {
            script: Snapshot::of(script),
            log: Snapshot::of(log),
        };
        let (table, inner) = Table::of_words(alloc, words.as_slice(), &key)?;
        let words = Words {
            table,
            players,
            objects: script.objects.len() as u16,
        };
        let seats = words.split_all(alloc, Seat { inner })?;
        Ok((words, seats))
    }

    // The seats of all players, in order.
    fn split_all(&self, alloc: Global, mut first: Seat) -> Result<Vec<Seat>, AllocError>
        requires own { BelongsTo self.now first × IsFresh 0 first }
        requires alone { ((view first).players_made ≡ 1) × ((view first).joined ≡ []) }
        ensures { IfOk result (λ seats. (length seats.items ≡ self.now.players) × EachFresh self.now seats.items) }
    {
        let mut seats = Vec::new(alloc);
        for _ in 1..self.players {
            seats.push(self.split(&mut first))?;
        }
        seats.insert(0, first)?;
        Ok(seats)
    }

    // The seat of the next player.
    fn split(&self, first: &mut Seat) -> Seat
        requires own { BelongsTo self.now first.old × ((view first.old).number ≡ 0) }
        requires room { (view first.old).players_made < self.now.players }
        ensures first { BelongsTo self.now first.new × (view first.new ≡ after_split (view first.old)) }
        ensures seat { BelongsTo self.now result × (view result ≡ split_off (view first.old)) }
    {
        Seat {
            inner: self
                .table
                .shared
                .split_seat::<kinds::SplitSeat>(&mut first.inner),
        }
    }
}
