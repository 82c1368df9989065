//! The words and the seats at first.
ghost use Rattle.std.specs.Prelude.{◌≡◌, ◌+◌, ◌<◌, ◌≤◌, ◌++◌, ◌∷◌, [], length, IfOk, OnOk};
ghost use Rattle.octet_state.specs.State.{laid_out, words as words_of, opening};
ghost use Rattle.octet_rule.specs.Views.{after_split, split_off};
ghost use Rattle.octet_rule.specs.Seats.{view, threads_of, starts_of, BelongsTo, IsFresh, EachFresh};

use crate::limits::MAX_OBJECTS_OF_HEAP;
use crate::plays;
use crate::view::Key;
use crate::words::{Seat, Words};
use atomic_table::Table;
use octet_model::{List, MAX_THREADS, OutOfMemory};
use octet_state::{Due, Phase};
use std::alloc::{AllocError, Global};
use std::snapshot::Snapshot;

impl Words {
    /// The words, and one seat per thread, in order.
    pub fn new(
        alloc: Global,
        threads: u8,
        starts: &List<u64>,
    ) -> Result<(Words, List<Seat>), OutOfMemory>
        requires threads { (0 < threads) × (threads ≤ MAX_THREADS) }
        requires objects { length starts.now ≤ MAX_OBJECTS_OF_HEAP }
        ensures { IfOk result (λ new. (threads_of new.0 ≡ threads) × (starts_of new.0 ≡ starts.now) × (length new.1 ≡ threads) × EachFresh new.0 new.1) }
    {
        let words = lay_out(alloc, threads, starts.as_slice())?;
        let key = Key {
            threads,
            starts: Snapshot::of(starts),
        };
        let (table, inner) = Table::of_words(alloc, words.as_slice(), &key)?;
        let words = Words {
            table,
            threads,
            objects: starts.len() as u16,
        };
        let first = Seat {
            inner,
            thread: 0,
            events: 0,
            phase: Phase::Off,
            due: Due::Nothing,
            count: 0,
        };
        let seats = words.split_all(alloc, first)?;
        Ok((words, List::from_vec(seats)))
    }

    // The seats of all threads, in order.
    fn split_all(&self, alloc: Global, mut first: Seat) -> Result<Vec<Seat>, AllocError>
        requires own { BelongsTo self.now first × IsFresh 0 first }
        requires alone { ((view first).seats_made ≡ 1) × ((view first).joined ≡ []) }
        ensures { IfOk result (λ seats. (length seats.items ≡ threads_of self.now) × EachFresh self.now seats.items) }
    {
        let mut seats = Vec::new(alloc);
        for thread in 1..self.threads {
            seats.push(self.split(&mut first, thread))?;
        }
        seats.insert(0, first)?;
        Ok(seats)
    }

    // The seat of the next thread.
    fn split(&self, first: &mut Seat, thread: u8) -> Seat
        requires own { BelongsTo self.now first.old × ((view first.old).number ≡ 0) }
        requires room { (thread < threads_of self.now) × ((view first.old).seats_made ≡ thread) }
        ensures first { BelongsTo self.now first.new × (view first.new ≡ after_split (view first.old)) }
        ensures seat { BelongsTo self.now result × (view result ≡ split_off (view first.old)) }
    {
        Seat {
            inner: self
                .table
                .shared
                .split_seat::<plays::SplitSeat>(&mut first.inner),
            thread,
            events: 0,
            phase: Phase::Off,
            due: Due::Nothing,
            count: 0,
        }
    }
}

// The words before the first step, in lines of eight.
fn lay_out(alloc: Global, threads: u8, starts: &[u64]) -> Result<Vec<u64>, AllocError>
    ensures { IfOk result (λ words. words.items ≡ words_of (opening threads starts.now)) }
{
    let mut words = Vec::new(alloc);
    push_line(&mut words, 0, 0)?;
    for _ in 0..threads {
        push_line(&mut words, 1u64 << 63, 0)?;
    }
    for object in 0..starts.len() {
        push_line(&mut words, 0, starts[object])?;
    }
    Ok(words)
}

fn push_line(words: &mut Vec<u64>, first: u64, second: u64) -> Result<(), AllocError>
    ensures { OnOk result (words.new.items ≡ words.old.items ++ laid_out ((first, second) ∷ [])) }
{
    words.extend_from_slice([first, second, 0, 0, 0, 0, 0, 0].as_slice())
}
