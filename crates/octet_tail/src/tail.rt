//! The last accesses of one thread.
ghost use Rattle.std.specs.Prelude.{◌≡◌, ◌∷◌, ◌<◌, ◌≤◌, [], ◌++◌, List, length, IfOk, vec_capacity, vec_len};
ghost use Rattle.octet_model.specs.declared.event.Event.{Event};
ghost use Rattle.octet_tail.specs.Tails.{kept_in, room_of, IsLast, IsTail};

use octet_model::{Event, List, OutOfMemory};
use std::alloc::Global;
use std::mem;

/// The last accesses of one thread, as they are made: at least so many as there is room for, and at most twice as many.
#[derive(Drop)]
pub struct Tail {
    // The accesses before the newer ones. Where any were let go, there are as many as there is room for.
    pub(crate) older: Vec<Event>,
    pub(crate) newer: Vec<Event>,
}

/// What a thread has made: how many accesses, and the last ones of them, if they were noted.
#[derive(Drop)]
pub struct Made {
    pub accesses: u64,
    pub tail: Option<Tail>,
}

impl Tail {
    /// No access yet, with room for so many.
    pub fn new(alloc: Global, room: usize) -> Result<Tail, OutOfMemory>
        requires some { 0 < room }
        ensures tail { IfOk result (IsTail []) }
        ensures room { IfOk result (λ tail. room_of tail ≡ room) }
    {
        Ok(Tail {
            older: Vec::with_capacity(alloc, room)?,
            newer: Vec::with_capacity(alloc, room)?,
        })
    }

    // Lets the older ones go, so that there is room for newer ones.
    fn turn(&mut self)
        ensures older { self.new.older ≡ self.old.newer }
        ensures none { self.new.newer.items ≡ [] }
        ensures empty { vec_len self.new.newer ≡ 0 }
        ensures room { vec_capacity self.new.newer ≡ vec_capacity self.old.older }
    {
        self.older.clear();
        mem::swap(&mut self.older, &mut self.newer);
    }

    // Makes room for one more.
    fn make_room(&mut self)
        ensures tail { (accesses : List Event) → IsTail accesses self.old → IsTail accesses self.new × (vec_len self.new.newer < vec_capacity self.new.newer) × (room_of self.new ≡ room_of self.old) }
    {
        if self.newer.len() < self.newer.capacity() {
            return;
        }
        self.turn();
    }

    /// Notes an access that the thread has made. Where there is no room any more, the oldest ones are let go.
    pub fn note(&mut self, access: Event)
        requires some { (accesses : List Event) × IsTail accesses self.old }
        ensures tail { (accesses : List Event) → IsTail accesses self.old → IsTail (accesses ++ access ∷ []) self.new }
        ensures room { room_of self.new ≡ room_of self.old }
    {
        self.make_room();
        self.newer.push_reserved(access);
    }

    /// How many accesses are kept.
    pub fn len(&self) -> usize
        ensures { result ≡ length (kept_in self.now) }
    {
        self.older.len() + self.newer.len()
    }

    // What is kept.
    fn kept(&self, alloc: Global) -> Result<Vec<Event>, OutOfMemory>
        ensures { IfOk result (λ kept. kept.items ≡ kept_in self.now) }
    {
        let mut kept = Vec::from_slice(alloc, self.older.as_slice())?;
        kept.extend_from_slice(self.newer.as_slice())?;
        Ok(kept)
    }

    /// The last accesses, so many of those that are kept.
    pub fn last(&self, alloc: Global, many: usize) -> Result<List<Event>, OutOfMemory>
        requires { many ≤ length (kept_in self.now) }
        ensures { IfOk result (λ last. (accesses : List Event) → IsTail accesses self.now → IsLast accesses many last) }
    {
        let kept = self.kept(alloc)?;
        let (_before, last) = kept.as_slice().split_at(kept.len() - many);
        Ok(List::from_vec(Vec::from_slice(alloc, last)?))
    }
}
