//! What a front has at least, with more marks.
ghost use Rattle.std.specs.Prelude.{◌≡◌, ◌≤◌, ℕ, true, false, length, get_or, IfOk};
ghost use Rattle.octet_window.specs.declared.front.Front.{Front};
ghost use Rattle.octet_window.specs.Fronts.{made_in};
ghost use Rattle.octet_tail.specs.declared.needs.TheConstants.{THREADS};
ghost use Rattle.octet_tail.specs.Fronts.{front_of, HasMark, IsCovered, IsOpen, IsUpTo};

use crate::needs::{Needs, THREADS};
use crate::placed::Placed;
use octet_model::{Mark, OutOfMemory};
use std::alloc::Global;

impl Needs {
    /// So many events of each thread, and no draw.
    pub(crate) fn new(alloc: Global, events: &[u64]) -> Result<Needs, OutOfMemory>
        requires few { length events.now ≤ THREADS }
        ensures made { IfOk result (λ needs. (thread : ℕ) → made_in (front_of needs) thread ≡ get_or events.now thread 0) }
        ensures draws { IfOk result (λ needs. needs.draws ≡ 0) }
    {
        let mut made = Vec::from_slice(alloc, events)?;
        for _thread in events.len()..THREADS {
            made.push(0)?;
        }
        Ok(Needs { made, draws: 0 })
    }

    // The front has so many events of the thread.
    fn raise(&mut self, thread: u8, events: u64)
        ensures upto { IsUpTo (front_of self.old) (front_of self.new) }
        ensures there { events ≤ made_in (front_of self.new) thread }
        ensures least { (front : Front) → IsUpTo (front_of self.old) front → events ≤ made_in front thread → IsUpTo (front_of self.new) front }
    {
        if self.made[thread as usize] < events {
            self.made[thread as usize] = events;
        }
    }

    // The front has so many draws.
    fn raise_draws(&mut self, draws: u64)
        ensures upto { IsUpTo (front_of self.old) (front_of self.new) }
        ensures there { draws ≤ self.new.draws }
        ensures least { (front : Front) → IsUpTo (front_of self.old) front → draws ≤ front.draws → IsUpTo (front_of self.new) front }
    {
        self.draws = self.draws.max(draws);
    }

    // The front has what the mark waited for.
    fn raise_for(&mut self, mark: Mark)
        ensures upto { IsUpTo (front_of self.old) (front_of self.new) }
        ensures there { HasMark (front_of self.new) mark }
        ensures least { (front : Front) → IsUpTo (front_of self.old) front → HasMark front mark → IsUpTo (front_of self.new) front }
    {
        match mark {
            Mark::Join { from, upto } => self.raise(from, upto),
            Mark::Draw { number } => self.raise_draws(number),
            Mark::Fence { number } => self.raise_draws(number),
        }
    }

    /// The front has the mark, with so many events of its thread, and what the mark waited for.
    pub(crate) fn take_in(&mut self, placed: Placed, events: u64)
        ensures upto { IsUpTo (front_of self.old) (front_of self.new) }
        ensures there { events ≤ made_in (front_of self.new) placed.thread }
        ensures mark { HasMark (front_of self.new) placed.mark }
        ensures least { (front : Front) → IsUpTo (front_of self.old) front → events ≤ made_in front placed.thread → HasMark front placed.mark → IsUpTo (front_of self.new) front }
    {
        self.raise(placed.thread, events);
        self.raise_for(placed.mark);
    }

    /// Whether a front that has at least this has the mark: it has an event of the thread from there on, or a later draw.
    pub(crate) fn covers(&self, placed: Placed) -> bool
        ensures covered { result ≡ true → IsCovered (front_of self.now) placed }
        ensures open { result ≡ false → IsOpen (front_of self.now) placed }
    {
        if placed.events <= self.made[placed.thread as usize] {
            return true;
        }
        match placed.mark {
            Mark::Draw { number } => number <= self.draws,
            Mark::Join { .. } | Mark::Fence { .. } => false,
        }
    }
}
