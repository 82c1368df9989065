//! The front of a run that has what is asked for, found by the marks.
ghost use Rattle.std.specs.Prelude.{◌≡◌, ◌++◌, ◌∷◌, ◌<◌, ◌≤◌, List, [], true, false, length, get_or, OnOk, IfOk, IfErr};
ghost use Rattle.octet_tail.specs.declared.needs.TheConstants.{THREADS};
ghost use Rattle.octet_tail.specs.declared.placed.Placed.{Placed};
ghost use Rattle.octet_tail.specs.Fronts.{after, asked_of, front_of, needs_of, AreOpen, IsFinder, IsLeastFront, IsRound, IsUntaken, IsUpTo, OpensUp};

use crate::needs::{Needs, THREADS};
use crate::placed::Placed;
use octet_model::{List, OutOfMemory};
use octet_window::Front;
use std::alloc::{AllocFailed, Global};

/// Why a mark is not taken.
#[derive(Clone, Copy, Debug, PartialEq, Eq)]
pub enum Untaken {
    /// With the accesses that are asked for the thread has 2^64 events or more.
    ManyEvents,
    OutOfMemory,
}

/// A front, and the marks after it, in the order in which they were given.
#[derive(Debug, Drop)]
pub struct LeastFront {
    pub front: Front,
    pub marks: List<Placed>,
}

/// Finds the front of a run that has the first accesses of each thread, so many as are asked for. It is given the marks of
/// the run, and keeps those alone of which it is not known yet whether the front has them.
#[derive(Drop)]
pub struct FrontFinder {
    pub(crate) asked: Vec<u64>,
    // What the front has at least.
    pub(crate) needs: Needs,
    pub(crate) kept: Vec<Placed>,
}

// Keeps the mark, unless the front has it.
fn sift(needs: &mut Needs, kept: &mut Vec<Placed>, placed: Placed) -> Result<(), OutOfMemory>
    ensures upto { IsUpTo (front_of needs.old) (front_of needs.new) }
    ensures sifted { OnOk result (OpensUp placed needs.old kept.old.items needs.new kept.new.items) }
{
    if needs.covers(placed) {
        needs.take_in(placed, placed.events);
    } else {
        kept.push(placed)?;
    }
    Ok(())
}

// Keeps those of these marks that the front does not have by now.
fn sift_all(needs: &mut Needs, all: &[Placed], kept: &mut Vec<Placed>) -> Result<(), OutOfMemory>
    requires none { kept.old.items ≡ [] }
    ensures round { OnOk result (IsRound all.now needs.old needs.new (length all.now) kept.new.items) }
{
    for placed in all {
        sift(needs, kept, *placed)?;
    }
    Ok(())
}

impl FrontFinder {
    /// A finder that was given no mark. It is asked for so many first accesses of each thread, in order.
    pub fn new(alloc: Global, asked: &[u64]) -> Result<FrontFinder, OutOfMemory>
        requires few { length asked.now ≤ THREADS }
        ensures none { IfOk result (IsFinder []) }
        ensures asked { IfOk result (λ finder. asked_of finder ≡ asked.now) }
    {
        Ok(FrontFinder {
            asked: Vec::from_slice(alloc, asked)?,
            needs: Needs::new(alloc, asked)?,
            kept: Vec::new(alloc),
        })
    }

    // How many accesses of the thread are asked for.
    fn asked_of(&self, thread: u8) -> u64
        ensures { result ≡ get_or (asked_of self.now) thread 0 }
    {
        self.asked
            .as_slice()
            .get(thread as usize)
            .copied()
            .unwrap_or(0)
    }

    /// Is given a mark.
    pub fn mark(&mut self, placed: Placed) -> Result<(), Untaken>
        ensures finds { OnOk result ((marks : List Placed) → IsFinder marks self.old → IsFinder (marks ++ placed ∷ []) self.new) }
        ensures asked { asked_of self.new ≡ asked_of self.old }
        ensures untaken { IfErr result (IsUntaken (asked_of self.old) placed) }
    {
        let asked = self.asked_of(placed.thread);
        if placed.accesses >= asked {
            return match sift(&mut self.needs, &mut self.kept, placed) {
                Ok(()) => Ok(()),
                Err(OutOfMemory) => Err(Untaken::OutOfMemory),
            };
        }
        let Some(events) = placed.events.checked_add(asked - placed.accesses) else {
            return Err(Untaken::ManyEvents);
        };
        self.needs.take_in(placed, events);
        Ok(())
    }

    // Lets the marks go that the front has by now. Tells whether it has any.
    fn round(&mut self, alloc: Global) -> Result<bool, OutOfMemory>
        ensures asked { self.new.asked ≡ self.old.asked }
        ensures round { OnOk result (IsRound self.old.kept.items self.old.needs self.new.needs (length self.old.kept.items) self.new.kept.items) }
        ensures fewer { IfOk result (λ some. some ≡ true → length self.new.kept.items < length self.old.kept.items) }
        ensures same { IfOk result (λ some. some ≡ false → length self.old.kept.items ≤ length self.new.kept.items) }
    {
        let mut kept = Vec::new(alloc);
        sift_all(&mut self.needs, self.kept.as_slice(), &mut kept)?;
        let fewer = kept.len() < self.kept.len();
        self.kept = kept;
        Ok(fewer)
    }

    // Lets the marks go that the front has, and what these wait for, until no more are found.
    fn settle(&mut self, alloc: Global) -> Result<(), OutOfMemory>
        ensures finds { OnOk result ((marks : List Placed) → IsFinder marks self.old → IsFinder marks self.new) }
        ensures asked { self.new.asked ≡ self.old.asked }
        ensures open { OnOk result (AreOpen (needs_of self.new) self.new.kept.items) }
    {
        for round in 0..self.kept.len() {
            if !self.round(alloc)? {
                return Ok(());
            }
        }
        Ok(())
    }

    /// The least front that has the first accesses of each thread, so many as are asked for, and is closed under the marks
    /// that were given: what a mark waited for is before the front where the mark is, and so are the draws up to the last
    /// one. And the marks after it.
    pub fn find(self, alloc: Global) -> Result<LeastFront, OutOfMemory>
        ensures front { IfOk result (λ found. (marks : List Placed) → IsFinder marks self → IsLeastFront (asked_of self) marks found.front) }
        ensures marks { IfOk result (λ found. (marks : List Placed) → IsFinder marks self → found.marks ≡ after found.front marks) }
    {
        let mut finder = self;
        finder.settle(alloc)?;
        let FrontFinder { needs, kept, .. } = finder;
        Ok(LeastFront {
            front: Front {
                made: List::from_vec(needs.made),
                draws: needs.draws,
            },
            marks: List::from_vec(kept),
        })
    }
}
