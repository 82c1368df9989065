//! The fronts before and behind the last accesses are found, by the pieces of a marks file.
ghost use Rattle.std.specs.Prelude.{◌≡◌, ◌++◌, ◌∷◌, ◌≤◌, [], ℕ, List, length, Err, OnOk, IfOk, IfErr};
ghost use Rattle.octet_model.specs.declared.limits.TheConstants.{MAX_THREADS};
ghost use Rattle.octet_marks.specs.declared.piece.Piece.{Piece};
ghost use Rattle.octet_marks.specs.declared.piece.Piece.TheVariants as pieces;
ghost use Rattle.octet_tail.specs.declared.finder.Untaken.TheVariants.{ManyEvents};
ghost use Rattle.octet_tail.specs.Places.{come_at, ComesTo};
ghost use Rattle.octet_tail.specs.Between.{all_but};

use crate::finder::{FrontFinder, Untaken};
use crate::fronts::Fronts;
use crate::placed::Placed;
use crate::places::Places;
use octet_marks::{Block, Piece};
use octet_model::{Gapped, OutOfMemory};
use std::alloc::Global;

/// Finds the fronts before and behind the last accesses. It is given the pieces of a marks file, in order.
#[derive(Drop)]
pub struct Finders {
    pub(crate) before: FrontFinder,
    pub(crate) behind: FrontFinder,
    pub(crate) places: Places,
}

// So many accesses of each thread, but for the last ones.
fn all_but(alloc: Global, last: u64, made: &[u64]) -> Result<Vec<u64>, OutOfMemory>
    ensures { IfOk result (λ asked. asked.items ≡ all_but last made.now) }
{
    let mut asked = Vec::new(alloc);
    for many in made {
        asked.push(many.saturating_sub(last))?;
    }
    Ok(asked)
}

impl Finders {
    ghost use Rattle.octet_tail.specs.Between.{placed_at, placed_from, come_to, AreMany, HaveNoted, IsUnnoted, IsBetween};
    ghost use Rattle.octet_tail.specs.Noting.{come_with, IsUncounted, TakesOn};

    /// Given no piece yet, of threads that have made so many accesses. The first front is to have all but the last ones of each.
    pub fn new(alloc: Global, made: &[u64], last: u64) -> Result<Finders, OutOfMemory>
        requires few { length made.now ≤ MAX_THREADS }
        ensures { IfOk result (HaveNoted made.now last []) }
    {
        let asked = all_but(alloc, last, made)?;
        Ok(Finders {
            before: FrontFinder::new(alloc, asked.as_slice())?,
            behind: FrontFinder::new(alloc, made)?,
            places: Places::new(alloc)?,
        })
    }

    // Both are given a mark.
    fn take(&mut self, placed: Placed) -> Result<(), Untaken>
        ensures takes { OnOk result (TakesOn (placed ∷ []) self.old self.new) }
        ensures places { self.new.places ≡ self.old.places }
        ensures untaken { result ≡ Err ManyEvents → IsUncounted self.old placed.thread (come_to placed) }
    {
        self.before.mark(placed)?;
        self.behind.mark(placed)
    }

    // Both are given the mark that comes next of a thread.
    fn place(&mut self, thread: u8, gapped: Gapped) -> Result<(), Untaken>
        ensures takes { OnOk result (TakesOn (placed_at thread (come_at self.old.places thread) gapped ∷ []) self.old self.new) }
        ensures comes { OnOk result (ComesTo thread (come_with (gapped ∷ []) thread (come_at self.old.places thread)) self.old.places self.new.places) }
        ensures untaken { result ≡ Err ManyEvents → IsUncounted self.old thread (come_with (gapped ∷ []) thread (come_at self.old.places thread)) }
    {
        let Some(placed) = self.places.place(thread, gapped) else {
            return Err(Untaken::ManyEvents);
        };
        self.take(placed)
    }

    // Both are given the marks of a block.
    fn place_all(&mut self, thread: u8, marks: &[Gapped]) -> Result<(), Untaken>
        ensures takes { OnOk result (TakesOn (placed_from marks.now thread (come_at self.old.places thread)) self.old self.new) }
        ensures comes { OnOk result (ComesTo thread (come_with marks.now thread (come_at self.old.places thread)) self.old.places self.new.places) }
        ensures untaken { result ≡ Err ManyEvents → IsUncounted self.old thread (come_with marks.now thread (come_at self.old.places thread)) }
    {
        for gapped in marks {
            self.place(thread, *gapped)?;
        }
        Ok(())
    }

    // The block of a thread is noted.
    fn note_block(&mut self, block: &Block) -> Result<(), Untaken>
        ensures noted { OnOk result ((made : List ℕ) (last : ℕ) (all : List Piece) → HaveNoted made last all self.old → HaveNoted made last (all ++ pieces.Block block.now ∷ []) self.new) }
        ensures unnoted { result ≡ Err ManyEvents → (made : List ℕ) (last : ℕ) (all : List Piece) → HaveNoted made last all self.old → AreMany made all (pieces.Block block.now) }
    {
        self.place_all(block.thread, block.marks.as_slice())?;
        match self.places.pass(block.thread, block.gap) {
            Some(()) => Ok(()),
            None => Err(Untaken::ManyEvents),
        }
    }

    /// Notes the next piece of the file. After an error the finders are of no more use.
    pub fn note(&mut self, piece: &Piece) -> Result<(), Untaken>
        ensures noted { OnOk result ((made : List ℕ) (last : ℕ) (pieces : List Piece) → HaveNoted made last pieces self.old → HaveNoted made last (pieces ++ piece.now ∷ []) self.new) }
        ensures unnoted { IfErr result (λ fault. (made : List ℕ) (last : ℕ) (pieces : List Piece) → HaveNoted made last pieces self.old → IsUnnoted made pieces piece.now fault) }
    {
        match piece {
            Piece::Block { block } => self.note_block(block),
            Piece::Head { head: _head } => Ok(()),
            Piece::End { end: _end } => Ok(()),
        }
    }

    /// The fronts before and behind the last accesses, by the marks of the pieces that were noted.
    pub fn find(self, alloc: Global) -> Result<Fronts, OutOfMemory>
        ensures { IfOk result (λ fronts. (made : List ℕ) (last : ℕ) (pieces : List Piece) → HaveNoted made last pieces self → IsBetween made last pieces fronts) }
    {
        let Finders {
            before,
            behind,
            places,
        } = self;
        let found = before.find(alloc)?;
        Ok(Fronts {
            before: found.front,
            behind: behind.find(alloc)?.front,
            marks: found.marks,
            places,
        })
    }
}
