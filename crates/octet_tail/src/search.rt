//! The fronts between which the last accesses lie are searched by the bytes of a marks file.
ghost use Rattle.std.specs.Prelude.{◌≡◌, ◌<◌, ◌≤◌, [], ◌∷◌, ◌++◌, ℕ, List, length, true, false, Ok, Err, OnOk, IfOk, IfErr};
ghost use Rattle.octet_model.specs.declared.limits.TheConstants.{MAX_THREADS};
ghost use Rattle.octet_marks.specs.declared.piece.Piece.{Piece};
ghost use Rattle.octet_marks.specs.Files.{unread_of};
ghost use Rattle.octet_tail.specs.Searches.{counts_in, AreNotedBy};

use crate::fault::SearchFault;
use crate::finder::Untaken;
use crate::finders::Finders;
use crate::found::{Found, parts_of};
use crate::fronts::Fronts;
use crate::tail::Made;
use octet_marks::{Piece, Reader, more_bytes_change_nothing, reader_reads_what_it_is_fed};
use octet_model::{List, OutOfMemory};
use std::alloc::Global;
use std::mem;

/// The search for the fronts between which the last accesses lie. It is fed the marks file by which threads were made again.
#[derive(Drop)]
pub struct Search {
    // What each thread has made, in order.
    pub(crate) made: List<Made>,
    // How many last accesses of each are wanted.
    pub(crate) last: u64,
    pub(crate) reader: Reader,
    // Or why a piece could not be noted.
    pub(crate) finders: Result<Finders, Untaken>,
}

// How many accesses each thread has made.
pub(crate) fn counts_of(alloc: Global, made: &[Made]) -> Result<Vec<u64>, OutOfMemory>
    ensures { IfOk result (λ counts. counts.items ≡ counts_in made.now) }
{
    let mut counts = Vec::new(alloc);
    for one in made {
        counts.push(one.accesses)?;
    }
    Ok(counts)
}

// Notes a piece, unless one could not be noted before it.
fn note_by(finders: &mut Result<Finders, Untaken>, piece: &Piece) -> Result<(), Untaken>
    ensures noted { OnOk result ((made : List ℕ) (last : ℕ) (all : List Piece) → AreNotedBy made last all finders.old → AreNotedBy made last (all ++ piece.now ∷ []) finders.new) }
    ensures failed { IfErr result (λ why. (made : List ℕ) (last : ℕ) (all : List Piece) → AreNotedBy made last all finders.old → AreNotedBy made last (all ++ piece.now ∷ []) (Err why)) }
{
    match finders {
        Ok(finders) => finders.note(piece),
        Err(why) => Err(*why),
    }
}

impl Search {
    ghost use Rattle.octet_tail.specs.Between.{IsBetween};
    ghost use Rattle.octet_tail.specs.Searches.{fed_by, IsSameSearch, HasSearched, NotesPiece, SearchesOn, HasSearchFault, HasReadAll, FindsIn, HasFindFault};

    /// Of threads that have made so much. Of each so many last accesses are wanted, or fewer.
    pub fn new(alloc: Global, made: List<Made>, last: u64) -> Result<Search, OutOfMemory>
        requires few { length made ≤ MAX_THREADS }
        ensures of { IfOk result (λ search. (search.made ≡ made) × (search.last ≡ last)) }
        ensures nothing { IfOk result (HasSearched [] []) }
    {
        reader_reads_what_it_is_fed();
        let counts = counts_of(alloc, made.as_slice())?;
        let finders = Finders::new(alloc, counts.as_slice(), last)?;
        Ok(Search {
            made,
            last,
            reader: Reader::new(alloc),
            finders: Ok(finders),
        })
    }

    // Notes a piece that was read.
    fn note(&mut self, piece: &Piece) -> Result<(), SearchFault>
        ensures notes { NotesPiece piece.now self.old self.new }
        ensures fault { IfErr result (HasSearchFault self.new) }
    {
        match note_by(&mut self.finders, piece) {
            Ok(()) => Ok(()),
            Err(why) => {
                self.finders = Err(why);
                Err(SearchFault::from(why))
            }
        }
    }

    // Reads the next piece, and notes it. Tells whether there was one.
    fn note_next(&mut self, alloc: Global) -> Result<bool, SearchFault>
        ensures searches { SearchesOn [] self.old self.new }
        ensures fewer { result ≡ Ok true → length (unread_of self.new.reader).bytes < length (unread_of self.old.reader).bytes }
        ensures all { result ≡ Ok false → HasReadAll self.new }
        ensures fault { IfErr result (HasSearchFault self.new) }
    {
        reader_reads_what_it_is_fed();
        more_bytes_change_nothing();
        match self.reader.next(alloc) {
            Ok(Some(piece)) => {
                self.note(&piece)?;
                Ok(true)
            }
            Ok(None) => Ok(false),
            Err(fault) => Err(SearchFault::from(fault)),
        }
    }

    // Notes all pieces that are whole.
    fn note_all(&mut self, alloc: Global) -> Result<(), SearchFault>
        ensures searches { SearchesOn [] self.old self.new }
        ensures all { OnOk result (HasReadAll self.new) }
        ensures fault { IfErr result (HasSearchFault self.new) }
    {
        'pieces: loop {
            if !self.note_next(alloc)? {
                return Ok(());
            }
        }
    }

    /// Notes what the bytes before have, and takes the next bytes of the file. After an error none is taken. A refusal comes
    /// again, and so does an error in noting.
    pub fn feed(&mut self, alloc: Global, bytes: &[u8]) -> Result<(), SearchFault>
        ensures searches { SearchesOn (fed_by bytes.now result) self.old self.new }
        ensures fault { IfErr result (HasSearchFault self.new) }
    {
        reader_reads_what_it_is_fed();
        self.note_all(alloc)?;
        match self.reader.feed(alloc, bytes) {
            Ok(()) => Ok(()),
            Err(_) => Err(SearchFault::OutOfMemory),
        }
    }

    // The fronts by what was noted, which is given up for them.
    fn fronts(&mut self, alloc: Global) -> Result<Fronts, SearchFault>
        ensures same { IsSameSearch self.old self.new × (self.new.reader ≡ self.old.reader) }
        ensures fronts { IfOk result (λ fronts. (all : List Piece) → AreNotedBy (counts_in self.old.made) self.old.last all self.old.finders → IsBetween (counts_in self.old.made) self.old.last all fronts) }
        ensures fault { IfErr result (HasSearchFault self.old) }
    {
        match mem::replace(&mut self.finders, Err(Untaken::OutOfMemory)) {
            Ok(finders) => Ok(finders.find(alloc)?),
            Err(why) => Err(SearchFault::from(why)),
        }
    }

    /// The fronts and the parts of all threads between them, by all whole pieces of the bytes that were fed. Nothing more is
    /// found then.
    pub fn find(&mut self, alloc: Global) -> Result<Found, SearchFault>
        requires few { length self.old.made ≤ MAX_THREADS }
        ensures same { IsSameSearch self.old self.new }
        ensures finds { IfOk result (λ found. (fed : List ℕ) (all : List Piece) → HasSearched fed all self.old → FindsIn fed self.old.made self.old.last found) }
        ensures count { IfOk result (λ found. length found.parts ≡ length self.old.made) }
        ensures fault { IfErr result (HasFindFault self.old) }
    {
        self.note_all(alloc)?;
        let fronts = self.fronts(alloc)?;
        let parts = parts_of(alloc, &fronts, self.made.as_slice(), self.last)?;
        Ok(Found { fronts, parts })
    }
}
