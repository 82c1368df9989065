//! A follower: one thread as far as it has run again, with its seat on the words.
ghost use Rattle.std.specs.Prelude.{◌≡◌, ◌∷◌, [], List, take, length, min, true, false, Some, None};
ghost use Rattle.std.specs.Vec.{vec_capacity};
ghost use Rattle.octet_digest.specs.Digests.{bits_of, digest_of};
ghost use Rattle.octet_model.specs.Journals.{access_count};
ghost use Rattle.octet_model.specs.declared.log.Gapped.{Gapped as AGapped};
ghost use Rattle.octet_follow.specs.Blocks.{after_taken, TakesBlock};
ghost use Rattle.octet_follow.specs.Calls.{given, given_after, room_of, journal_in, IsUpTo, IsThrough, IsOut};

use crate::ending::Ending;
use crate::words::Seat;
use octet_digest::Digest;
use octet_model::Gapped;

/// As many words as two lines of memory hold, which a processor may take in together.
pub(crate) const WORDS_APART: usize = 16;

/// One thread as far as it has run again, on its seat, with a buffer of the marks that come next.
#[derive(Drop)]
pub struct Follower {
    pub(crate) seat: Seat,
    pub(crate) number: u8,
    /// What comes after all that it was told.
    pub(crate) ending: Ending,
    /// How many accesses come before the next mark, or before the end of its block.
    pub(crate) left: u64,
    /// How many accesses come after the last mark of its block.
    pub(crate) after: u64,
    /// How many events it has made.
    pub(crate) events: u64,
    /// How many of them are marks.
    pub(crate) marked: u64,
    /// How many of them its progress word shows.
    pub(crate) shown: u64,
    /// How many it makes before it shows the next accesses.
    pub(crate) awaited: u64,
    pub(crate) digest: Digest,
    pub(crate) marks: Vec<Gapped>,
    pub(crate) next: usize,
    /// Keeps followers apart, so that no two threads write to one line of memory.
    pub(crate) padding: [u64; WORDS_APART],
}

// Copies the first marks, as many as there is room for, over what was there.
fn copy(buffer: &mut Vec<Gapped>, marks: &[Gapped]) -> usize
    ensures fills { result ≡ min (length marks.now) (vec_capacity buffer.old) }
    ensures copied { buffer.new.items ≡ take result marks.now }
    ensures room { vec_capacity buffer.new ≡ vec_capacity buffer.old }
{
    buffer.clear();
    let mut taken = 0;
    while taken < marks.len() && buffer.len() < buffer.capacity() {
        buffer.push_reserved(marks[taken]);
        taken += 1;
    }
    taken
}

// How many accesses come before the first of these marks. Where there is none, it is all that come after them.
fn first_gap(marks: &[Gapped], after: u64) -> u64
    ensures some { (first : AGapped) (rest : List AGapped) → marks.now ≡ first ∷ rest → result ≡ first.gap }
    ensures none { marks.now ≡ [] → result ≡ after }
{
    match marks.first() {
        Some(first) => first.gap as u64,
        None => after,
    }
}

// How many accesses come after the marks that were taken, of a block with so many marks.
fn left_after(taken: usize, marks: usize, after: u64) -> u64
    ensures { result ≡ after_taken taken marks after }
{
    if taken == marks { after } else { 0 }
}

impl Follower {
    /// The number of its thread.
    pub fn thread(&self) -> u8
        ensures { result ≡ self.now.number }
    {
        self.number
    }

    /// How many events it has made, marks included.
    pub fn events(&self) -> u64
        requires up { IsUpTo self.now }
        ensures { result ≡ length (journal_in self.now) }
    {
        self.events
    }

    /// How many accesses it has made.
    pub fn accesses(&self) -> u64
        requires up { IsUpTo self.now }
        ensures { result ≡ access_count (journal_in self.now) }
    {
        self.events - self.marked
    }

    /// The digest of the accesses that it has made.
    pub fn digest(&self) -> Digest
        requires up { IsUpTo self.now }
        ensures { bits_of result ≡ digest_of (journal_in self.now) }
    {
        self.digest
    }

    /// Whether it has made all that it was told of, and more comes.
    pub fn is_out(&self) -> bool
        ensures out { result ≡ true → IsOut self.now }
        ensures not_out { result ≡ false → IsOut self.now → ⊥ }
    {
        match self.ending {
            Ending::Open => self.is_through(),
            Ending::ThreadEnds | Ending::BreaksOff => false,
        }
    }

    // Whether it has made all that it was told of.
    fn is_through(&self) -> bool
        ensures through { result ≡ true → IsThrough self.now }
        ensures not_through { result ≡ false → IsThrough self.now → ⊥ }
    {
        if self.left != 0 {
            return false;
        }
        self.next >= self.marks.len()
    }

    /// Takes the block that comes next, as many of its marks as there is room for, where it has made all
    /// that it was told of. Answers how many it took.
    pub(crate) fn refill(&mut self, marks: &[Gapped], after: u64) -> Option<usize>
        requires up { IsUpTo self.old }
        ensures up { IsUpTo self.new }
        ensures seat { (self.new.seat ≡ self.old.seat) × (self.new.number ≡ self.old.number) }
        ensures same { (room_of self.new ≡ room_of self.old) × (self.new.awaited ≡ self.old.awaited) × (self.new.ending ≡ self.old.ending) }
        ensures takes { IsOut self.old → (result ≡ Some (min (length marks.now) (room_of self.old))) × TakesBlock (min (length marks.now) (room_of self.old)) marks.now after self.old self.new }
        ensures leaves { (IsOut self.old → ⊥) → (result ≡ None) × (self.new ≡ self.old) }
    {
        if !self.is_out() {
            return None;
        }
        let taken = copy(&mut self.marks, marks);
        self.next = 0;
        self.after = left_after(taken, marks.len(), after);
        self.left = first_gap(self.marks.as_slice(), self.after);
        Some(taken)
    }

    /// Takes it that nothing comes after what it was told.
    pub(crate) fn end(&mut self, ending: Ending)
        requires up { IsUpTo self.old }
        ensures up { IsUpTo self.new }
        ensures seat { (self.new.seat ≡ self.old.seat) × (self.new.number ≡ self.old.number) }
        ensures same { (room_of self.new ≡ room_of self.old) × (self.new.awaited ≡ self.old.awaited) }
        ensures given { (given self.new ≡ given self.old) × (given_after self.new ≡ given_after self.old) }
        ensures told { self.new.ending ≡ ending }
    {
        self.ending = ending;
    }
}
