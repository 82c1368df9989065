//! A marks file as what one of its threads is fed.
ghost use Rattle.std.specs.Prelude.{◌≡◌, ◌≢◌, ◌<◌, ◌≤◌, [], ◌∷◌, length, take, drop, true, false, None, Ok, IfOk, IfErr, OnOk, IfSome, IfNone};
ghost use Rattle.rtrb.specs.Ring.{sent};
ghost use Rattle.octet_marks.specs.declared.piece.Head.{Head};
ghost use Rattle.octet_marks.specs.Files.{unread_of, fed_with};
ghost use Rattle.octet_marks.specs.Reading.{piece_at};
ghost use Rattle.octet_blocks.specs.declared.fault.FeedFault.TheVariants.{OutOfMemory, OtherRun};
ghost use Rattle.octet_blocks.specs.Items.{block_items};

use crate::fault::{FeedFault, unread};
use crate::same::is_same;
use octet_marks::{
    Block, Head, Piece, Reader, more_bytes_change_nothing, reader_reads_what_it_is_fed,
};
use octet_stream::{Feeder, Item};
use std::alloc::Global;

/// The most bytes that are taken at once.
pub const MAX_TAKEN: usize = 32_768;

/// A block of which so many items were given.
#[derive(Debug, Drop)]
pub struct Rest {
    pub(crate) block: Block,
    pub(crate) given: usize,
    ghost within: { given ≤ length block.marks },
}

/// What a thread has no room for yet.
#[derive(Debug, Drop)]
pub enum Waiting {
    Nothing,
    Items { rest: Rest },
    ThreadEnd,
    BreaksOff,
}

/// One thread's way through a marks file. It is fed all bytes of the file, and feeds the thread what they have of it.
#[derive(Drop)]
pub struct BlockReader {
    pub(crate) feeder: Feeder,
    pub(crate) reader: Reader,
    pub(crate) waiting: Waiting,
    // Whether the thread's end was read.
    pub(crate) has_ended: bool,
    // Whether the file is the recording of another run.
    pub(crate) is_other: bool,
    // Whether it has no more.
    pub(crate) is_over: bool,
}

impl Rest {
    // The item that is given next.
    #[tactic(auto, using(crate::proofs::Fed::rest_mark, crate::proofs::Fed::rest_end))]
    fn next_item(&self) -> Item
        ensures { drop self.now.given (block_items self.now.block) ≡ result ∷ drop 1 (drop self.now.given (block_items self.now.block)) }
    {
        match self.block.marks.get(self.given) {
            Some(mark) => Item::Marked { mark: *mark },
            None => Item::BlockEnd {
                gap: self.block.gap,
                digest: self.block.digest,
            },
        }
    }
}

impl BlockReader {
    ghost use Rattle.octet_blocks.specs.Reading.{waiting_items, break_items, IsOfRun, HasNoNext, HasFed, Gives, TurnsTo, Feeds, LacksRoom, HasFault, HasTaken, taken};

    /// Of a thread that was given nothing.
    #[tactic(auto, using(crate::proofs::Fed::fed_nothing))]
    pub fn new(alloc: Global, feeder: Feeder) -> BlockReader
        ensures feeder { result.feeder ≡ feeder }
        ensures nothing { (wanted : Head) → sent feeder.end ≡ [] → HasFed wanted result [] [] }
    {
        reader_reads_what_it_is_fed();
        BlockReader {
            feeder,
            reader: Reader::new(alloc),
            waiting: Waiting::Nothing,
            has_ended: false,
            is_other: false,
            is_over: false,
        }
    }

    /// The number of the thread.
    pub fn thread(&self) -> u8
        ensures { result ≡ self.now.feeder.thread }
    {
        self.feeder.thread()
    }

    // The item that the thread is given next, if there is one.
    fn next_item(&self) -> Option<Item>
        ensures some { IfSome result (λ item. waiting_items self.now.waiting ≡ item ∷ drop 1 (waiting_items self.now.waiting)) }
        ensures none { IfNone result (waiting_items self.now.waiting ≡ []) }
    {
        match &self.waiting {
            Waiting::Nothing => None,
            Waiting::Items { rest } => Some(rest.next_item()),
            Waiting::ThreadEnd => Some(Item::ThreadEnd),
            Waiting::BreaksOff => Some(Item::BreaksOff),
        }
    }

    // The item was given.
    #[tactic(auto, using(crate::proofs::Fed::rest_on, crate::proofs::Fed::rest_last))]
    fn advance(&mut self)
        ensures rest { self.new ≡ record self.old { waiting = self.new.waiting } }
        ensures items { waiting_items self.new.waiting ≡ drop 1 (waiting_items self.old.waiting) }
    {
        if let Waiting::Items { rest } = &mut self.waiting {
            if rest.given < rest.block.marks.len() {
                rest.given += 1;
                return;
            }
        }
        self.waiting = Waiting::Nothing;
    }

    // Gives the thread what waits, as far as there is room. Tells whether nothing waits.
    #[tactic(auto, using(crate::proofs::Fed::gives_none, crate::proofs::Fed::gives_one, crate::proofs::Fed::gives_back, crate::proofs::Fed::lacks_room))]
    fn give_all(&mut self) -> bool
        ensures gives { Gives self.old self.new }
        ensures all { result ≡ true → waiting_items self.new.waiting ≡ [] }
        ensures full { result ≡ false → LacksRoom self.new }
    {
        while let Some(item) = self.next_item() {
            if let Some(_) = self.feeder.give(item) {
                return false;
            }
            self.advance();
        }
        true
    }

    // What a piece of the file is to the thread.
    fn turn_to(&mut self, piece: Piece, wanted: &Head) -> Result<(), FeedFault>
        requires nothing { waiting_items self.old.waiting ≡ [] }
        requires of_run { self.old.is_other ≡ false }
        ensures turns { TurnsTo wanted.now piece self.old self.new }
        ensures ok { OnOk result (self.new.is_other ≡ false) }
        ensures other { IfErr result (λ fault. (fault ≡ OtherRun) × (self.new.is_other ≡ true)) }
    {
        match piece {
            Piece::Head { head } => {
                if !is_same(&head, wanted) {
                    self.is_other = true;
                    return Err(FeedFault::OtherRun);
                }
            }
            Piece::Block { block } => {
                if block.thread == self.feeder.thread() {
                    self.waiting = Waiting::Items {
                        rest: Rest { block, given: 0 },
                    };
                }
            }
            Piece::End { end } => {
                if end.thread == self.feeder.thread() {
                    self.waiting = Waiting::ThreadEnd;
                    self.has_ended = true;
                }
            }
        }
        Ok(())
    }

    // Reads the next piece, if it is whole. Tells whether it is.
    #[tactic(auto, using(crate::proofs::Fed::feeds_one, crate::proofs::Fed::feeds_same, crate::proofs::Fed::fewer))]
    fn read_next(&mut self, alloc: Global, wanted: &Head) -> Result<bool, FeedFault>
        requires nothing { waiting_items self.old.waiting ≡ [] }
        requires reads { (self.old.is_other ≡ false) × (self.old.is_over ≡ false) }
        ensures feeds { Feeds wanted.now [] self.old self.new }
        ensures over { self.new.is_over ≡ false }
        ensures whole { result ≡ Ok true → (self.new.is_other ≡ false) × (length (unread_of self.new.reader).bytes < length (unread_of self.old.reader).bytes) }
        ensures cut { result ≡ Ok false → (self.new.is_other ≡ false) × (waiting_items self.new.waiting ≡ []) × (piece_at (unread_of self.new.reader).threads (unread_of self.new.reader).bytes ≡ Ok None) }
        ensures fault { IfErr result (λ fault. HasFault self.new fault × (waiting_items self.new.waiting ≡ [])) }
    {
        reader_reads_what_it_is_fed();
        more_bytes_change_nothing();
        match self.reader.next(alloc) {
            Ok(Some(piece)) => {
                self.turn_to(piece, wanted)?;
                Ok(true)
            }
            Ok(None) => Ok(false),
            Err(fault) => Err(unread(fault)),
        }
    }

    // Reads what is whole, and gives the thread its part. Tells whether more bytes are wanted: else the thread has no room.
    #[tactic(auto, using(crate::proofs::Fed::feeds_on, crate::proofs::Fed::feeds_start, crate::proofs::Fed::gives_feeds))]
    fn read_on(&mut self, alloc: Global, wanted: &Head) -> Result<bool, FeedFault>
        requires reads { (self.old.is_other ≡ false) × (self.old.is_over ≡ false) }
        ensures feeds { Feeds wanted.now [] self.old self.new }
        ensures over { self.new.is_over ≡ false }
        ensures cut { result ≡ Ok true → (self.new.is_other ≡ false) × (waiting_items self.new.waiting ≡ []) × (piece_at (unread_of self.new.reader).threads (unread_of self.new.reader).bytes ≡ Ok None) }
        ensures full { result ≡ Ok false → LacksRoom self.new }
        ensures fault { IfErr result (λ fault. HasFault self.new fault × (waiting_items self.new.waiting ≡ [])) }
    {
        'pieces: while self.give_all() {
            if !self.read_next(alloc, wanted)? {
                return Ok(true);
            }
        }
        Ok(false)
    }

    // Takes the first so many of these bytes.
    fn take(&mut self, alloc: Global, bytes: &[u8], count: usize) -> Result<(), FeedFault>
        requires goes_on { self.old.is_over ≡ false }
        requires within { count ≤ length bytes.now }
        ensures feeds { OnOk result ((wanted : Head) → Feeds wanted (take count bytes.now) self.old self.new) }
        ensures behind { OnOk result (unread_of self.new.reader ≡ fed_with (take count bytes.now) (unread_of self.old.reader)) }
        ensures waiting { self.new.waiting ≡ self.old.waiting }
        ensures same { IfErr result (λ fault. (fault ≡ OutOfMemory) × ((wanted : Head) → Feeds wanted [] self.old self.new)) }
    {
        reader_reads_what_it_is_fed();
        let (front, _) = bytes.split_at(count);
        match self.reader.feed(alloc, front) {
            Ok(()) => Ok(()),
            Err(_) => Err(FeedFault::OutOfMemory),
        }
    }

    /// Takes the next bytes of the file, at most 32,768 of them, once the thread was given what those before have of it.
    /// Tells how many it took: none where the thread has no room. The head that the file has to begin with is `wanted`.
    /// After an error none is taken; a refusal comes again.
    #[tactic(auto, using(crate::proofs::Fed::feeds_on, crate::proofs::Fed::feeds_start))]
    pub fn feed(&mut self, alloc: Global, wanted: &Head, bytes: &[u8]) -> Result<usize, FeedFault>
        ensures feeds { Feeds wanted.now (taken bytes.now result) self.old self.new }
        ensures took { IfOk result (λ count. HasTaken bytes.now count self.new) }
        ensures fault { IfErr result (HasFault self.new) }
    {
        if self.is_over {
            return Err(FeedFault::Over);
        }
        if self.is_other {
            return Err(FeedFault::OtherRun);
        }
        if !self.read_on(alloc, wanted)? {
            return Ok(0);
        }
        let count = bytes.len().min(MAX_TAKEN);
        match self.take(alloc, bytes, count) {
            Ok(()) => Ok(count),
            Err(fault) => Err(fault),
        }
    }

    // Nothing more is read. A thread that has no end is told so.
    #[tactic(auto, using(crate::proofs::Fed::stop_ended, crate::proofs::Fed::stop_breaks))]
    fn stop(&mut self)
        requires nothing { waiting_items self.old.waiting ≡ [] }
        requires reads { self.old.is_over ≡ false }
        requires no_next { self.old.is_other ≡ false → HasNoNext (unread_of self.old.reader) }
        ensures feeds { (wanted : Head) → Feeds wanted [] self.old self.new }
        ensures over { self.new.is_over ≡ true }
        ensures reader { (self.new.reader ≡ self.old.reader) × (self.new.is_other ≡ self.old.is_other) }
    {
        self.is_over = true;
        if self.has_ended {
            return;
        }
        self.waiting = Waiting::BreaksOff;
    }

    // Reads what is left, and then nothing more. Tells whether that is so: else the thread has no room.
    #[tactic(auto, using(crate::proofs::Fed::feeds_on, crate::proofs::Fed::feeds_start, crate::proofs::Fed::gives_feeds))]
    fn close(&mut self, alloc: Global, wanted: &Head) -> Result<bool, FeedFault>
        ensures feeds { Feeds wanted.now [] self.old self.new }
        ensures over { result ≡ Ok true → self.new.is_over ≡ true }
        ensures full { result ≡ Ok false → LacksRoom self.new }
        ensures fault { IfErr result (λ fault. HasFault self.new fault × (fault ≢ OutOfMemory → self.new.is_over ≡ true)) }
    {
        if self.is_over {
            return Ok(true);
        }
        if self.is_other {
            if !self.give_all() {
                return Ok(false);
            }
            self.stop();
            return Ok(true);
        }
        match self.read_on(alloc, wanted) {
            Ok(true) => {
                self.stop();
                Ok(true)
            }
            Ok(false) => Ok(false),
            Err(FeedFault::OutOfMemory) => Err(FeedFault::OutOfMemory),
            Err(fault) => {
                self.stop();
                Err(fault)
            }
        }
    }

    /// The file has no more. The thread is given what is left, and is told that its recording breaks off, unless it has the
    /// thread's end. Tells whether it was given all: else it has no room. Where the file is refused this is told once, and
    /// the thread's recording breaks off there.
    #[tactic(auto, using(crate::proofs::Fed::feeds_on, crate::proofs::Fed::gives_feeds))]
    pub fn end(&mut self, alloc: Global, wanted: &Head) -> Result<bool, FeedFault>
        ensures feeds { Feeds wanted.now [] self.old self.new }
        ensures all { result ≡ Ok true → (self.new.is_over ≡ true) × (waiting_items self.new.waiting ≡ []) }
        ensures full { result ≡ Ok false → LacksRoom self.new }
        ensures fault { IfErr result (λ fault. HasFault self.new fault × (fault ≢ OutOfMemory → self.new.is_over ≡ true)) }
    {
        if !self.close(alloc, wanted)? {
            return Ok(false);
        }
        Ok(self.give_all())
    }
}
