//! What a thread hands on, gathered into blocks of a marks file.
ghost use Rattle.std.specs.Prelude.{◌≡◌, ◌≢◌, ◌≤◌, ◌+◌, [], length, vec_len, true, false, Some, Ok, Err, IfOk, OnOk, IfNone};
ghost use Rattle.rtrb.specs.Ring.{received};
ghost use Rattle.octet_marks.specs.declared.limits.TheConstants.{MAX_BLOCK_MARKS};
ghost use Rattle.octet_blocks.specs.declared.fault.GatherFault.TheVariants.{Broken};
ghost use Rattle.octet_stream.specs.declared.item.Item.TheVariants.{Marked, BlockEnd, ThreadEnd};

use crate::fault::GatherFault;
use crate::sums::gaps_of;
use octet_marks::{End, MAX_BLOCK_MARKS, block, end};
use octet_model::Gapped;
use octet_stream::{Item, Receiver};
use std::alloc::Global;

/// What has come of a thread.
#[derive(Clone, Copy, Debug, PartialEq, Eq)]
pub enum Gathered {
    /// A block is whole, or the thread's end: its bytes are there.
    Whole,
    /// Nothing is whole yet, and the thread has handed on no more.
    Waits,
    /// The thread has ended, and all its bytes were passed on.
    Ended,
}

/// Gathers what one thread hands on into blocks of a marks file. One block is there at a time, until it is passed on.
#[derive(Drop)]
pub struct BlockWriter {
    pub(crate) receiver: Receiver,
    // The marks of the block that is not whole yet.
    pub(crate) marks: Vec<Gapped>,
    // What has come and is not noted yet.
    pub(crate) held: Option<Item>,
    // How many events its whole blocks have.
    pub(crate) events: u64,
    pub(crate) has_ended: bool,
    // The bytes of a block, or of the thread's end, that were not passed on.
    pub(crate) bytes: Vec<u8>,
    ghost few: { vec_len marks ≤ MAX_BLOCK_MARKS },
}

impl BlockWriter {
    ghost use Rattle.octet_blocks.specs.Writing.{HasWritten, KeepsBlock, Gathers, PassesOn, TakesKnown, IsGathered, FitsNoBlock, known_of};

    /// Of a thread of which nothing has come.
    pub fn new(alloc: Global, receiver: Receiver) -> BlockWriter
        ensures receiver { result.receiver ≡ receiver }
        ensures nothing { received receiver.end ≡ [] → HasWritten result [] [] }
    {
        BlockWriter {
            receiver,
            marks: Vec::new(alloc),
            held: None,
            events: 0,
            has_ended: false,
            bytes: Vec::new(alloc),
        }
    }

    /// The number of the thread.
    pub fn thread(&self) -> u8
        ensures { result ≡ self.now.receiver.thread }
    {
        self.receiver.thread()
    }

    /// The bytes of the block that is whole, or of the thread's end; none, where nothing is whole.
    pub fn bytes(&self) -> &[u8]
        ensures { result.now ≡ self.now.bytes.items }
    {
        self.bytes.as_slice()
    }

    /// The bytes that were there were written, and are there no more.
    pub fn pass(&mut self)
        ensures passes { PassesOn self.old self.new }
        ensures none { self.new.bytes.items ≡ [] }
    {
        self.bytes.clear();
    }

    // What has come next, if something has.
    #[tactic(auto, using(crate::proofs::Written::gathers_taken, crate::proofs::Written::gathers_none))]
    fn hold(&mut self) -> Option<Item>
        ensures item { result ≡ self.new.held }
        ensures gathers { Gathers self.old self.new }
        ensures keeps { KeepsBlock self.old self.new }
        ensures known { known_of self.old ≤ known_of self.new }
        ensures none { IfNone result (known_of self.old ≤ length (received self.new.receiver.end)) }
    {
        match self.held {
            Some(item) => Some(item),
            None => {
                self.held = self.receiver.take();
                self.held
            }
        }
    }

    // A mark of the block has come.
    fn note(&mut self, mark: Gapped) -> Result<(), GatherFault>
        requires { self.old.held ≡ Some (Marked mark) }
        ensures receiver { self.new.receiver ≡ self.old.receiver }
        ensures gathers { Gathers self.old self.new }
        ensures more { OnOk result (length self.new.marks.items ≡ length self.old.marks.items + 1) }
        ensures same { (self.new.bytes ≡ self.old.bytes) × (self.new.has_ended ≡ self.old.has_ended) }
        ensures broken { result ≡ Err Broken → FitsNoBlock self.new self.new.held }
    {
        if self.marks.len() >= MAX_BLOCK_MARKS {
            return Err(GatherFault::Broken);
        }
        if self.marks.push(mark).is_err() {
            return Err(GatherFault::OutOfMemory);
        }
        self.held = None;
        Ok(())
    }

    // The block is whole.
    #[tactic(auto, using(crate::proofs::Written::gathers_block, crate::proofs::Written::gathers_none))]
    fn add_block(&mut self, alloc: Global, gap: u32, digest: u64) -> Result<(), GatherFault>
        requires held { self.old.held ≡ Some (BlockEnd gap digest) }
        requires none { self.old.bytes.items ≡ [] }
        requires goes_on { self.old.has_ended ≡ false }
        ensures receiver { self.new.receiver ≡ self.old.receiver }
        ensures gathers { Gathers self.old self.new }
        ensures whole { OnOk result (self.new.bytes.items ≢ []) }
        ensures broken { result ≡ Err Broken → FitsNoBlock self.new self.new.held }
    {
        let marks = self.marks.as_slice();
        let count = gaps_of(marks) + u64::from(gap) + marks.len() as u64;
        let Some(events) = self.events.checked_add(count) else {
            return Err(GatherFault::Broken);
        };
        let thread = self.receiver.thread();
        self.bytes = block(alloc, thread, self.events, marks, gap, digest)?;
        self.events = events;
        self.marks.clear();
        self.held = None;
        Ok(())
    }

    // The thread has ended.
    #[tactic(auto, using(crate::proofs::Written::gathers_end, crate::proofs::Written::gathers_none))]
    fn add_end(&mut self, alloc: Global) -> Result<(), GatherFault>
        requires held { self.old.held ≡ Some ThreadEnd }
        requires none { self.old.bytes.items ≡ [] }
        requires goes_on { self.old.has_ended ≡ false }
        ensures receiver { self.new.receiver ≡ self.old.receiver }
        ensures gathers { Gathers self.old self.new }
        ensures whole { OnOk result (self.new.bytes.items ≢ []) }
        ensures broken { result ≡ Err Broken → FitsNoBlock self.new self.new.held }
    {
        if !self.marks.is_empty() {
            return Err(GatherFault::Broken);
        }
        let last = End {
            thread: self.receiver.thread(),
            events: self.events,
        };
        self.bytes = end(alloc, last)?;
        self.has_ended = true;
        self.held = None;
        Ok(())
    }

    // What has come is noted. Tells whether something is whole by it.
    fn put(&mut self, alloc: Global, item: Item) -> Result<bool, GatherFault>
        requires held { self.old.held ≡ Some item }
        requires none { self.old.bytes.items ≡ [] }
        requires goes_on { self.old.has_ended ≡ false }
        ensures receiver { self.new.receiver ≡ self.old.receiver }
        ensures gathers { Gathers self.old self.new }
        ensures whole { result ≡ Ok true → self.new.bytes.items ≢ [] }
        ensures noted { result ≡ Ok false → (self.new.bytes.items ≡ []) × (self.new.has_ended ≡ false) × (length self.new.marks.items ≡ length self.old.marks.items + 1) }
        ensures broken { result ≡ Err Broken → FitsNoBlock self.new self.new.held }
    {
        match item {
            Item::Marked { mark } => {
                self.note(mark)?;
                Ok(false)
            }
            Item::BlockEnd { gap, digest } => {
                self.add_block(alloc, gap, digest)?;
                Ok(true)
            }
            Item::ThreadEnd => {
                self.add_end(alloc)?;
                Ok(true)
            }
            Item::BreaksOff => Err(GatherFault::Broken),
        }
    }

    /// Takes what the thread has handed on, up to the end of a block, and does not wait. After an error nothing is lost.
    #[tactic(auto, using(crate::proofs::Written::gathers_on, crate::proofs::Written::gathers_none))]
    pub fn gather(&mut self, alloc: Global) -> Result<Gathered, GatherFault>
        ensures gathers { Gathers self.old self.new }
        ensures gathered { IfOk result (λ gathered. IsGathered self.old gathered self.new) }
        ensures broken { result ≡ Err Broken → FitsNoBlock self.new self.new.held }
    {
        if !self.bytes.is_empty() {
            return Ok(Gathered::Whole);
        }
        if self.has_ended {
            return Ok(Gathered::Ended);
        }
        while let Some(item) = self.hold() {
            if self.put(alloc, item)? {
                return Ok(Gathered::Whole);
            }
        }
        Ok(Gathered::Waits)
    }
}
