//! The stream by which a thread that is made again is fed.
ghost use Rattle.std.specs.Prelude.{◌≡◌, ◌≢◌, [], Ok, true, false, IfOk, IfErr};
ghost use Rattle.std.specs.Arc.{arc_value};
ghost use Rattle.octet_blocks.specs.Reading.{waiting_items, Feeds, taken, HasTaken, HasFault, LacksRoom};
ghost use Rattle.octet_blocks.specs.declared.fault.FeedFault.TheVariants.{OutOfMemory};
ghost use Rattle.octet_host_long.specs.Opened.{IsInlet};
ghost use Rattle.octet_host_long.specs.Streams.{head_of};

use octet_blocks::{BlockReader, FeedFault};
use octet_marks::Head;
use octet_stream::Feeder;
use std::alloc::Global;
use std::sync::Arc;

/// The stream by which a thread that is made again is fed a marks file, with the head that the file has to begin with. It
/// may be used beside its thread.
#[derive(Drop)]
pub struct Inlet {
    pub(crate) head: Arc<Head, Global>,
    pub(crate) reader: BlockReader,
}

impl Inlet {
    pub(crate) fn new(alloc: Global, head: Arc<Head, Global>, feeder: Feeder) -> Inlet
        ensures head { result.head ≡ head }
        ensures feeder { result.reader.feeder ≡ feeder }
        ensures nothing { IsInlet (arc_value head) result }
    {
        Inlet {
            head,
            reader: BlockReader::new(alloc, feeder),
        }
    }

    /// Gives the thread what the bytes before have of it, and takes the next bytes of the file. Tells how many it took:
    /// none where the thread has no room.
    pub fn feed(&mut self, alloc: Global, bytes: &[u8]) -> Result<usize, FeedFault>
        ensures head { self.new.head ≡ self.old.head }
        ensures feeds { Feeds (head_of self.old) (taken bytes.now result) self.old.reader self.new.reader }
        ensures took { IfOk result (λ count. HasTaken bytes.now count self.new.reader) }
        ensures fault { IfErr result (HasFault self.new.reader) }
    {
        self.reader.feed(alloc, &self.head, bytes)
    }

    /// The file has no more. Tells whether the thread was given all that it has: else the thread has no room.
    pub fn end(&mut self, alloc: Global) -> Result<bool, FeedFault>
        ensures head { self.new.head ≡ self.old.head }
        ensures feeds { Feeds (head_of self.old) [] self.old.reader self.new.reader }
        ensures all { result ≡ Ok true → (self.new.reader.is_over ≡ true) × (waiting_items self.new.reader.waiting ≡ []) }
        ensures full { result ≡ Ok false → LacksRoom self.new.reader }
        ensures fault { IfErr result (λ fault. HasFault self.new.reader fault × (fault ≢ OutOfMemory → self.new.reader.is_over ≡ true)) }
    {
        self.reader.end(alloc, &self.head)
    }
}
