//! The stream that gives what a recorded thread hands on.
ghost use Rattle.std.specs.Prelude.{◌≡◌, ◌≢◌, []};
ghost use Rattle.octet_host_long.specs.Opened.{IsOutlet};
ghost use Rattle.octet_host_long.specs.Streams.{PassesWhole, TakesFrom};

use octet_blocks::{BlockWriter, GatherFault, Gathered};
use octet_host::copy_out;
use octet_stream::Receiver;
use std::alloc::Global;

/// What comes of a stream.
#[derive(Clone, Copy, Debug, PartialEq, Eq)]
pub enum Taken {
    /// So many bytes of a block, or of the thread's end, were copied.
    Copied { length: usize },
    /// There is room for fewer bytes than these. Nothing was taken.
    NoRoom { length: usize },
    /// Nothing is whole yet, and the thread has handed on no more.
    Waits,
    /// The thread has ended, and all its bytes were taken.
    Ended,
}

/// The stream that gives what a recorded thread hands on, block by block. It may be used beside its thread.
#[derive(Drop)]
pub struct Outlet {
    pub(crate) writer: BlockWriter,
}

impl Outlet {
    pub(crate) fn new(alloc: Global, receiver: Receiver) -> Outlet
        ensures receiver { result.writer.receiver ≡ receiver }
        ensures nothing { IsOutlet result }
    {
        Outlet {
            writer: BlockWriter::new(alloc, receiver),
        }
    }

    // Copies what is whole, if there is room for it. Then it is passed on.
    fn pass(&mut self, out: &mut [u8]) -> Taken
        requires { self.old.writer.bytes.items ≢ [] }
        ensures { PassesWhole self.old.writer out.old result out.new self.new.writer }
    {
        let length = self.writer.bytes().len();
        if length > out.len() {
            return Taken::NoRoom { length };
        }
        copy_out(self.writer.bytes(), out);
        self.writer.pass();
        Taken::Copied { length }
    }

    /// Copies the next block of the thread, or its end, once it is whole and there is room for all of it.
    pub fn take(&mut self, alloc: Global, out: &mut [u8]) -> Result<Taken, GatherFault>
        ensures { TakesFrom self.old out.old result out.new self.new }
    {
        match self.writer.gather(alloc) {
            Ok(Gathered::Whole) => Ok(self.pass(out)),
            Ok(Gathered::Waits) => Ok(Taken::Waits),
            Ok(Gathered::Ended) => Ok(Taken::Ended),
            Err(fault) => Err(fault),
        }
    }
}
