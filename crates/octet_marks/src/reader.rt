//! A reader that is fed a file piece by piece.
ghost use Rattle.std.specs.Prelude.{◌≡◌, ◌≤◌, OnErr, OnOk, vec_len};
ghost use Rattle.std.specs.List.{list_all};

use crate::cause::ReadFault;
use crate::reading::read_next;
use crate::{MarksFault, Piece, Progress};
use octet_model::OutOfMemory;
use std::alloc::Global;

/// How a file ends.
#[derive(Clone, Copy, Debug, PartialEq, Eq)]
pub enum Ending {
    /// All its threads have ended.
    Whole,
    /// It ends before that. So many bytes at its end, from this place on, are no whole block.
    Cut { at: u64, left: usize },
}

/// Reads a marks file that it is fed piece by piece, from the front. It keeps what was fed and not read yet.
#[derive(Drop)]
pub struct Reader {
    // What was fed, of which the first bytes have been read.
    left: Vec<u8>,
    taken: usize,
    // The place in the file behind these.
    place: u64,
    // How far each thread is; none, before the head was read.
    threads: Vec<Progress>,
    ghost within: { taken ≤ vec_len left },
}

fn have_ended(threads: &[Progress]) -> bool
    ensures { result ≡ list_all (λ progress. progress.ended) threads.now }
{
    for progress in threads {
        if !progress.ended {
            return false;
        }
    }
    true
}

impl Reader {
    ghost use Rattle.octet_marks.specs.Files.{unread_of, unfed, fed_with, Answers, ending_of};

    /// A reader that was fed nothing.
    pub fn new(alloc: Global) -> Reader
        ensures { unread_of result ≡ unfed }
    {
        Reader {
            left: Vec::new(alloc),
            taken: 0,
            place: 0,
            threads: Vec::new(alloc),
        }
    }

    /// Adds the next bytes of the file. Room is taken for these and for what was not read yet, and for no more.
    pub fn feed(&mut self, alloc: Global, bytes: &[u8]) -> Result<(), OutOfMemory>
        ensures ok { OnOk result (unread_of self.new ≡ fed_with bytes.now (unread_of self.old)) }
        ensures err { OnErr result (unread_of self.new ≡ unread_of self.old) }
    {
        let (_, unread) = self.left.as_slice().split_at(self.taken);
        let mut left = Vec::with_capacity(alloc, unread.len() + bytes.len())?;
        left.extend_from_slice(unread)?;
        left.extend_from_slice(bytes)?;
        self.left = left;
        self.taken = 0;
        Ok(())
    }

    /// Reads the next piece: first the head, then blocks and ends. None, if it is not whole yet: more bytes may be
    /// fed. A fault has the place at which the piece begins. After it the reader stands where it stood.
    pub fn next(&mut self, alloc: Global) -> Result<Option<Piece>, MarksFault>
        ensures { Answers (unread_of self.old) (unread_of self.new) result }
    {
        let (_, unread) = self.left.as_slice().split_at(self.taken);
        match read_next(alloc, &mut self.threads, unread) {
            Ok(Some((piece, size))) => {
                self.taken += size;
                self.place = self.place.saturating_add(size as u64);
                Ok(Some(piece))
            }
            Ok(None) => Ok(None),
            Err(ReadFault::Refused { cause }) => Err(MarksFault::Refused {
                cause,
                at: self.place,
            }),
            Err(ReadFault::OutOfMemory) => Err(MarksFault::OutOfMemory),
        }
    }

    /// How far each thread is by what was read; none, before the head was read.
    pub fn threads(&self) -> &[Progress]
        ensures { result.now ≡ (unread_of self.now).threads }
    {
        self.threads.as_slice()
    }

    /// How the file ends, if no more bytes come.
    pub fn ending(&self) -> Ending
        ensures { result ≡ ending_of (unread_of self.now) }
    {
        let left = self.left.len() - self.taken;
        if !self.threads.is_empty() && have_ended(self.threads.as_slice()) && left == 0 {
            return Ending::Whole;
        }
        Ending::Cut {
            at: self.place,
            left,
        }
    }
}
