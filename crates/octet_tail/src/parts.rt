//! What a thread makes between two fronts.
ghost use Rattle.std.specs.Prelude.{IfOk, IfErr};

use crate::fault::PartFault;
use crate::fronts::{Fronts, Span};
use crate::merging::{marks_of, notes_after};
use crate::tail::Tail;
use octet_model::{Event, List, OutOfMemory};
use octet_window::Notes;
use std::alloc::Global;

/// What a thread makes between the fronts.
#[derive(Debug, Drop)]
pub struct Part {
    pub span: Span,
    pub accesses: List<Event>,
}

impl Fronts {
    ghost use Rattle.octet_tail.specs.Parts.{AreNotes, HasLast, HasNoPart, IsPart};

    /// What a thread makes between the fronts, which has made so many accesses, the last ones of which were noted. No more than
    /// so many are wanted.
    pub fn part(
        &self,
        alloc: Global,
        thread: u8,
        made: u64,
        last: u64,
        tail: &Tail,
    ) -> Result<Part, PartFault>
        ensures part { IfOk result (IsPart self.now thread made last) }
        ensures last { IfOk result (HasLast tail.now) }
        ensures fault { IfErr result (HasNoPart self.now thread made last tail.now) }
    {
        let span = self.span(thread, made);
        if span.upto < span.from {
            return Err(PartFault::Apart);
        }
        let many = span.upto - span.from;
        if many > last || many > tail.len() as u64 {
            return Err(PartFault::Apart);
        }
        Ok(Part {
            span,
            accesses: tail.last(alloc, many as usize)?,
        })
    }

    /// The notes of a thread between the fronts.
    pub fn notes(&self, alloc: Global, thread: u8, part: &Part) -> Result<Notes, OutOfMemory>
        ensures { IfOk result (AreNotes self.now thread part.now.span part.now.accesses) }
    {
        let marks = marks_of(alloc, thread, &self.behind, self.marks.as_slice())?;
        notes_after(
            alloc,
            &self.before,
            part.span.from,
            part.accesses.as_slice(),
            marks.as_slice(),
        )
    }
}
