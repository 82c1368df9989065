//! Marks of one thread, added to a file in pieces.
ghost use Rattle.std.specs.Prelude.{◌≡◌, ◌<◌, ◌≤◌, ◌∷◌, [], length, IsSome, None};
ghost use Rattle.octet_model.specs.declared.limits.TheConstants.{MAX_THREADS};
ghost use Rattle.octet_live.specs.declared.drainer.TheConstants.{PIECE};
ghost use Rattle.octet_live.specs.Written.{AddsPieces};
ghost use Rattle.octet_live.specs.Drained.{AddsFront};

use crate::drainer::PIECE;
use octet_base::{Desk, DeskFault};
use octet_log::piece;
use octet_model::Gapped;
use std::alloc::Global;

/// Adds some marks of a thread as a piece. Answers why not, where it is refused.
pub(crate) fn add_piece<D: Desk>(
    alloc: Global,
    desk: &mut D,
    thread: u8,
    marks: &[Gapped],
) -> Option<DeskFault>
    requires begun { IsSome (D.state desk.old).begun }
    requires thread { thread < MAX_THREADS }
    requires marks { (1 ≤ length marks.now) × (length marks.now ≤ PIECE) }
    ensures added { AddsPieces (record { thread = thread; marks = marks.now } ∷ []) (D.state desk.old) result (D.state desk.new) }
    ensures begun { (D.state desk.new).begun ≡ (D.state desk.old).begun }
{
    let Ok(bytes) = piece(alloc, thread, marks) else {
        return Some(DeskFault::OutOfMemory);
    };
    desk.add(alloc, bytes.as_slice()).err()
}

/// Adds marks of a thread, in pieces.
pub(crate) fn add_marks<D: Desk>(
    alloc: Global,
    desk: &mut D,
    thread: u8,
    marks: &[Gapped],
) -> Option<DeskFault>
    requires begun { IsSome (D.state desk.old).begun }
    requires thread { thread < MAX_THREADS }
    ensures added { AddsFront thread marks.now None (D.state desk.old) result (D.state desk.new) }
    ensures begun { (D.state desk.new).begun ≡ (D.state desk.old).begun }
{
    let mut left = marks;
    while !left.is_empty() {
        let (first, after) = left.split_at(PIECE.min(left.len()));
        match add_piece(alloc, desk, thread, first) {
            None => left = after,
            Some(fault) => return Some(fault),
        }
    }
    None
}
