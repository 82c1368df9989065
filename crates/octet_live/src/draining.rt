//! What feeds send is taken and added to a file, while the threads run.
ghost use Rattle.std.specs.Prelude.{◌≡◌, ◌<◌, ◌≤◌, ◌++◌, length, slice_set, IsSome};
ghost use Rattle.octet_model.specs.declared.limits.TheConstants.{MAX_THREADS};
ghost use Rattle.octet_ring.specs.Views.{received_of, known_of};
ghost use Rattle.octet_live.specs.declared.drainer.TheConstants.{PIECE};
ghost use Rattle.octet_live.specs.Drained.{threads_of, DrainsOne, Drains};

use crate::bells::Bells;
use crate::drainer::{Drainer, PIECE};
use crate::pieces::add_piece;
use crate::tuning::{DRAINER_REST, PIECES_IN_A_ROW, RESTS_BEFORE_START};
use octet_base::Desk;
use std::sync::Wait;
use std::time::Duration;

impl Drainer {
    // Takes marks of a thread, as many as a piece may have.
    fn take_piece(&mut self, thread: u8)
        requires { thread < length self.old.drain.received }
        ensures few { length self.new.marks.items ≤ PIECE }
        ensures rings { self.new.drain.rings ≡ self.old.drain.rings }
        ensures received { self.new.drain.received ≡ slice_set self.old.drain.received thread (received_of self.old.drain thread ++ self.new.marks.items) }
        ensures some { 0 < known_of self.old.drain thread → 0 < length self.new.marks.items }
        ensures kept { self.new.kept ≡ self.old.kept }
    {
        self.marks.clear();
        for _ in 0..PIECE {
            match self.drain.take(thread) {
                Some(mark) => self.marks.push_reserved(mark),
                None => return,
            }
        }
    }

    /// Adds what a thread has sent.
    pub(crate) fn add_sent<D: Desk>(&mut self, desk: &mut D, thread: u8)
        requires begun { IsSome (D.state desk.old).begun }
        requires thread { thread < length self.old.drain.received }
        requires few { length self.old.drain.received ≤ MAX_THREADS }
        ensures drains { DrainsOne thread self.old.kept self.old.drain (D.state desk.old) self.new.kept self.new.drain (D.state desk.new) }
        ensures begun { (D.state desk.new).begun ≡ (D.state desk.old).begun }
    {
        for _ in 0..PIECES_IN_A_ROW {
            if self.kept.is_some() {
                return;
            }
            self.take_piece(thread);
            if self.marks.is_empty() {
                return;
            }
            self.kept = add_piece(self.alloc, desk, thread, self.marks.as_slice());
        }
    }

    // Adds what the threads have sent, of each in turn.
    fn add_round<D: Desk>(&mut self, desk: &mut D, threads: u8)
        requires begun { IsSome (D.state desk.old).begun }
        requires threads { (threads ≡ threads_of self.old) × (threads ≤ MAX_THREADS) }
        ensures drains { Drains threads self.old (D.state desk.old) self.new (D.state desk.new) }
        ensures begun { (D.state desk.new).begun ≡ (D.state desk.old).begun }
    {
        for thread in 0..threads {
            self.add_sent(desk, thread);
        }
    }

    /// Adds what so many threads send, piece by piece, until all have rung that they end or a piece is
    /// refused, or where none rings that it begins in a while: it may be that no thread can be made, and
    /// that they begin once this returns. May wait.
    pub fn drain_all<R: Wait, D: Desk>(&mut self, rt: &R, desk: &mut D, threads: u8, bells: &Bells)
        requires begun { IsSome (D.state desk.old).begun }
        requires threads { (threads ≡ threads_of self.old) × (threads ≤ MAX_THREADS) }
        ensures drains { Drains threads self.old (D.state desk.old) self.new (D.state desk.new) }
        ensures begun { (D.state desk.new).begun ≡ (D.state desk.old).begun }
    {
        let time = Duration::from_micros(u64::from(DRAINER_REST));
        let mut rests = 0;
        for _ in rt.forever() {
            let ended = bells.ended.count();
            let is_last = ended >= u32::from(threads) || rests >= RESTS_BEFORE_START;
            self.add_round(desk, threads);
            if is_last || self.kept.is_some() {
                return;
            }
            if bells.begun.count() == 0 {
                rests += 1;
            }
            bells.ended.wait(rt, ended, time);
        }
        unreachable!()
    }
}
