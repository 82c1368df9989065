//! An access that was made is noted as lines of its thread's program.
ghost use Rattle.std.specs.Prelude.{◌≡◌, ◌+◌, ◌≤◌, ◌++◌, false, Some};
ghost use Rattle.std.specs.Vec.{vec_capacity};
ghost use Rattle.octet_recorder.specs.Programs.{region_lines};
ghost use Rattle.octet_heap.specs.Workers.{pending_after};
ghost use Rattle.octet_recorder.specs.Tracks.{access_lines, lines_of, lines_made, lines_noted, region_left, NotesFew};

use crate::access::Access;
use crate::track::{LINES_OF_ACCESS, Track};
use octet_heap::{PendingAccess, Poll};
use octet_model::Command;
use octet_state::Mode;

/// The register from which a value is written or added.
const FROM: u8 = 0;

/// The register to which a value is read.
const TO: u8 = 1;

impl Track {
    // The line of a region that begins with the next access.
    fn note_region(&mut self)
        requires room { lines_noted self.old + 1 ≤ vec_capacity self.old.commands }
        ensures lines { self.new.commands.items ≡ self.old.commands.items ++ region_lines self.old.region }
        ensures room { vec_capacity self.new.commands ≡ vec_capacity self.old.commands }
        ensures region { self.new.region ≡ false }
        ensures worker { self.new.worker ≡ self.old.worker }
        ensures begun { self.new.begun ≡ self.old.begun }
    {
        if self.region {
            self.commands.push_reserved(Command::Region);
            self.region = false;
        }
    }

    // The lines of an access.
    fn note_access(&mut self, access: PendingAccess)
        requires room { lines_noted self.old + 2 ≤ vec_capacity self.old.commands }
        ensures lines { self.new.commands.items ≡ self.old.commands.items ++ access_lines access.mode access.object access.value }
        ensures room { vec_capacity self.new.commands ≡ vec_capacity self.old.commands }
        ensures region { self.new.region ≡ self.old.region }
        ensures worker { self.new.worker ≡ self.old.worker }
        ensures begun { self.new.begun ≡ self.old.begun }
    {
        let PendingAccess {
            value,
            object,
            mode,
        } = access;
        match mode {
            Mode::Read => self
                .commands
                .push_reserved(Command::Read { to: TO, object }),
            Mode::Write => {
                self.commands.push_reserved(Command::Set {
                    to: FROM,
                    number: value,
                });
                self.commands
                    .push_reserved(Command::Write { object, from: FROM });
            }
            Mode::Update => {
                self.commands.push_reserved(Command::Set {
                    to: FROM,
                    number: value,
                });
                self.commands
                    .push_reserved(Command::Bump { object, from: FROM });
            }
        }
    }

    // Notes an access that was made, and before it the region that begins with it, if one does.
    fn note(&mut self, access: PendingAccess)
        requires room { lines_noted self.old + LINES_OF_ACCESS ≤ vec_capacity self.old.commands }
        ensures lines { self.new.commands.items ≡ self.old.commands.items ++ lines_of self.old.region access }
        ensures room { vec_capacity self.new.commands ≡ vec_capacity self.old.commands }
        ensures region { self.new.region ≡ false }
        ensures worker { self.new.worker ≡ self.old.worker }
        ensures begun { self.new.begun ≡ self.old.begun }
    {
        self.note_region();
        self.note_access(access);
    }

    /// Notes what a poll has come to of the access that is wanted: the access, once it is made, or else that
    /// it is begun.
    pub(crate) fn take_in(&mut self, answer: Poll, wanted: Access, access: PendingAccess)
        requires room { lines_noted self.old + LINES_OF_ACCESS ≤ vec_capacity self.old.commands }
        ensures begun { self.new.begun ≡ pending_after answer (Some wanted) }
        ensures lines { self.new.commands.items ≡ self.old.commands.items ++ lines_made self.old.region access answer }
        ensures region { self.new.region ≡ region_left self.old.region answer }
        ensures few { NotesFew answer (lines_noted self.old) (lines_noted self.new) }
        ensures room { vec_capacity self.new.commands ≡ vec_capacity self.old.commands }
        ensures worker { self.new.worker ≡ self.old.worker }
    {
        match answer {
            Poll::Ready { .. } => {
                self.begun = None;
                self.note(access);
            }
            Poll::Pending { .. } => self.begun = Some(wanted),
        }
    }
}
