//! What a thread asks of its recording. No call takes memory, and none waits.
ghost use Rattle.std.specs.Prelude.{◌≡◌, Some, None, IfOk, IfErr, OnOk};
ghost use Rattle.octet_model.specs.Journals.{access_count};
ghost use Rattle.octet_rerun.specs.Reruns.{made_by, next_recorded, recorded_of, IsFollowerOf, Holds, Halts, MakesMarks, Makes, IsNoMark, DiffersFrom};

use crate::events::{event_of, found_in};
use crate::follower::Follower;
use crate::halt::{Divergence, Halt, Hold};
use crate::rerun::Rerun;
use octet_model::Event;
use octet_recorder::Access;

impl Rerun {
    // A thread that would wait is told where another one has diverged.
    fn halt_of(&self, follower: &Follower, wanted: Option<Access>, hold: Hold) -> Halt
        requires holds { Holds self.now follower.now hold }
        ensures { Halts wanted self.now follower.now result }
    {
        match hold {
            Hold::Amiss => Halt::Amiss,
            Hold::Waits { whom, needs, found } => match self.diverged.get() {
                Some(divergence) => Halt::Stopped { divergence },
                None => Halt::Waits { whom, needs, found },
            },
        }
    }

    // The thread leaves its recording. The first one that does is told to those that would wait.
    fn diverge(&self, follower: &Follower, wanted: Option<Access>, recorded: Option<Event>) -> Halt
        requires own { IsFollowerOf self.now follower.now }
        requires next { recorded ≡ next_recorded self.now follower.now }
        requires no_mark { IsNoMark recorded }
        requires differs { DiffersFrom wanted recorded }
        ensures { Halts wanted self.now follower.now result }
    {
        let divergence = Divergence {
            thread: follower.thread,
            accesses: follower.accesses,
            wanted,
            recorded,
        };
        self.diverged.note(divergence);
        Halt::Diverges { divergence }
    }

    /// Asks for an access: makes the marks that were recorded before it, and then the access, if it was
    /// recorded there. Answers the value that a read found or a write wrote, or that an update found. An
    /// update is compared by the value that it makes of the one that was recorded before it.
    pub fn ask(&self, follower: &mut Follower, access: Access) -> Result<u64, Halt>
        requires own { IsFollowerOf self.now follower.old }
        ensures own { IsFollowerOf self.now follower.new }
        ensures thread { follower.new.thread ≡ follower.old.thread }
        ensures made { IfOk result (λ value. Makes access follower.old value follower.new) }
        ensures marks { IfErr result (λ _. MakesMarks follower.old follower.new) }
        ensures halts { IfErr result (Halts (Some access) self.now follower.new) }
    {
        let recorded = match self.make_marks(follower) {
            Ok(recorded) => recorded,
            Err(hold) => return Err(self.halt_of(follower, Some(access), hold)),
        };
        let Some(event) = recorded else {
            return Err(self.diverge(follower, Some(access), None));
        };
        if event != event_of(access, found_in(event)) {
            return Err(self.diverge(follower, Some(access), Some(event)));
        }
        match self.make(follower, event) {
            None => Ok(found_in(event)),
            Some(hold) => Err(self.halt_of(follower, Some(access), hold)),
        }
    }

    /// Ends the thread: makes the marks that are left. Refused where an access is left.
    pub fn finish(&self, follower: &mut Follower) -> Result<(), Halt>
        requires own { IsFollowerOf self.now follower.old }
        ensures own { IsFollowerOf self.now follower.new }
        ensures thread { follower.new.thread ≡ follower.old.thread }
        ensures marks { MakesMarks follower.old follower.new }
        ensures all { OnOk result (made_by follower.new ≡ recorded_of self.now follower.new.thread) }
        ensures halts { IfErr result (Halts None self.now follower.new) }
    {
        match self.make_marks(follower) {
            Ok(None) => Ok(()),
            Ok(Some(event)) => Err(self.diverge(follower, None, Some(event))),
            Err(hold) => Err(self.halt_of(follower, None, hold)),
        }
    }
}

impl Follower {
    /// The number of its thread.
    pub fn thread(&self) -> u8
        ensures { result ≡ self.now.thread }
    {
        self.thread
    }

    /// How many accesses it has made.
    pub fn accesses(&self) -> u32
        ensures { result ≡ self.now.accesses }
    {
        self.accesses
    }
}
