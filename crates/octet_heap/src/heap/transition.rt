//! From a state that does not let the thread pass to one that does: the fence, the exchanges of the state,
//! and what comes after them.
ghost use Rattle.std.specs.Prelude.{◌≡◌, Some, ℕ, None, ◌<◌, ◌≤◌, true, false};
ghost use Rattle.octet_state.specs.declared.act.Act.TheVariants.{Raise as RaiseIt, Share as ShareIt, Take as TakeIt};
ghost use Rattle.octet_state.specs.declared.act.Mode.TheVariants.{Read as ForRead};
ghost use Rattle.octet_state.specs.declared.phase.Phase.TheVariants.{Want, Pass, FenceDue, Sharing, Claimed};
ghost use Rattle.octet_state.specs.Words.{packed_state};
ghost use Rattle.octet_state.specs.declared.why.Why.TheVariants.{Changed, Unanswered as NoAnswer};
ghost use Rattle.octet_state.specs.declared.phase.Due.TheVariants.{Nothing};
ghost use Rattle.octet_state.specs.Asking.{whom_to_ask, number_to_ask};
ghost use Rattle.octet_state.specs.Positions.{NamesThread};
ghost use Rattle.octet_rule.specs.Seats.{view};
ghost use Rattle.octet_heap.specs.declared.way.Way.TheVariants.{Waits, Passes};
ghost use Rattle.octet_heap.specs.Recorders.{CanAccess, KeepsSeat};
ghost use Rattle.octet_heap.specs.Waiting.{StandsIn, Says, Settles};
ghost use Rattle.octet_heap.specs.Ways.{ComesTo, StandsAt};

use crate::heap::Heap;
use crate::pending_access::PendingAccess;
use crate::recorder::Recorder;
use crate::way::Way;
use octet_rule::Tried;
use octet_safe::Reply;
use octet_state::{StateWord, Whom, Why};

// The state is another one than was loaded.
fn waits_changed(seen: u64, found: u64) -> Way
    ensures { result ≡ Waits (Changed seen found) }
{
    Way::Waits {
        why: Why::Changed { seen, found },
    }
}

// A thread has not answered.
fn waits_unanswered(by: u8, word: u64) -> Way
    ensures { result ≡ Waits (NoAnswer by word) }
{
    Way::Waits {
        why: Why::Unanswered { by, word },
    }
}

impl Heap {
    // Fences before a read.
    pub(crate) fn fence(&self, recorder: &mut Recorder, access: PendingAccess)
        requires can { CanAccess self.now access recorder.old }
        requires mode { ForRead ≡ access.mode }
        requires stands { (number : ℕ) × StandsIn (FenceDue access.object number) (view recorder.old.seat) }
        ensures keeps { KeepsSeat self.now.words recorder.old.log.accesses recorder.old recorder.new }
        ensures comes { ComesTo access (view recorder.old.seat) Passes 2 (view recorder.new.seat) }
        ensures stands { StandsIn (Pass access.object access.mode) (view recorder.new.seat) }
    {
        recorder.fence(&self.words);
    }

    // Makes its read-exclusive object write-exclusive.
    pub(crate) fn raise(
        &self,
        recorder: &mut Recorder,
        access: PendingAccess,
        state: StateWord,
        seen: u64,
    ) -> Way
        requires can { CanAccess self.now access recorder.old }
        requires stands { StandsIn (Want access.object access.mode (Some state)) (view recorder.old.seat) }
        requires word { packed_state state ≡ seen }
        requires says { Says access state (view recorder.old.seat) RaiseIt }
        ensures keeps { KeepsSeat self.now.words recorder.old.log.accesses recorder.old recorder.new }
        ensures comes { ComesTo access (view recorder.old.seat) result 3 (view recorder.new.seat) }
        ensures stands { StandsAt access result (view recorder.new.seat) }
    {
        match self.words.raise(&mut recorder.seat, access.object, seen) {
            Tried::Won => Way::Passes,
            Tried::Lost { found } => waits_changed(seen, found),
        }
    }

    // Makes another's read-exclusive object read-shared.
    pub(crate) fn share(
        &self,
        recorder: &mut Recorder,
        access: PendingAccess,
        state: StateWord,
        seen: u64,
        from: u8,
        upto: u64,
    ) -> Way
        requires can { CanAccess self.now access recorder.old }
        requires stands { StandsIn (Want access.object access.mode (Some state)) (view recorder.old.seat) }
        requires word { packed_state state ≡ seen }
        requires mode { ForRead ≡ access.mode }
        requires says { Says access state (view recorder.old.seat) (ShareIt from upto) }
        ensures keeps { KeepsSeat self.now.words recorder.old.log.accesses recorder.old recorder.new }
        ensures comes { ComesTo access (view recorder.old.seat) result 4 (view recorder.new.seat) }
        ensures stands { StandsAt access result (view recorder.new.seat) }
    {
        match recorder.share(&self.words, access.object, seen, from, upto) {
            Tried::Won => {
                self.draw(recorder, access);
                Way::Passes
            }
            Tried::Lost { found } => waits_changed(seen, found),
        }
    }

    // Draws the number of the object that it shares.
    fn draw(&self, recorder: &mut Recorder, access: PendingAccess)
        requires can { CanAccess self.now access recorder.old }
        requires mode { ForRead ≡ access.mode }
        requires stands { StandsIn (Sharing access.object None) (view recorder.old.seat) }
        ensures keeps { KeepsSeat self.now.words recorder.old.log.accesses recorder.old recorder.new }
        ensures comes { ComesTo access (view recorder.old.seat) Passes 3 (view recorder.new.seat) }
        ensures stands { StandsIn (Pass access.object access.mode) (view recorder.new.seat) }
    {
        recorder.draw(&self.words);
        self.settle(recorder, access);
    }

    // Takes the object, and asks those that may have to give way.
    pub(crate) fn claim(
        &self,
        recorder: &mut Recorder,
        access: PendingAccess,
        state: StateWord,
        seen: u64,
        whom: Whom,
    ) -> Way
        requires can { CanAccess self.now access recorder.old }
        requires stands { StandsIn (Want access.object access.mode (Some state)) (view recorder.old.seat) }
        requires word { packed_state state ≡ seen }
        requires says { Says access state (view recorder.old.seat) (TakeIt whom) }
        ensures keeps { KeepsSeat self.now.words recorder.old.log.accesses recorder.old recorder.new }
        ensures comes { ComesTo access (view recorder.old.seat) result 18 (view recorder.new.seat) }
        ensures stands { StandsAt access result (view recorder.new.seat) }
    {
        match self
            .words
            .claim(&mut recorder.seat, access.object, &access.mode, seen)
        {
            Tried::Won => self.ask_on(recorder, access, state, 0),
            Tried::Lost { found } => waits_changed(seen, found),
        }
    }

    // Asks those that come after the first `from`, and then settles.
    fn ask_on(
        &self,
        recorder: &mut Recorder,
        access: PendingAccess,
        prior: StateWord,
        from: u8,
    ) -> Way
        requires can { CanAccess self.now access recorder.old }
        requires stands { StandsIn (Claimed access.object access.mode prior from false) (view recorder.old.seat) }
        requires named { NamesThread (view recorder.old.seat).threads prior }
        requires left { from ≤ number_to_ask (whom_to_ask prior) (view recorder.old.seat).threads }
        ensures keeps { KeepsSeat self.now.words recorder.old.log.accesses recorder.old recorder.new }
        ensures comes { ComesTo access (view recorder.old.seat) result 17 (view recorder.new.seat) }
        ensures stands { StandsAt access result (view recorder.new.seat) }
    {
        let whom = prior.whom_to_ask();
        let me = recorder.seat.thread();
        for done in from..whom.count(self.threads) {
            let next = whom.next(me, done);
            match recorder.ask(&self.words, next) {
                Reply::Given { .. } => {}
                Reply::Unanswered { word } => return waits_unanswered(next, word),
            }
        }
        self.settle(recorder, access);
        Way::Passes
    }

    // Looks at the one that was asked, and asks those that come after it.
    pub(crate) fn look_on(
        &self,
        recorder: &mut Recorder,
        access: PendingAccess,
        prior: StateWord,
        done: u8,
    ) -> Way
        requires can { CanAccess self.now access recorder.old }
        requires stands { StandsIn (Claimed access.object access.mode prior done true) (view recorder.old.seat) }
        requires named { NamesThread (view recorder.old.seat).threads prior }
        requires left { done < number_to_ask (whom_to_ask prior) (view recorder.old.seat).threads }
        ensures keeps { KeepsSeat self.now.words recorder.old.log.accesses recorder.old recorder.new }
        ensures comes { ComesTo access (view recorder.old.seat) result 18 (view recorder.new.seat) }
        ensures stands { StandsAt access result (view recorder.new.seat) }
    {
        let next = prior.whom_to_ask().next(recorder.seat.thread(), done);
        match recorder.look(&self.words, next) {
            Reply::Given { .. } => self.ask_on(recorder, access, prior, done + 1),
            Reply::Unanswered { word } => waits_unanswered(next, word),
        }
    }

    // Gives the object its state from then on.
    fn settle(&self, recorder: &mut Recorder, access: PendingAccess)
        requires can { CanAccess self.now access recorder.old }
        requires due { (view recorder.old.seat).thread.due ≡ Nothing }
        requires settles { Settles (view recorder.old.seat).threads access (view recorder.old.seat).thread.phase }
        ensures keeps { KeepsSeat self.now.words recorder.old.log.accesses recorder.old recorder.new }
        ensures comes { ComesTo access (view recorder.old.seat) Passes 2 (view recorder.new.seat) }
        ensures stands { StandsIn (Pass access.object access.mode) (view recorder.new.seat) }
    {
        self.words.settle(&mut recorder.seat, access.object);
    }
}
