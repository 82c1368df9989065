//! A poll of an update by a change of the value that it finds, up to its answer, as `access` has that of an
//! access.
ghost use Rattle.std.specs.Prelude.{◌≡◌, false};
ghost use Rattle.octet_state.specs.declared.act.Mode.TheVariants.{Update as ForUpdate};
ghost use Rattle.octet_state.specs.declared.phase.Due.TheVariants.{Nothing};
ghost use Rattle.octet_state.specs.declared.phase.Phase.TheVariants.{Pass};
ghost use Rattle.octet_rule.specs.Seats.{view};
ghost use Rattle.octet_rule.specs.Views.{SeatView};
ghost use Rattle.octet_heap.specs.OwnersPath.{steps_since};
ghost use Rattle.octet_heap.specs.Recorders.{CanAccess, KeepsSeatAfter};
ghost use Rattle.octet_heap.specs.SlowPath.{passes_by};
ghost use Rattle.octet_heap.specs.Standing.{update_of};
ghost use Rattle.octet_heap.specs.Updates.{answer_after, ComesBy, FinishesBy, EndsWith};
ghost use Rattle.octet_heap.specs.Waiting.{StandsIn, HasBegun, IsToLoad, Leaves};
ghost use Rattle.octet_heap.specs.Ways.{HasLoaded, StandsAt};

use crate::heap::Heap;
use crate::heap::access::claim_in;
use crate::pending_access::PendingAccess;
use crate::recorder::Recorder;
use crate::updated::Updated;
use crate::way::Way;
use octet_rule::{Change, Entered};
use octet_state::{Act, Mode, StateWord, Why};

impl Heap {
    // From where the thread stands, as `go_on`.
    pub(crate) fn go_on_to_change(
        &self,
        recorder: &mut Recorder,
        object: u16,
        change: Change,
    ) -> Updated
        requires can { CanAccess self.now (update_of object) recorder.old }
        requires due { (view recorder.old.seat).thread.due ≡ Nothing }
        requires begun { HasBegun (view recorder.old.seat).threads (update_of object) (view recorder.old.seat).thread.phase }
        ensures keeps { KeepsSeatAfter self.now.words (answer_after change result) recorder.old recorder.new }
        ensures comes { ComesBy change object (view recorder.old.seat) result 19 (view recorder.new.seat) }
        ensures ends { EndsWith object change result (view recorder.new.seat) }
        ensures leaves { Leaves (update_of object) (answer_after change result) (view recorder.new.seat) }
    {
        let access = PendingAccess {
            object,
            mode: Mode::Update,
            value: 0,
        };
        match claim_in(recorder.seat.phase()) {
            Some((prior, done)) => {
                let way = self.look_on(recorder, access, prior, done);
                self.finish_change(recorder, object, change, way)
            }
            None => self.load_to_change(recorder, object, change).0,
        }
    }

    // Loads the state of the object, and does what the table says, as `load` does.
    #[inline(always)]
    pub(crate) fn load_to_change(
        &self,
        recorder: &mut Recorder,
        object: u16,
        change: Change,
    ) -> (Updated, bool)
        requires can { CanAccess self.now (update_of object) recorder.old }
        requires due { (view recorder.old.seat).thread.due ≡ Nothing }
        requires loads { IsToLoad (update_of object) (view recorder.old.seat).thread.phase }
        ensures keeps { KeepsSeatAfter self.now.words (answer_after change result.0) recorder.old recorder.new }
        ensures comes { ComesBy change object (view recorder.old.seat) result.0 19 (view recorder.new.seat) }
        ensures ends { EndsWith object change result.0 (view recorder.new.seat) }
        ensures leaves { Leaves (update_of object) (answer_after change result.0) (view recorder.new.seat) }
        ensures passes { result.1 ≡ passes_by (update_of object) (view recorder.old.seat) (steps_since (view recorder.old.seat) (view recorder.new.seat)) }
    {
        match recorder.enter_to_change(&self.words, object, change) {
            Entered::Made { told } => (Updated::Made { before: told }, true),
            Entered::Loaded { word, state, act } => {
                (
                    self.load_on_to_change(recorder, object, change, word, state, act),
                    false,
                )
            }
        }
    }

    // Does what the table says of a state that does not let the thread pass, as `load_on`. What goes out of line is copied to
    // memory here, and so stays in registers where the state lets the thread pass.
    #[inline(always)]
    fn load_on_to_change(
        &self,
        recorder: &mut Recorder,
        object: u16,
        change: Change,
        word: u64,
        state: StateWord,
        act: Act,
    ) -> Updated
        requires can { CanAccess self.now (update_of object) recorder.old }
        requires loaded { (v : SeatView) × HasLoaded (update_of object) v word state act (view recorder.old.seat) }
        ensures keeps { KeepsSeatAfter self.now.words (answer_after change result) recorder.old recorder.new }
        ensures comes { (v : SeatView) → HasLoaded (update_of object) v word state act (view recorder.old.seat) → ComesBy change object v result 19 (view recorder.new.seat) }
        ensures ends { EndsWith object change result (view recorder.new.seat) }
        ensures leaves { Leaves (update_of object) (answer_after change result) (view recorder.new.seat) }
        ensures passes { (v : SeatView) → HasLoaded (update_of object) v word state act (view recorder.old.seat) → false ≡ passes_by (update_of object) v (steps_since v (view recorder.new.seat)) }
    {
        self.pursue_change(recorder, object, change, word, state, act)
    }

    // The same, out of line.
    #[inline(never)]
    fn pursue_change(
        &self,
        recorder: &mut Recorder,
        object: u16,
        change: Change,
        word: u64,
        state: StateWord,
        act: Act,
    ) -> Updated
        requires can { CanAccess self.now (update_of object) recorder.old }
        requires loaded { (v : SeatView) × HasLoaded (update_of object) v word state act (view recorder.old.seat) }
        ensures keeps { KeepsSeatAfter self.now.words (answer_after change result) recorder.old recorder.new }
        ensures comes { (v : SeatView) → HasLoaded (update_of object) v word state act (view recorder.old.seat) → ComesBy change object v result 19 (view recorder.new.seat) }
        ensures ends { EndsWith object change result (view recorder.new.seat) }
        ensures leaves { Leaves (update_of object) (answer_after change result) (view recorder.new.seat) }
        ensures passes { (v : SeatView) → HasLoaded (update_of object) v word state act (view recorder.old.seat) → false ≡ passes_by (update_of object) v (steps_since v (view recorder.new.seat)) }
    {
        let access = PendingAccess {
            object,
            mode: Mode::Update,
            value: 0,
        };
        match act {
            Act::Raise => {
                let way = self.raise(recorder, access, state, word);
                self.finish_change(recorder, object, change, way)
            }
            Act::Take { whom } => {
                let way = self.claim(recorder, access, state, word, whom);
                self.finish_change(recorder, object, change, way)
            }
            Act::Held { by } => Updated::Pending {
                why: Why::Held { by, word },
            },
            Act::Pass | Act::Fence | Act::Share { .. } => unreachable!(),
        }
    }

    // From where a thread has come to: the update, or why it waits.
    fn finish_change(
        &self,
        recorder: &mut Recorder,
        object: u16,
        change: Change,
        way: Way,
    ) -> Updated
        requires can { CanAccess self.now (update_of object) recorder.old }
        requires stands { StandsAt (update_of object) way (view recorder.old.seat) }
        ensures keeps { KeepsSeatAfter self.now.words (answer_after change result) recorder.old recorder.new }
        ensures finishes { FinishesBy change object way (view recorder.old.seat) result (view recorder.new.seat) }
        ensures ends { EndsWith object change result (view recorder.new.seat) }
        ensures leaves { Leaves (update_of object) (answer_after change result) (view recorder.new.seat) }
    {
        match way {
            Way::Passes => self.change(recorder, object, change),
            Way::Waits { why } => Updated::Pending { why },
        }
    }

    // Makes the update, which the state allows. Answers the value before.
    #[inline(always)]
    fn change(&self, recorder: &mut Recorder, object: u16, change: Change) -> Updated
        requires can { CanAccess self.now (update_of object) recorder.old }
        requires stands { StandsIn (Pass object ForUpdate) (view recorder.old.seat) }
        ensures keeps { KeepsSeatAfter self.now.words (answer_after change result) recorder.old recorder.new }
        ensures comes { ComesBy change object (view recorder.old.seat) result 1 (view recorder.new.seat) }
        ensures ends { EndsWith object change result (view recorder.new.seat) }
        ensures leaves { Leaves (update_of object) (answer_after change result) (view recorder.new.seat) }
    {
        let before = recorder.update(&self.words, object, change);
        Updated::Made { before }
    }
}
