//! An access that begins: the load of the object's state, and the step on its cell where that lets the
//! thread pass.
ghost use Rattle.std.specs.Prelude.{◌≡◌, ◌<◌, true};
ghost use Rattle.octet_state.specs.declared.phase.Due.TheVariants.{Nothing};
ghost use Rattle.octet_state.specs.declared.phase.Phase.TheVariants.{Idle};
ghost use Rattle.octet_state.specs.NextStep.{access_of};
ghost use Rattle.octet_rule.specs.Rule.{Steps};
ghost use Rattle.octet_rule.specs.Conditions.{MayLoad, MayPass};
ghost use Rattle.octet_rule.specs.Entering.{Enters};
ghost use Rattle.octet_rule.specs.Seats.{view, IsSeatOf, CanStep, objects_of};

use crate::entered::Entered;
use crate::view::View;
use crate::words::{Seat, Words};
use crate::{plays, states};
use octet_state::{Act, Mode, Phase, decide};

// The thread is about nothing. One that was so already stores nothing: a phase takes six stores.
#[inline(always)]
pub(crate) fn become_idle(phase: &mut Phase)
    ensures { phase.new ≡ Idle }
{
    match *phase {
        Phase::Idle => {}
        _ => *phase = Phase::Idle,
    }
}

impl Words {
    /// Loads the state of an object for an access, and makes the access where the state lets the
    /// thread pass: the steps of `load` and of `read`, `write` or `bump` after it. The value is what a
    /// write writes and what an update adds.
    #[inline(always)]
    pub fn enter(&self, seat: &mut Seat, object: u16, mode: &Mode, value: u64) -> Entered
        requires can { CanStep self.now seat.old }
        requires object { object < objects_of self.now }
        requires phase { MayLoad object mode.now (view seat.old).journal (view seat.old).thread.phase }
        ensures own { IsSeatOf self.now seat.new }
        ensures steps { Enters object mode.now value (view seat.old) result (view seat.new) }
    {
        let place = self.state_place(object);
        let word = self.load_by_mode(&mut seat.inner, place, mode);
        let state = states::state_in(word, seat.thread);
        let act = decide(&state, seat.thread, mode, seat.count);
        if let Act::Pass = act {
            let told = self.pass_by_mode(&mut seat.inner, object, mode, value);
            become_idle(&mut seat.phase);
            seat.events += 1;
            return Entered::Made { told };
        }
        let (phase, due) = act.after_load(&state, object, *mode);
        seat.phase = phase;
        seat.due = due;
        Entered::Loaded { word, state, act }
    }

    // The step on the cell, of a thread that passes.
    #[inline(always)]
    fn pass_by_mode(
        &self,
        inner: &mut atomic_table::Seat<(), View>,
        object: u16,
        mode: &Mode,
        value: u64,
    ) -> u64
        requires own { inner.old.table_id ≡ self.now.table.shared.table_id }
        requires live { inner.old.me.0.is_live ≡ true }
        requires known { inner.old.me.0.threads ≡ self.now.threads }
        requires object { object < objects_of self.now }
        requires due { inner.old.me.0.thread.due ≡ Nothing }
        requires phase { MayPass object mode.now inner.old.me.0.thread.phase }
        ensures own { (inner.new.table_id ≡ inner.old.table_id) × (inner.new.id ≡ inner.old.id) × (inner.new.me.1 ≡ inner.old.me.1) }
        ensures step { Steps (access_of mode.now value) inner.old.me.0 result inner.new.me.0 }
    {
        let place = self.cell_place(object);
        match *mode {
            Mode::Read => self.table.shared.load::<plays::Read>(inner, place),
            Mode::Write => {
                self.table.shared.store::<plays::Write>(inner, place, value);
                value
            }
            Mode::Update => self
                .table
                .shared
                .fetch_add::<plays::Bump>(inner, place, value),
        }
    }
}
