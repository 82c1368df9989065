//! Updates of a cell by a change: each is one operation on the cell, and a step of the kind `ToBump`.
ghost use Rattle.std.specs.Prelude.{◌≡◌, ◌<◌, true};
ghost use Rattle.octet_state.specs.declared.act.Mode.TheVariants.{Update as ForUpdate};
ghost use Rattle.octet_state.specs.declared.phase.Due.TheVariants.{Nothing};
ghost use Rattle.octet_state.specs.Steps.{ToBump};
ghost use Rattle.octet_rule.specs.Rule.{Steps};
ghost use Rattle.octet_rule.specs.Changes.{amount_by, IsLed, EntersToChange, IsLedIfMade};
ghost use Rattle.octet_rule.specs.Conditions.{MayLoad, MayPass};
ghost use Rattle.octet_rule.specs.Seats.{view, IsSeatOf, CanStep, TakesStep, objects_of};

use crate::change::Change;
use crate::entered::Entered;
use crate::view::View;
use crate::words::entering::become_idle;
use crate::words::{Seat, Words};
use crate::{plays, states};
use octet_state::{Act, Mode, Phase, decide};

impl Words {
    /// Changes the cell, in one access. Answers the value before. The step is that of `bump` by the amount
    /// that leads from this value to what the change makes of it.
    pub fn update(&self, seat: &mut Seat, object: u16, change: Change) -> u64
        requires can { CanStep self.now seat.old }
        requires object { object < objects_of self.now }
        requires phase { MayPass object ForUpdate (view seat.old).thread.phase }
        ensures step { TakesStep self.now (ToBump (amount_by change result)) seat.old result seat.new }
        ensures led { IsLed change result }
    {
        let before = self.change_cell(&mut seat.inner, object, change);
        seat.phase = Phase::Idle;
        seat.events += 1;
        before
    }

    /// Loads the state of an object for an update, and makes it where the state lets the thread pass: the
    /// steps of `load` and of `update` after it.
    #[inline(always)]
    pub fn enter_to_change(&self, seat: &mut Seat, object: u16, change: Change) -> Entered
        requires can { CanStep self.now seat.old }
        requires object { object < objects_of self.now }
        requires phase { MayLoad object ForUpdate (view seat.old).journal (view seat.old).thread.phase }
        ensures own { IsSeatOf self.now seat.new }
        ensures steps { EntersToChange object change (view seat.old) result (view seat.new) }
        ensures led { IsLedIfMade change result }
    {
        let mode = Mode::Update;
        let place = self.state_place(object);
        let word = self.load_by_mode(&mut seat.inner, place, &mode);
        let state = states::state_in(word, seat.thread);
        let act = decide(&state, seat.thread, &mode, seat.count);
        if let Act::Pass = act {
            let told = self.change_cell(&mut seat.inner, object, change);
            become_idle(&mut seat.phase);
            seat.events += 1;
            return Entered::Made { told };
        }
        let (phase, due) = act.after_load(&state, object, mode);
        seat.phase = phase;
        seat.due = due;
        Entered::Loaded { word, state, act }
    }

    // The step on the cell, of a thread that passes.
    #[inline(always)]
    fn change_cell(
        &self,
        inner: &mut atomic_table::Seat<(), View>,
        object: u16,
        change: Change,
    ) -> u64
        requires own { inner.old.table_id ≡ self.now.table.shared.table_id }
        requires live { inner.old.me.0.is_live ≡ true }
        requires known { inner.old.me.0.threads ≡ self.now.threads }
        requires object { object < objects_of self.now }
        requires due { inner.old.me.0.thread.due ≡ Nothing }
        requires phase { MayPass object ForUpdate inner.old.me.0.thread.phase }
        ensures own { (inner.new.table_id ≡ inner.old.table_id) × (inner.new.id ≡ inner.old.id) × (inner.new.me.1 ≡ inner.old.me.1) }
        ensures step { Steps (ToBump (amount_by change result)) inner.old.me.0 result inner.new.me.0 }
        ensures led { IsLed change result }
    {
        let place = self.cell_place(object);
        let shared = &self.table.shared;
        match change {
            Change::Add(amount) => shared.fetch_add::<plays::Adds>(inner, place, amount),
            Change::Sub(amount) => shared.fetch_sub::<plays::Subtracts>(inner, place, amount),
            Change::Swap(new) => shared.swap::<plays::Swaps>(inner, place, new),
            Change::CompareExchange { expected, new } => {
                shared.compare_exchange::<plays::Exchanges>(inner, place, expected, new)
            }
            Change::And(mask) => shared.fetch_and::<plays::Ands>(inner, place, mask),
            Change::Or(mask) => shared.fetch_or::<plays::Ors>(inner, place, mask),
            Change::Xor(mask) => shared.fetch_xor::<plays::Xors>(inner, place, mask),
            Change::Max(other) => shared.fetch_max::<plays::Maximizes>(inner, place, other),
            Change::Min(other) => shared.fetch_min::<plays::Minimizes>(inner, place, other),
        }
    }
}
