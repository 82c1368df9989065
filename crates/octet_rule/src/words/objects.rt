//! Steps on the states of objects, and on their cells.
ghost use Rattle.std.specs.Prelude.{◌≡◌, ◌+◌, ◌-◌, ◌*◌, ◌/◌, ◌<◌, Some, length, IsTrue, IsFalse};
ghost use Rattle.octet_state.specs.declared.act.Mode.TheVariants.{Read as ForRead, Write as ForWrite, Update as ForUpdate};
ghost use Rattle.octet_state.specs.Table.{is_changed_by};
ghost use Rattle.octet_state.specs.Words.{packed_state, unpacked_state};
ghost use Rattle.octet_state.specs.Steps.{ToLoad, ToRead, ToWrite, ToBump, ToClaim, ToSettle, state_in, settling};
ghost use Rattle.atomic_table.specs.Table.{Allows};
ghost use Rattle.octet_rule.specs.Rule.{IsRuled, Acts, operation_on};
ghost use Rattle.octet_rule.specs.Conditions.{MayLoad, MayPass, HoldsWord, MaySettle, decision, is_take, found_by, IsLost};
ghost use Rattle.octet_rule.specs.Seats.{view, CanStep, TakesStep, objects_of};

use crate::tried::Tried;
use crate::view::View;
use crate::words::{Seat, Words};
use crate::{plays, states};
use octet_state::{Due, Mode, Phase, StateWord, decide};

impl Words {
    /// Loads the state of an object for an access. Answers its word, which no thread finds to be
    /// its own intermediate state.
    pub fn load(&self, seat: &mut Seat, object: u16, mode: &Mode) -> u64
        requires can { CanStep self.now seat.old }
        requires object { object < objects_of self.now }
        requires phase { MayLoad object mode.now (view seat.old).journal (view seat.old).thread.phase }
        ensures step { TakesStep self.now (ToLoad object mode.now) seat.old result seat.new }
        ensures packed { unpacked_state result ≡ Some (state_in (unpacked_state result)) }
        ensures foreign { IsFalse (is_changed_by (state_in (unpacked_state result)) (view seat.old).number) }
    {
        let place = self.state_place(object);
        let word = self.load_by_mode(&mut seat.inner, place, mode);
        let state = states::state_in(word, seat.thread);
        let act = decide(&state, seat.thread, mode, seat.count);
        let (phase, due) = act.after_load(&state, object, *mode);
        seat.phase = phase;
        seat.due = due;
        word
    }

    /// Reads the cell.
    pub fn read(&self, seat: &mut Seat, object: u16) -> u64
        requires can { CanStep self.now seat.old }
        requires object { object < objects_of self.now }
        requires phase { MayPass object ForRead (view seat.old).thread.phase }
        ensures { TakesStep self.now ToRead seat.old result seat.new }
    {
        let place = self.cell_place(object);
        let value = self
            .table
            .shared
            .load::<plays::Read>(&mut seat.inner, place);
        seat.phase = Phase::Idle;
        seat.events += 1;
        value
    }

    /// Writes the cell.
    pub fn write(&self, seat: &mut Seat, object: u16, value: u64)
        requires can { CanStep self.now seat.old }
        requires object { object < objects_of self.now }
        requires phase { MayPass object ForWrite (view seat.old).thread.phase }
        ensures { TakesStep self.now (ToWrite value) seat.old value seat.new }
    {
        let place = self.cell_place(object);
        self.table
            .shared
            .store::<plays::Write>(&mut seat.inner, place, value);
        seat.phase = Phase::Idle;
        seat.events += 1;
    }

    /// Adds the amount to the cell, modulo 2^64, in one access. Answers the value before.
    pub fn bump(&self, seat: &mut Seat, object: u16, amount: u64) -> u64
        requires can { CanStep self.now seat.old }
        requires object { object < objects_of self.now }
        requires phase { MayPass object ForUpdate (view seat.old).thread.phase }
        ensures { TakesStep self.now (ToBump amount) seat.old result seat.new }
    {
        let place = self.cell_place(object);
        let before = self
            .table
            .shared
            .fetch_add::<plays::Bump>(&mut seat.inner, place, amount);
        seat.phase = Phase::Idle;
        seat.events += 1;
        before
    }

    /// Takes the object, where its word is still the one that was loaded.
    pub fn claim(&self, seat: &mut Seat, object: u16, mode: &Mode, seen: u64) -> Tried
        requires can { CanStep self.now seat.old }
        requires object { object < objects_of self.now }
        requires phase { HoldsWord object mode.now seen (view seat.old).thread.phase }
        requires takes { IsTrue (is_take (decision (view seat.old))) }
        ensures step { TakesStep self.now ToClaim seat.old (found_by seen result) seat.new }
        ensures lost { IsLost seen result }
    {
        let place = self.state_place(object);
        let claiming = StateWord::claiming(seat.thread, *mode);
        let found = self
            .table
            .shared
            .compare_exchange::<plays::Claim>(&mut seat.inner, place, seen, claiming.pack());
        if found == seen {
            seat.phase = seat.phase.claimed();
            Tried::Won
        } else {
            seat.phase = seat.phase.lost();
            seat.due = Due::Glance;
            Tried::Lost { found }
        }
    }

    /// Gives the object the state that it has from then on.
    pub fn settle(&self, seat: &mut Seat, object: u16)
        requires can { CanStep self.now seat.old }
        requires object { object < objects_of self.now }
        requires phase { MaySettle (view seat.old).threads object (view seat.old).thread.phase }
        ensures { TakesStep self.now ToSettle seat.old (packed_state (settling (view seat.old).number (length (view seat.old).journal) (view seat.old).thread.phase)) seat.new }
    {
        let place = self.state_place(object);
        let settled = seat.phase.settled(seat.thread, seat.events);
        self.table
            .shared
            .store::<plays::Settle>(&mut seat.inner, place, settled.pack());
        seat.phase = seat.phase.passing();
    }

    // A play knows its mode by its type.
    pub(crate) fn load_by_mode(
        &self,
        inner: &mut atomic_table::Seat<(), View>,
        place: usize,
        mode: &Mode,
    ) -> u64
        requires own { inner.old.table_id ≡ self.now.table.shared.table_id }
        requires place { place < self.now.table.shared.table_id.words }
        requires allowed { Allows (IsRuled self.now.table.shared.key.threads self.now.table.shared.key.starts.value) self.now.table.shared.table_id.slots inner.old.id inner.old.me place (λ word. word) (Acts (ToLoad (place / 8 - (1 + inner.old.me.0.threads)) mode.now) (operation_on self.now.table.shared.table_id.slots place 0 0) inner.old.me) }
        ensures own { (inner.new.table_id ≡ inner.old.table_id) × (inner.new.id ≡ inner.old.id) }
        ensures step { Acts (ToLoad (place / 8 - (1 + inner.old.me.0.threads)) mode.now) (operation_on self.now.table.shared.table_id.slots place 0 0) inner.old.me result inner.new.me }
    {
        match *mode {
            Mode::Read => self.table.shared.load::<plays::LoadToRead>(inner, place),
            Mode::Write => self.table.shared.load::<plays::LoadToWrite>(inner, place),
            Mode::Update => self.table.shared.load::<plays::LoadToUpdate>(inner, place),
        }
    }
}
