//! The steps of followers on the words. Each is one atomic step, and takes no memory and no lock.
ghost use Rattle.std.specs.Prelude.{◌≡◌, ℕ, ◌+◌, ◌<◌, true, length};
ghost use Rattle.octet_rule.specs.Changes.{changed_by};
ghost use Rattle.octet_follow.specs.State.{cell_place};
ghost use Rattle.octet_follow.specs.Steps.{ToLook, ToLookAtDraws, ToRead, ToWrite, ToUpdate, ToMark, ToShow};
ghost use Rattle.octet_follow.specs.Rule.{Steps, DoesStep, DrawsOrLooks, object_at};
ghost use Rattle.octet_follow.specs.Seats.{view, starts_of, IsSeatOf, HasFound};

use crate::view::View;
use crate::words::{Seat, Words, kinds, progress_place};
use octet_model::Mark;
use octet_rule::Change;

impl Words {
    /// Looks how far another follower is.
    pub(crate) fn look(&self, seat: &mut Seat, whom: u8) -> u64
        requires own { IsSeatOf self.now seat.old }
        requires whom { whom < self.now.followers }
        ensures own { IsSeatOf self.now seat.new }
        ensures step { Steps (ToLook whom) (view seat.old) result (view seat.new) }
    {
        let place = progress_place(whom);
        self.table
            .shared
            .load::<kinds::Look>(&mut seat.inner, place)
    }

    /// Looks how many draws were made.
    pub(crate) fn look_at_draws(&self, seat: &mut Seat) -> u64
        requires own { IsSeatOf self.now seat.old }
        ensures own { IsSeatOf self.now seat.new }
        ensures step { Steps ToLookAtDraws (view seat.old) result (view seat.new) }
    {
        let place = self.draws_place();
        self.table
            .shared
            .load::<kinds::LookAtDraws>(&mut seat.inner, place)
    }

    /// Reads the cell.
    #[inline(always)]
    pub(crate) fn read(&self, seat: &mut Seat, object: u16) -> u64
        requires own { IsSeatOf self.now seat.old }
        requires object { object < self.now.objects }
        ensures own { IsSeatOf self.now seat.new }
        ensures step { Steps (ToRead object) (view seat.old) result (view seat.new) }
    {
        let place = self.cell_place(object);
        self.table
            .shared
            .load::<kinds::Read>(&mut seat.inner, place)
    }

    /// Writes the cell.
    #[inline(always)]
    pub(crate) fn write(&self, seat: &mut Seat, object: u16, value: u64)
        requires own { IsSeatOf self.now seat.old }
        requires object { object < self.now.objects }
        ensures own { IsSeatOf self.now seat.new }
        ensures step { DoesStep (ToWrite object value) (view seat.old) (view seat.new) }
    {
        let place = self.cell_place(object);
        self.table
            .shared
            .store::<kinds::Write>(&mut seat.inner, place, value);
    }

    /// Changes the value of the cell, in one access. Answers the value before.
    #[inline(always)]
    pub(crate) fn update(&self, seat: &mut Seat, object: u16, change: Change) -> u64
        requires own { IsSeatOf self.now seat.old }
        requires object { object < self.now.objects }
        ensures own { IsSeatOf self.now seat.new }
        ensures step { Steps (ToUpdate object (changed_by change)) (view seat.old) result (view seat.new) }
    {
        let place = self.cell_place(object);
        self.change_cell(&mut seat.inner, place, change)
    }

    // The step on the cell that lies at a place.
    #[inline(always)]
    fn change_cell(
        &self,
        inner: &mut atomic_table::Seat<Mark, View>,
        place: usize,
        change: Change,
    ) -> u64
        requires own { inner.old.table_id ≡ self.now.table.shared.table_id }
        requires live { inner.old.me.0.is_live ≡ true }
        requires known { (inner.old.me.0.starts ≡ starts_of self.now) × (inner.old.me.0.followers ≡ self.now.followers) }
        requires there { (object : ℕ) × (object < self.now.objects) × (place ≡ cell_place self.now.followers object) }
        ensures own { (inner.new.table_id ≡ inner.old.table_id) × (inner.new.id ≡ inner.old.id) × (inner.new.me.1 ≡ inner.old.me.1) }
        ensures step { Steps (ToUpdate (object_at inner.old.me.0 place) (changed_by change)) inner.old.me.0 result inner.new.me.0 }
    {
        let shared = &self.table.shared;
        match change {
            Change::Add(amount) => shared.fetch_add::<kinds::Adds>(inner, place, amount),
            Change::Sub(amount) => shared.fetch_sub::<kinds::Subtracts>(inner, place, amount),
            Change::Swap(new) => shared.swap::<kinds::Swaps>(inner, place, new),
            Change::CompareExchange { expected, new } => {
                shared.compare_exchange::<kinds::Exchanges>(inner, place, expected, new)
            }
            Change::And(mask) => shared.fetch_and::<kinds::Ands>(inner, place, mask),
            Change::Or(mask) => shared.fetch_or::<kinds::Ors>(inner, place, mask),
            Change::Xor(mask) => shared.fetch_xor::<kinds::Xors>(inner, place, mask),
            Change::Max(other) => shared.fetch_max::<kinds::Maximizes>(inner, place, other),
            Change::Min(other) => shared.fetch_min::<kinds::Minimizes>(inner, place, other),
        }
    }

    /// Makes the next draw, where so many were made. Answers how many were made.
    pub(crate) fn draw(&self, seat: &mut Seat, before: u64, number: u64) -> u64
        requires own { IsSeatOf self.now seat.old }
        requires next { number ≡ before + 1 }
        ensures own { IsSeatOf self.now seat.new }
        ensures step { DrawsOrLooks before (view seat.old) result (view seat.new) }
    {
        let place = self.draws_place();
        self.table
            .shared
            .compare_exchange::<kinds::Draw>(&mut seat.inner, place, before, number)
    }

    /// Makes a mark of a follower that shows so many events, and shows all that it has made then.
    pub(crate) fn mark(&self, seat: &mut Seat, follower: u8, shown: u64, events: u64, mark: Mark)
        requires own { IsSeatOf self.now seat.old }
        requires number { ((view seat.old).number ≡ follower) × (follower < self.now.followers) }
        requires found { HasFound (view seat.old).follower mark }
        requires shown { shown ≡ (view seat.old).follower.shown }
        requires events { events ≡ length (view seat.old).follower.journal + 1 }
        ensures own { IsSeatOf self.now seat.new }
        ensures step { DoesStep (ToMark mark) (view seat.old) (view seat.new) }
    {
        let place = progress_place(follower);
        self.table
            .shared
            .compare_exchange_with::<kinds::Mark>(&mut seat.inner, place, shown, events, &mark);
    }

    /// Shows that the follower has made so many events.
    #[inline(always)]
    pub(crate) fn show(&self, seat: &mut Seat, follower: u8, events: u64)
        requires own { IsSeatOf self.now seat.old }
        requires number { ((view seat.old).number ≡ follower) × (follower < self.now.followers) }
        requires events { events ≡ length (view seat.old).follower.journal }
        ensures own { IsSeatOf self.now seat.new }
        ensures step { DoesStep ToShow (view seat.old) (view seat.new) }
    {
        let place = progress_place(follower);
        self.table
            .shared
            .store::<kinds::Show>(&mut seat.inner, place, events);
    }
}
