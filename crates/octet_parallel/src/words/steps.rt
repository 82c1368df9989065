//! The steps of players on the words. Each is one atomic step, and takes no memory and no lock.
ghost use Rattle.std.specs.Prelude.{◌≡◌, ◌+◌, ◌<◌, true, length};
ghost use Rattle.octet_model.specs.declared.event.Mark.{Mark};
ghost use Rattle.octet_model.specs.Thread.{added};
ghost use Rattle.octet_model.specs.Machine.{Wants, MakeRead, MakeWrite, MakeUpdate};
ghost use Rattle.octet_parallel.specs.declared.fate.Fate.TheVariants.{Amiss, Stopped};
ghost use Rattle.octet_parallel.specs.State.{stop_number};
ghost use Rattle.octet_parallel.specs.Steps.{ToLook, ToRead, ToWrite, ToBump, ToAdvance, ToStop};
ghost use Rattle.octet_parallel.specs.Views.{next_in};
ghost use Rattle.octet_parallel.specs.Rule.{Steps, stop_found};
ghost use Rattle.octet_parallel.specs.Conditions.{IsFreeIn, MayMark, StopsIn};
ghost use Rattle.octet_parallel.specs.Seats.{view, IsSeatOf};

use crate::words::{STOP_NUMBER, Seat, Words, kinds, progress_place};

impl Words {
    /// Looks how far another player is.
    pub(crate) fn look(&self, seat: &mut Seat, whom: u8) -> u64
        requires own { IsSeatOf self.now seat.old }
        requires free { IsFreeIn (view seat.old) }
        requires whom { whom < self.now.players }
        ensures own { IsSeatOf self.now seat.new }
        ensures step { Steps (ToLook whom) (view seat.old) result (view seat.new) }
    {
        let place = progress_place(whom);
        self.table
            .shared
            .load::<kinds::Look>(&mut seat.inner, place)
    }

    /// Reads the cell.
    pub(crate) fn read(&self, seat: &mut Seat, object: u16) -> u64
        requires own { IsSeatOf self.now seat.old }
        requires free { IsFreeIn (view seat.old) }
        requires object { object < self.now.objects }
        requires next { next_in (view seat.old) ≡ Wants (MakeRead object) }
        ensures own { IsSeatOf self.now seat.new }
        ensures step { Steps ToRead (view seat.old) result (view seat.new) }
    {
        let place = self.cell_place(object);
        self.table
            .shared
            .load::<kinds::Read>(&mut seat.inner, place)
    }

    /// Writes the cell. Answers the value before, so that what players did tells every word.
    pub(crate) fn write(&self, seat: &mut Seat, object: u16, value: u64) -> u64
        requires own { IsSeatOf self.now seat.old }
        requires free { IsFreeIn (view seat.old) }
        requires object { object < self.now.objects }
        requires next { next_in (view seat.old) ≡ Wants (MakeWrite object value) }
        ensures own { IsSeatOf self.now seat.new }
        ensures step { Steps ToWrite (view seat.old) result (view seat.new) }
    {
        let place = self.cell_place(object);
        self.table
            .shared
            .swap::<kinds::Write>(&mut seat.inner, place, value)
    }

    /// Adds the amount to the cell, modulo 2^64, in one access. Answers the value before.
    pub(crate) fn bump(&self, seat: &mut Seat, object: u16, amount: u64) -> u64
        requires own { IsSeatOf self.now seat.old }
        requires free { IsFreeIn (view seat.old) }
        requires object { object < self.now.objects }
        requires next { next_in (view seat.old) ≡ Wants (MakeUpdate object (added amount)) }
        ensures own { IsSeatOf self.now seat.new }
        ensures step { Steps ToBump (view seat.old) result (view seat.new) }
    {
        let place = self.cell_place(object);
        self.table
            .shared
            .fetch_add::<kinds::Bump>(&mut seat.inner, place, amount)
    }

    /// Counts the access that the player has made.
    pub(crate) fn count(&self, seat: &mut Seat, player: u8, events: u64)
        requires own { IsSeatOf self.now seat.old }
        requires number { ((view seat.old).number ≡ player) × (player < self.now.players) }
        requires owes { (view seat.old).player.owes ≡ true }
        requires events { events ≡ length (view seat.old).player.journal }
        ensures own { IsSeatOf self.now seat.new }
        ensures step { Steps ToAdvance (view seat.old) events (view seat.new) }
    {
        let place = progress_place(player);
        self.table
            .shared
            .store::<kinds::Advance>(&mut seat.inner, place, events);
    }

    /// Makes a mark, after which the player has made this number of events.
    pub(crate) fn mark(&self, seat: &mut Seat, player: u8, events: u64)
        requires own { IsSeatOf self.now seat.old }
        requires number { ((view seat.old).number ≡ player) × (player < self.now.players) }
        requires may { (mark : Mark) × MayMark (view seat.old) mark }
        requires events { events ≡ length (view seat.old).player.journal + 1 }
        ensures own { IsSeatOf self.now seat.new }
        ensures step { Steps ToAdvance (view seat.old) events (view seat.new) }
    {
        let place = progress_place(player);
        self.table
            .shared
            .store::<kinds::Advance>(&mut seat.inner, place, events);
    }

    /// The player is amiss.
    pub(crate) fn go_amiss(&self, seat: &mut Seat, player: u8)
        requires own { IsSeatOf self.now seat.old }
        requires number { ((view seat.old).number ≡ player) × (player < self.now.players) }
        requires free { IsFreeIn (view seat.old) }
        requires why { StopsIn (view seat.old) Amiss }
        ensures own { IsSeatOf self.now seat.new }
        ensures step { Steps (ToStop Amiss) (view seat.old) stop_number (view seat.new) }
    {
        let place = progress_place(player);
        self.table
            .shared
            .store::<kinds::GoAmiss>(&mut seat.inner, place, STOP_NUMBER);
    }

    /// The player stops, since it found the stop number when it looked last.
    pub(crate) fn stop(&self, seat: &mut Seat, player: u8)
        requires own { IsSeatOf self.now seat.old }
        requires number { ((view seat.old).number ≡ player) × (player < self.now.players) }
        requires free { IsFreeIn (view seat.old) }
        requires why { StopsIn (view seat.old) (Stopped (stop_found (view seat.old))) }
        ensures own { IsSeatOf self.now seat.new }
        ensures step { Steps (ToStop (Stopped (stop_found (view seat.old)))) (view seat.old) stop_number (view seat.new) }
    {
        let place = progress_place(player);
        self.table
            .shared
            .store::<kinds::Stop>(&mut seat.inner, place, STOP_NUMBER);
    }
}
