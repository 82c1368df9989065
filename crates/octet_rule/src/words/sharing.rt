//! Steps on the counter of draws, and on states of shared objects.
ghost use Rattle.std.specs.Prelude.{◌≡◌, ◌+◌, ◌*◌, ◌<◌, IsTrue};
ghost use Rattle.octet_state.specs.declared.act.Act.TheVariants.{Raise as RaiseIt};
ghost use Rattle.octet_state.specs.declared.act.Mode.TheVariants.{Read as ForRead};
ghost use Rattle.octet_state.specs.Steps.{ToDraw, ToFence, ToRaise, ToShare, mode_of};
ghost use Rattle.octet_rule.specs.Conditions.{MayDraw, MayFence, HoldsWord, decision, is_share, found_by, IsLost};
ghost use Rattle.octet_rule.specs.Seats.{view, CanStep, TakesStep, objects_of};

use crate::plays;
use crate::tried::Tried;
use crate::words::{Seat, Words};
use octet_state::{Due, Phase, StateWord};

impl Words {
    /// Draws the next number for the object that it makes read-shared. Answers the number that
    /// was drawn last.
    pub fn draw(&self, seat: &mut Seat) -> u64
        requires can { CanStep self.now seat.old }
        requires phase { MayDraw (view seat.old).thread.phase }
        ensures { TakesStep self.now ToDraw seat.old result seat.new }
    {
        let last = self
            .table
            .shared
            .fetch_add::<plays::Draw>(&mut seat.inner, 0, 1);
        let number = last + 1;
        seat.phase = Phase::Sharing {
            object: seat.phase.target(),
            drawn: Some(number),
        };
        seat.count = number;
        seat.events += 1;
        last
    }

    /// Loads the counter. Answers the number that was drawn last; the thread then knows all draws
    /// up to it.
    pub fn fence(&self, seat: &mut Seat) -> u64
        requires can { CanStep self.now seat.old }
        requires phase { MayFence (view seat.old).thread.phase }
        ensures { TakesStep self.now ToFence seat.old result seat.new }
    {
        let last = self.table.shared.load::<plays::Fence>(&mut seat.inner, 0);
        seat.phase = seat.phase.passing();
        seat.count = last;
        seat.events += 1;
        last
    }

    /// Makes its read-exclusive object write-exclusive, where its word is still the one that was
    /// loaded.
    pub fn raise(&self, seat: &mut Seat, object: u16, seen: u64) -> Tried
        requires can { CanStep self.now seat.old }
        requires object { object < objects_of self.now }
        requires phase { HoldsWord object (mode_of (view seat.old).thread.phase) seen (view seat.old).thread.phase }
        requires raises { decision (view seat.old) ≡ RaiseIt }
        ensures step { TakesStep self.now ToRaise seat.old (found_by seen result) seat.new }
        ensures lost { IsLost seen result }
    {
        let place = self.state_place(object);
        let raised = StateWord::WrEx { owner: seat.thread };
        let found = self
            .table
            .shared
            .compare_exchange::<plays::Raise>(&mut seat.inner, place, seen, raised.pack());
        if found == seen {
            seat.phase = seat.phase.passing();
            Tried::Won
        } else {
            seat.phase = seat.phase.lost();
            seat.due = Due::Glance;
            Tried::Lost { found }
        }
    }

    /// Begins to make another's read-exclusive object read-shared, where its word is still the
    /// one that was loaded.
    pub fn share(&self, seat: &mut Seat, object: u16, seen: u64) -> Tried
        requires can { CanStep self.now seat.old }
        requires object { object < objects_of self.now }
        requires phase { HoldsWord object ForRead seen (view seat.old).thread.phase }
        requires shares { IsTrue (is_share (decision (view seat.old))) }
        ensures step { TakesStep self.now ToShare seat.old (found_by seen result) seat.new }
        ensures lost { IsLost seen result }
    {
        let place = self.state_place(object);
        let sharing = StateWord::ShInt { by: seat.thread };
        let found = self
            .table
            .shared
            .compare_exchange::<plays::Share>(&mut seat.inner, place, seen, sharing.pack());
        if found == seen {
            seat.phase = Phase::Sharing {
                object: seat.phase.target(),
                drawn: None,
            };
            seat.events += 1;
            Tried::Won
        } else {
            seat.phase = seat.phase.lost();
            seat.due = Due::Glance;
            Tried::Lost { found }
        }
    }
}
