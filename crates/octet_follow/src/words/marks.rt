//! Marks of followers: each waits for what it names. A mark that is made is shown at once.
ghost use Rattle.std.specs.Prelude.{◌≡◌, ◌+◌, ◌<◌, ◌∷◌, [], length, true, IfErr, OnOk};
ghost use Rattle.octet_model.specs.declared.event.Event.TheVariants.{Marked};
ghost use Rattle.octet_model.specs.declared.event.Mark.TheVariants.{Join, Draw, Fence};
ghost use Rattle.octet_follow.specs.Halts.{HaltsMark};
ghost use Rattle.octet_follow.specs.Seats.{view, IsSeatOf, Goes, IsStill};

use crate::halt::Halt;
use crate::words::{Seat, Words};
use octet_model::Mark;

impl Words {
    // Makes a join, once as many events of the other thread are seen as it names.
    fn make_join(
        &self,
        seat: &mut Seat,
        follower: u8,
        shown: u64,
        events: u64,
        from: u8,
        upto: u64,
    ) -> Result<(), Halt>
        requires own { IsSeatOf self.now seat.old }
        requires number { ((view seat.old).number ≡ follower) × (follower < self.now.followers) }
        requires shown { shown ≡ (view seat.old).follower.shown }
        requires events { events ≡ length (view seat.old).follower.journal + 1 }
        requires from { from < self.now.followers }
        ensures own { IsSeatOf self.now seat.new }
        ensures made { OnOk result (Goes (view seat.old) (Marked (Join from upto) ∷ []) true (view seat.new)) }
        ensures still { IfErr result (λ _. IsStill (view seat.old) (view seat.new)) }
        ensures halts { IfErr result (λ halt. HaltsMark (Join from upto) halt (view seat.new)) }
    {
        let found = self.look(seat, from);
        if found < upto {
            return Err(Halt::Waits {
                whom: from,
                needs: upto,
                found,
            });
        }
        let mark = Mark::Join { from, upto };
        self.mark(seat, follower, shown, events, mark);
        Ok(())
    }

    // Makes a draw, once the draw before it is made.
    fn make_draw(&self, seat: &mut Seat, follower: u8, events: u64, number: u64) -> Result<(), Halt>
        requires own { IsSeatOf self.now seat.old }
        requires number { ((view seat.old).number ≡ follower) × (follower < self.now.followers) }
        requires events { events ≡ length (view seat.old).follower.journal + 1 }
        requires some { 0 < number }
        ensures own { IsSeatOf self.now seat.new }
        ensures made { OnOk result (Goes (view seat.old) (Marked (Draw number) ∷ []) true (view seat.new)) }
        ensures still { IfErr result (λ _. IsStill (view seat.old) (view seat.new)) }
        ensures halts { IfErr result (λ halt. HaltsMark (Draw number) halt (view seat.new)) }
    {
        let needs = number - 1;
        let found = self.draw(seat, needs, number);
        if found < needs {
            return Err(Halt::WaitsForDraws { needs, found });
        }
        if found > needs {
            return Err(Halt::Amiss);
        }
        self.show(seat, follower, events);
        Ok(())
    }

    // Makes a fence, once as many draws are seen as it names.
    fn make_fence(
        &self,
        seat: &mut Seat,
        follower: u8,
        shown: u64,
        events: u64,
        number: u64,
    ) -> Result<(), Halt>
        requires own { IsSeatOf self.now seat.old }
        requires number { ((view seat.old).number ≡ follower) × (follower < self.now.followers) }
        requires shown { shown ≡ (view seat.old).follower.shown }
        requires events { events ≡ length (view seat.old).follower.journal + 1 }
        ensures own { IsSeatOf self.now seat.new }
        ensures made { OnOk result (Goes (view seat.old) (Marked (Fence number) ∷ []) true (view seat.new)) }
        ensures still { IfErr result (λ _. IsStill (view seat.old) (view seat.new)) }
        ensures halts { IfErr result (λ halt. HaltsMark (Fence number) halt (view seat.new)) }
    {
        let found = self.look_at_draws(seat);
        if found < number {
            return Err(Halt::WaitsForDraws {
                needs: number,
                found,
            });
        }
        let mark = Mark::Fence { number };
        self.mark(seat, follower, shown, events, mark);
        Ok(())
    }

    /// Makes a mark of a follower that shows so many events, or tells why not. With it the follower
    /// has made so many events, and shows them.
    pub(crate) fn make_mark(
        &self,
        seat: &mut Seat,
        follower: u8,
        shown: u64,
        events: u64,
        mark: Mark,
    ) -> Result<(), Halt>
        requires own { IsSeatOf self.now seat.old }
        requires number { ((view seat.old).number ≡ follower) × (follower < self.now.followers) }
        requires shown { shown ≡ (view seat.old).follower.shown }
        requires events { events ≡ length (view seat.old).follower.journal + 1 }
        ensures own { IsSeatOf self.now seat.new }
        ensures made { OnOk result (Goes (view seat.old) (Marked mark ∷ []) true (view seat.new)) }
        ensures still { IfErr result (λ _. IsStill (view seat.old) (view seat.new)) }
        ensures halts { IfErr result (λ halt. HaltsMark mark halt (view seat.new)) }
    {
        match mark {
            Mark::Join { from, upto } => {
                if from >= self.followers {
                    return Err(Halt::Amiss);
                }
                self.make_join(seat, follower, shown, events, from, upto)
            }
            Mark::Draw { number } => {
                if number == 0 {
                    return Err(Halt::Amiss);
                }
                self.make_draw(seat, follower, events, number)
            }
            Mark::Fence { number } => self.make_fence(seat, follower, shown, events, number),
        }
    }
}
