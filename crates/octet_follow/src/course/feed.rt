//! What a follower is told of its recording.
ghost use Rattle.std.specs.Prelude.{◌≡◌, length, min, Some, None};
ghost use Rattle.octet_follow.specs.Blocks.{TakesBlock};
ghost use Rattle.octet_follow.specs.Calls.{view_of, journal_in, given, given_after, room_of, IsFollowerOf, IsSame, IsOut};

use crate::course::Course;
use crate::ending::Ending;
use crate::follower::Follower;
use octet_model::Gapped;

impl Course {
    /// Gives the follower the block that comes next: its marks, the first of which counts its accesses from
    /// where the block begins, and how many accesses come after the last of them. The follower takes it where it
    /// has made all that it was told of, and as many marks as there is room for. Answers how many it took: the
    /// other ones, with the accesses after them, are its next block. None where it has something left to make, or
    /// was told the end.
    pub fn refill(&self, follower: &mut Follower, marks: &[Gapped], after: u64) -> Option<usize>
        requires own { IsFollowerOf self.now follower.old }
        ensures own { IsFollowerOf self.now follower.new }
        ensures same { IsSame follower.old follower.new × (follower.new.ending ≡ follower.old.ending) }
        ensures made { journal_in follower.new ≡ journal_in follower.old }
        ensures takes { IsOut follower.old → (result ≡ Some (min (length marks.now) (room_of follower.old))) × TakesBlock (min (length marks.now) (room_of follower.old)) marks.now after follower.old follower.new }
        ensures leaves { (IsOut follower.old → ⊥) → (result ≡ None) × (follower.new ≡ follower.old) }
    {
        follower.refill(marks, after)
    }

    /// Tells the follower what comes after all that it was told: its thread's end, or the end of a recording
    /// that breaks off. It need not have made all yet.
    pub fn end(&self, follower: &mut Follower, ending: Ending)
        requires own { IsFollowerOf self.now follower.old }
        ensures own { IsFollowerOf self.now follower.new }
        ensures same { IsSame follower.old follower.new }
        ensures made { journal_in follower.new ≡ journal_in follower.old }
        ensures given { (given follower.new ≡ given follower.old) × (given_after follower.new ≡ given_after follower.old) }
        ensures told { follower.new.ending ≡ ending }
    {
        follower.end(ending);
    }

    /// Tells the follower that no thread waits for its accesses before it has made so many events. Until
    /// then it shows none of them, and from then on each, by its next call: so it shows each at first. Marks it
    /// shows with all before them.
    pub fn await_events(&self, follower: &mut Follower, events: u64)
        requires own { IsFollowerOf self.now follower.old }
        ensures own { IsFollowerOf self.now follower.new }
        ensures awaited { follower.new.awaited ≡ events }
        ensures number { (view_of follower.new).number ≡ (view_of follower.old).number }
        ensures room { room_of follower.new ≡ room_of follower.old }
        ensures made { journal_in follower.new ≡ journal_in follower.old }
        ensures given { (given follower.new ≡ given follower.old) × (given_after follower.new ≡ given_after follower.old) × (follower.new.ending ≡ follower.old.ending) }
    {
        follower.awaited = events;
        if follower.events < events {
            return;
        }
        self.words
            .show(&mut follower.seat, follower.number, follower.events);
        follower.shown = follower.events;
    }
}
