//! A thread that follows takes what it was fed, block by block.
ghost use Rattle.std.specs.Prelude.{◌≡◌, ◌≢◌, ◌≤◌, [], length, Some, None, IfSome, IfErr, IsNone, vec_capacity};
ghost use Rattle.octet_follow.specs.Blocks.{TakesBlock};
ghost use Rattle.octet_follow.specs.Calls.{view_of, journal_in, room_of, IsFollowerOf, IsOut};
ghost use Rattle.octet_follow.specs.declared.halt.Halt.TheVariants as stopped_by;
ghost use Rattle.octet_session.specs.declared.not_made.NotMade.TheVariants.{Left};
ghost use Rattle.octet_stream.specs.declared.long_rerun.Halt.TheVariants.{Amiss, Diverges};
ghost use Rattle.octet_stream.specs.Followers.{IsLongFollowerOf, StaysAs, IsDivergence, Answers};

use crate::gathering::{Gathered, gather};
use crate::long_follower::LongFollower;
use crate::long_rerun::{Divergence, Halt, LongRerun};
use octet_follow::Ending;

impl LongRerun {
    // Gives the follower the marks that were gathered, and so many accesses after them.
    fn give(&self, thread: &mut LongFollower, after: u64)
        requires own { IsFollowerOf self.now.course thread.old.follower }
        requires out { IsOut thread.old.follower }
        requires room { vec_capacity thread.old.marks ≤ room_of thread.old.follower }
        ensures own { IsFollowerOf self.now.course thread.new.follower }
        ensures takes { TakesBlock (length thread.old.marks.items) thread.old.marks.items after thread.old.follower thread.new.follower }
        ensures none { thread.new.marks.items ≡ [] }
        ensures room { vec_capacity thread.new.marks ≤ room_of thread.new.follower }
        ensures stays { StaysAs thread.old thread.new }
        ensures rest { thread.new ≡ record thread.old { follower = thread.new.follower; marks = thread.new.marks } }
    {
        self.course
            .refill(&mut thread.follower, thread.marks.as_slice(), after);
        thread.marks.clear();
    }

    // Tells the follower what comes after its last block. Marks of a block that does not end are amiss.
    fn end(&self, thread: &mut LongFollower, ending: Ending) -> Result<(), Halt>
        requires own { IsLongFollowerOf self.now thread.old }
        ensures own { IsLongFollowerOf self.now thread.new }
        ensures stays { StaysAs thread.old thread.new }
        ensures amiss { IfErr result (λ halt. (halt ≡ Amiss) × (thread.new.marks.items ≢ [])) }
    {
        if !thread.marks.is_empty() {
            return Err(Halt::Amiss);
        }
        self.course.end(&mut thread.follower, ending);
        Ok(())
    }

    // Takes what has come of the thread's next block, and gives it to the follower once it is whole, or as much as there
    // is room for.
    fn take_block(&self, thread: &mut LongFollower) -> Result<(), Halt>
        requires own { IsLongFollowerOf self.now thread.old }
        requires out { IsOut thread.old.follower }
        requires compared { thread.old.expected ≡ None }
        ensures own { IsLongFollowerOf self.now thread.new }
        ensures stays { StaysAs thread.old thread.new }
        ensures amiss { IfErr result (λ halt. (halt ≡ Amiss) × (thread.new.marks.items ≢ [])) }
    {
        match gather(&mut thread.feed, &mut thread.marks) {
            Gathered::Nothing => Ok(()),
            Gathered::Full => {
                self.give(thread, 0);
                Ok(())
            }
            Gathered::BlockEnd { gap, digest } => {
                thread.expected = Some(digest);
                self.give(thread, u64::from(gap));
                Ok(())
            }
            Gathered::ThreadEnd => self.end(thread, Ending::ThreadEnds),
            Gathered::BreaksOff => self.end(thread, Ending::BreaksOff),
        }
    }

    // Compares the digest of a thread that has made its block with the recorded one. Tells where the thread has left its
    // recording, if it has.
    fn compare(&self, thread: &mut LongFollower) -> Option<Divergence>
        requires own { IsLongFollowerOf self.now thread.old }
        ensures own { IsLongFollowerOf self.now thread.new }
        ensures stays { StaysAs thread.old thread.new }
        ensures follower { thread.new.follower ≡ thread.old.follower }
        ensures same { IsNone result → thread.new.expected ≡ None }
        ensures differs { IfSome result (IsDivergence stopped_by.NeedsMarks thread.new) }
    {
        let Some(expected) = thread.expected else {
            return None;
        };
        let accesses = thread.follower.accesses();
        if thread.follower.digest().bits() != expected {
            return Some(Divergence {
                thread: thread.follower.thread(),
                from: thread.from,
                to: accesses,
            });
        }
        thread.expected = None;
        thread.from = accesses;
        None
    }

    // The thread leaves its recording. The first one that does is told to those that would wait.
    pub(crate) fn diverge(&self, divergence: Divergence) -> Halt
        ensures { result ≡ Diverges divergence }
    {
        self.diverged.note(divergence);
        Halt::Diverges { divergence }
    }

    /// Feeds a thread that has made all that its follower was told of, once its digest is the recorded one.
    pub(crate) fn feed(&self, thread: &mut LongFollower) -> Result<(), Halt>
        requires own { IsLongFollowerOf self.now thread.old }
        requires out { IsOut thread.old.follower }
        ensures own { IsLongFollowerOf self.now thread.new }
        ensures stays { StaysAs thread.old thread.new }
        ensures reason { IfErr result (λ halt. Answers stopped_by.NeedsMarks thread.new (Left halt)) }
    {
        if let Some(divergence) = self.compare(thread) {
            return Err(self.diverge(divergence));
        }
        self.take_block(thread)
    }
}
