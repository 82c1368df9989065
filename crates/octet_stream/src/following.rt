//! A long run that is made again is a session: its threads are followers, each fed by a ring.
ghost use Rattle.std.specs.Prelude.{◌≡◌, None, Some, Err, false, length};
ghost use Rattle.octet_follow.specs.declared.halt.Halt.TheVariants as stopped_by;
ghost use Rattle.octet_follow.specs.Calls.{starts_in, view_of, journal_in, IsOut, IsShown};
ghost use Rattle.octet_follow.specs.Promise.{HoldsBack};
ghost use Rattle.octet_session.specs.declared.not_made.NotMade.TheVariants.{Left};
ghost use Rattle.octet_session.specs.Asking.{begun_after};
ghost use Rattle.octet_session.specs.Standing.{Keeps};
ghost use Rattle.octet_stream.specs.declared.long_rerun.Halt.TheVariants.{Diverges};
ghost use Rattle.octet_stream.specs.declared.long_rerun.Divergence.{Divergence};
ghost use Rattle.octet_stream.specs.Followers.{followed, IsLongFollowerOf, follower_standing, StaysAs, HasFollowed, HaltsAsked, IsDivergence, Answers, AnswersWait, IsFollowerReason};

use crate::long_follower::LongFollower;
use crate::long_rerun::{Divergence, Halt, LongRerun};
use octet_follow::Halt as Hold;
use octet_recorder::Access;
use octet_session::{NotMade, Session};

// An access in the words of a follower.
#[inline(always)]
fn followed(wanted: Access) -> octet_follow::Access
    ensures { result ≡ followed wanted }
{
    match wanted {
        Access::Read { object } => octet_follow::Access::Read { object },
        Access::Write { object, value } => octet_follow::Access::Write { object, value },
        Access::Update { object, change } => octet_follow::Access::Update { object, change },
    }
}

impl LongRerun {
    // The thread makes nothing any more, for this reason.
    fn leave(&self, thread: &LongFollower, halt: Halt) -> NotMade<Halt>
        ensures { result ≡ Left halt }
    {
        self.quiet.leave(thread.follower.thread());
        NotMade::Left { halt }
    }

    // A thread would wait for others. It is told where one has diverged, or that nothing can be made any more.
    fn wait(&self, thread: &mut LongFollower) -> NotMade<Halt>
        requires own { IsLongFollowerOf self.now thread.old }
        ensures stays { thread.new ≡ record thread.old { watch = thread.new.watch } }
        ensures told { AnswersWait result }
    {
        if let Some(divergence) = self.diverged.get() {
            return self.leave(thread, Halt::Stopped { divergence });
        }
        let made = thread.follower.events();
        if self
            .quiet
            .wait(thread.follower.thread(), made, &mut thread.watch)
        {
            return self.leave(thread, Halt::RecordingEnds);
        }
        NotMade::Waits
    }

    // A thread has made all that it was fed.
    fn want_marks(&self, thread: &mut LongFollower) -> NotMade<Halt>
        requires own { IsLongFollowerOf self.now thread.old }
        requires out { IsOut thread.old.follower }
        ensures own { IsLongFollowerOf self.now thread.new }
        ensures stays { StaysAs thread.old thread.new }
        ensures told { Answers stopped_by.NeedsMarks thread.new result }
    {
        self.quiet.go_on(thread.follower.thread());
        match self.feed(thread) {
            Ok(()) => NotMade::Waits,
            Err(halt) => self.leave(thread, halt),
        }
    }

    // A thread asks for more than was recorded of it, or for less.
    fn pass_end(&self, thread: &LongFollower) -> NotMade<Halt>
        requires own { IsLongFollowerOf self.now thread.now }
        ensures { (divergence : Divergence) × (result ≡ Left (Diverges divergence)) × IsDivergence stopped_by.OverEnd thread.now divergence }
    {
        let divergence = Divergence {
            thread: thread.follower.thread(),
            from: thread.from,
            to: thread.follower.accesses(),
        };
        let halt = self.diverge(divergence);
        self.leave(thread, halt)
    }

    // Why a thread has not made what it was asked for, by the reason why its follower has halted.
    fn hold(&self, thread: &mut LongFollower, wanted: Option<Access>, hold: Hold) -> NotMade<Halt>
        requires own { IsLongFollowerOf self.now thread.old }
        requires halts { HaltsAsked self.now wanted hold thread.old.follower }
        ensures own { IsLongFollowerOf self.now thread.new }
        ensures stays { StaysAs thread.old thread.new }
        ensures reason { IsFollowerReason self.now wanted thread.new result }
    {
        match hold {
            Hold::Waits { .. } => self.wait(thread),
            Hold::WaitsForDraws { .. } => self.wait(thread),
            Hold::NeedsMarks => self.want_marks(thread),
            Hold::RecordingEnds => self.leave(thread, Halt::RecordingEnds),
            Hold::OverEnd => self.pass_end(thread),
            Hold::EndsEarly { .. } => self.pass_end(thread),
            Hold::NoObject => self.leave(thread, Halt::Amiss),
            Hold::Amiss => self.leave(thread, Halt::Amiss),
        }
    }

    // An access is made.
    #[inline(always)]
    fn made(&self, thread: &mut LongFollower)
        ensures { thread.new ≡ record thread.old { begun = None; region = false } }
    {
        if thread.begun.is_some() {
            self.quiet.go_on(thread.follower.thread());
        }
        thread.begun = None;
        thread.region = false;
    }

    // An access is not made.
    #[inline(never)]
    fn not_made(&self, thread: &mut LongFollower, wanted: Access, hold: Hold) -> NotMade<Halt>
        requires own { IsLongFollowerOf self.now thread.old }
        requires halts { HaltsAsked self.now (Some wanted) hold thread.old.follower }
        ensures own { IsLongFollowerOf self.now thread.new }
        ensures number { (view_of thread.new.follower).number ≡ (view_of thread.old.follower).number }
        ensures journal { journal_in thread.new.follower ≡ journal_in thread.old.follower }
        ensures begun { thread.new.begun ≡ begun_after wanted (Err result) }
        ensures region { thread.new.region ≡ thread.old.region }
        ensures reason { IsFollowerReason self.now (Some wanted) thread.new result }
    {
        let why = self.hold(thread, Some(wanted), hold);
        thread.begun = match why {
            NotMade::Waits => Some(wanted),
            NotMade::NoRoom | NotMade::Left { .. } => None,
        };
        why
    }
}

impl Session for LongRerun {
    type Thread = LongFollower;

    type Halt = Halt;

    ghost IsThreadOf = { IsLongFollowerOf };

    ghost standing = { λ _. follower_standing };

    ghost objects = { λ rerun. length (starts_in rerun.course) };

    ghost recorded = { λ _ _. None };

    ghost Runs = { λ _. Unit {0} };

    ghost Rests = { λ _. Unit {0} };

    ghost HasEnded = { λ _. HasFollowed };

    ghost IsReason = { λ rerun wanted _ after. IsFollowerReason rerun wanted after };

    ghost HasMade = { λ _ _ _ after. HoldsBack (view_of after.follower) };

    #[inline(always)]
    fn ask(&self, thread: &mut LongFollower, wanted: Access) -> Result<u64, NotMade<Halt>> {
        match self.course.ask(&mut thread.follower, followed(wanted)) {
            Ok(value) => {
                self.made(thread);
                Ok(value)
            }
            Err(hold) => Err(self.not_made(thread, wanted, hold)),
        }
    }

    fn region(&self, thread: &mut LongFollower) {
        thread.region = true;
    }

    // No thread waits for the answer of another one: each is told by its marks. What it has made is shown.
    fn safe_point(&self, thread: &mut LongFollower)
        requires own { IsLongFollowerOf self.now thread.old }
        requires runs { Unit {0} }
        requires idle { thread.old.begun ≡ None }
        ensures own { IsLongFollowerOf self.now thread.new }
        ensures runs { Unit {0} }
        ensures keeps { Keeps (follower_standing thread.old) (follower_standing thread.new) }
        ensures shown { IsShown thread.new.follower }
    {
        self.course.show_made(&mut thread.follower);
    }

    fn block(&self, thread: &mut LongFollower)
        requires own { IsLongFollowerOf self.now thread.old }
        requires runs { Unit {0} }
        requires idle { thread.old.begun ≡ None }
        ensures own { IsLongFollowerOf self.now thread.new }
        ensures rests { Unit {0} }
        ensures keeps { Keeps (follower_standing thread.old) (follower_standing thread.new) }
        ensures shown { IsShown thread.new.follower }
    {
        self.course.show_made(&mut thread.follower);
    }

    fn unblock(&self, _thread: &mut LongFollower) {}

    fn finish(&self, thread: &mut LongFollower) -> Result<(), NotMade<Halt>> {
        match self.course.finish(&mut thread.follower) {
            Ok(()) => {
                self.quiet.leave(thread.follower.thread());
                Ok(())
            }
            Err(hold) => Err(self.hold(thread, None, hold)),
        }
    }
}
