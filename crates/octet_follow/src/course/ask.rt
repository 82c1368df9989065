//! What a thread asks of its follower. No call takes memory, and none waits.
ghost use Rattle.std.specs.Prelude.{◌≡◌, ◌≢◌, ◌<◌, ◌≤◌, ◌^◌, ◌+◌, length, IfOk, IfErr, OnOk};
ghost use Rattle.octet_follow.specs.Calls.{view_of, journal_in, IsFollowerOf, IsGivenSame, IsShown, IsUnshown, MakesMarks, Makes, IsComplete, IsDue, IsThrough, IsNextFor, CountsMark, HaltsMarks, Halts, IsNotEnded};
ghost use Rattle.octet_follow.specs.Promise.{HoldsBack};
ghost use Rattle.octet_follow.specs.Repeats.{IsRecordedSoFar};

use crate::access::Access;
use crate::course::Course;
use crate::ending::Ending;
use crate::follower::Follower;
use crate::halt::Halt;

// Counts a mark that was made, the first one in the buffer, and shown.
fn count_mark(follower: &mut Follower)
    requires room { follower.old.events + 1 < 2 ^ 64 }
    requires few { follower.old.marked ≤ follower.old.events }
    requires due { IsDue follower.old }
    ensures { CountsMark follower.old follower.new }
{
    follower.events += 1;
    follower.marked += 1;
    follower.shown = follower.events;
    follower.next += 1;
    follower.left = if follower.next < follower.marks.len() {
        follower.marks[follower.next].gap as u64
    } else {
        follower.after
    };
}

impl Course {
    // Makes the mark that is due, or tells why not.
    fn take_mark(&self, follower: &mut Follower) -> Result<(), Halt>
        requires own { IsFollowerOf self.now follower.old }
        requires due { IsDue follower.old }
        requires shown { IsShown follower.old }
        ensures own { IsFollowerOf self.now follower.new }
        ensures given { IsGivenSame follower.old follower.new }
        ensures shown { IsShown follower.new }
        ensures marks { MakesMarks (view_of follower.old) (view_of follower.new) }
        ensures halts { IfErr result (λ halt. HaltsMarks halt follower.new) }
        ensures on { OnOk result ((follower.new.next ≡ follower.old.next + 1) × (length follower.new.marks.items ≡ length follower.old.marks.items)) }
    {
        if follower.events == u64::MAX {
            return Err(Halt::Amiss);
        }
        let mark = follower.marks[follower.next].mark;
        let made = self.words.make_mark(
            &mut follower.seat,
            follower.number,
            follower.shown,
            follower.events + 1,
            mark,
        );
        if let Err(halt) = made {
            return Err(halt);
        }
        count_mark(follower);
        Ok(())
    }

    // What comes after all that a follower was told, which has made it.
    fn after_all(&self, follower: &Follower) -> Result<bool, Halt>
        requires all { IsThrough follower.now }
        ensures next { IfOk result (λ access. IsNextFor access follower.now) }
        ensures halts { IfErr result (λ halt. HaltsMarks halt follower.now) }
    {
        match follower.ending {
            Ending::Open => Err(Halt::NeedsMarks),
            Ending::ThreadEnds => Ok(false),
            Ending::BreaksOff => Err(Halt::RecordingEnds),
        }
    }

    // Makes the marks that are due. Whether an access is next, or the end.
    fn make_marks(&self, follower: &mut Follower) -> Result<bool, Halt>
        requires own { IsFollowerOf self.now follower.old }
        requires shown { IsShown follower.old }
        ensures own { IsFollowerOf self.now follower.new }
        ensures given { IsGivenSame follower.old follower.new }
        ensures shown { IsShown follower.new }
        ensures marks { MakesMarks (view_of follower.old) (view_of follower.new) }
        ensures next { IfOk result (λ access. IsNextFor access follower.new) }
        ensures halts { IfErr result (λ halt. HaltsMarks halt follower.new) }
    {
        while follower.left == 0 {
            if follower.next >= follower.marks.len() {
                return self.after_all(follower);
            }
            if let Err(halt) = self.take_mark(follower) {
                return Err(halt);
            }
        }
        Ok(true)
    }

    // Makes an access, before which no mark stands. It is shown by the next call.
    #[inline(always)]
    fn make_access(&self, follower: &mut Follower, access: Access) -> Result<u64, Halt>
        requires own { IsFollowerOf self.now follower.old }
        requires access { follower.old.left ≢ 0 }
        requires shown { IsShown follower.old }
        ensures own { IsFollowerOf self.now follower.new }
        ensures given { IsGivenSame follower.old follower.new }
        ensures unshown { OnOk result (IsUnshown follower.new) }
        ensures holds { OnOk result (HoldsBack (view_of follower.new)) }
        ensures shown { IfErr result (λ _. IsShown follower.new) }
        ensures made { IfOk result (λ value. Makes access (view_of follower.old) value (view_of follower.new)) }
        ensures marks { IfErr result (λ _. MakesMarks (view_of follower.old) (view_of follower.new)) }
        ensures halts { IfErr result (λ halt. Halts self.now access halt follower.new) }
    {
        if access.object() >= self.words.objects {
            return Err(Halt::NoObject);
        }
        if follower.events == u64::MAX {
            return Err(Halt::Amiss);
        }
        follower.events += 1;
        follower.left -= 1;
        let value = self.words.make(&mut follower.seat, access);
        follower.digest = access.digested(follower.digest, value);
        Ok(value)
    }

    // Makes the marks that are due, and then the access.
    fn ask_after_marks(&self, follower: &mut Follower, access: Access) -> Result<u64, Halt>
        requires own { IsFollowerOf self.now follower.old }
        requires shown { IsShown follower.old }
        ensures own { IsFollowerOf self.now follower.new }
        ensures given { IsGivenSame follower.old follower.new }
        ensures unshown { OnOk result (IsUnshown follower.new) }
        ensures holds { OnOk result (HoldsBack (view_of follower.new)) }
        ensures shown { IfErr result (λ _. IsShown follower.new) }
        ensures made { IfOk result (λ value. Makes access (view_of follower.old) value (view_of follower.new)) }
        ensures marks { IfErr result (λ _. MakesMarks (view_of follower.old) (view_of follower.new)) }
        ensures halts { IfErr result (λ halt. Halts self.now access halt follower.new) }
    {
        match self.make_marks(follower) {
            Err(halt) => Err(halt),
            Ok(false) => Err(Halt::OverEnd),
            Ok(true) => self.make_access(follower, access),
        }
    }

    /// Shows all that the follower has made: whatever its thread did under its last access is over. A thread that
    /// rests calls it. The other calls of a thread do so first.
    #[inline(always)]
    pub fn show_made(&self, follower: &mut Follower)
        requires own { IsFollowerOf self.now follower.old }
        ensures own { IsFollowerOf self.now follower.new }
        ensures given { IsGivenSame follower.old follower.new }
        ensures made { journal_in follower.new ≡ journal_in follower.old }
        ensures shown { IsShown follower.new }
    {
        if follower.shown == follower.events || follower.events < follower.awaited {
            return;
        }
        self.words
            .show(&mut follower.seat, follower.number, follower.events);
        follower.shown = follower.events;
    }

    /// Asks for an access: shows the one before it, makes the marks that stand before it, and then the access,
    /// if nothing is to be waited for. Answers the value that a read or an update found, or that a write wrote.
    /// The access is not shown before the follower's next call, so none that waits for it is made until then.
    /// Takes no memory, and waits for nobody.
    #[inline(always)]
    pub fn ask(&self, follower: &mut Follower, access: Access) -> Result<u64, Halt>
        requires own { IsFollowerOf self.now follower.old }
        ensures own { IsFollowerOf self.now follower.new }
        ensures given { IsGivenSame follower.old follower.new }
        ensures unshown { OnOk result (IsUnshown follower.new) }
        ensures holds { OnOk result (HoldsBack (view_of follower.new)) }
        ensures shown { IfErr result (λ _. IsShown follower.new) }
        ensures made { IfOk result (λ value. Makes access (view_of follower.old) value (view_of follower.new)) }
        ensures marks { IfErr result (λ _. MakesMarks (view_of follower.old) (view_of follower.new)) }
        ensures halts { IfErr result (λ halt. Halts self.now access halt follower.new) }
        ensures recorded { IfOk result (λ _. IsRecordedSoFar follower.new) }
    {
        self.show_made(follower);
        if follower.left == 0 {
            return self.ask_after_marks(follower, access);
        }
        self.make_access(follower, access)
    }

    /// Ends the thread: makes the marks that are left. Refused where the recording of the thread goes on.
    pub fn finish(&self, follower: &mut Follower) -> Result<(), Halt>
        requires own { IsFollowerOf self.now follower.old }
        ensures own { IsFollowerOf self.now follower.new }
        ensures given { IsGivenSame follower.old follower.new }
        ensures shown { IsShown follower.new }
        ensures marks { MakesMarks (view_of follower.old) (view_of follower.new) }
        ensures complete { OnOk result (IsComplete follower.new) }
        ensures halts { IfErr result (λ halt. IsNotEnded halt follower.new) }
    {
        self.show_made(follower);
        match self.make_marks(follower) {
            Err(halt) => Err(halt),
            Ok(false) => Ok(()),
            Ok(true) => Err(Halt::EndsEarly {
                left: follower.left,
            }),
        }
    }
}
