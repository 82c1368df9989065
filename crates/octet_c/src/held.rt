//! What a handle stands for.
ghost use Rattle.std.specs.Prelude.{◌≡◌};
ghost use Rattle.octet_c.specs.Sessions.{IsHeld};
ghost use Rattle.octet_c.specs.Statuses.{status_done, status_asked, Tells, TellsEnd, NeverHalts, Starts, Stops, EndsThread, BeginsRegionNext, Passes, AccessesNext, Polls};

use crate::kept::Values;
use crate::status::{ANSWERED, OTHER_KIND, PENDING, READY, status_of};
use crate::told::Told;
use crate::window::Window;
use octet_host::{Answer, Misuse};
use octet_host_long::{ClosedAgain, Inlet, LongRecorded, LongRepeated, Outlet};
use octet_host_script::{Kept, Recorded, Repeated};
use octet_schedule::Schedule;
use octet_session::Access;
use std::convert::Infallible;

/// What a handle stands for: a thread that is recorded or run again, a stream of one, what a run has
/// left, its last accesses, or a schedule.
#[derive(Drop)]
pub enum Held {
    Recorded(Recorded),
    Repeated(Repeated),
    LongRecorded(LongRecorded),
    LongRepeated(LongRepeated),
    Outlet(Outlet),
    Inlet(Inlet),
    Kept(Kept),
    Values(Values),
    Again(ClosedAgain),
    Window(Window),
    Schedule(Schedule),
}

// What a call without a value comes to.
fn done(called: Result<(), Misuse>) -> i32
    ensures { result ≡ status_done called }
{
    match called {
        Ok(()) => READY,
        Err(misuse) => status_of(misuse),
    }
}

// What a safe point of a recorded thread comes to.
fn asked(passed: Result<bool, Misuse>) -> i32
    ensures { result ≡ status_asked passed }
{
    match passed {
        Ok(false) => READY,
        Ok(true) => ANSWERED,
        Err(misuse) => status_of(misuse),
    }
}

// What an access comes to, with its value if it has one.
#[inline(always)]
fn told<H: Told>(answer: Answer<H>, out: &mut u64) -> i32
    ensures { Tells H.Tells answer result out.old out.new }
{
    match answer {
        Answer::Ready { value } => {
            *out = value;
            READY
        }
        Answer::Pending => PENDING,
        Answer::Refused { misuse } => status_of(misuse),
        Answer::Left { halt } => halt.tell(out),
    }
}

// The same of a thread that has no recording to leave.
fn told_recorded(answer: Answer<Infallible>, out: &mut u64) -> i32
    ensures { Tells NeverHalts answer result out.old out.new }
{
    match answer {
        Answer::Ready { value } => {
            *out = value;
            READY
        }
        Answer::Pending => PENDING,
        Answer::Refused { misuse } => status_of(misuse),
        Answer::Left { halt } => match halt {},
    }
}

// What the end of a thread comes to. It has no value.
fn ended<H: Told>(answer: Answer<H>, out: &mut u64) -> i32
    ensures { TellsEnd H.Tells answer result out.old out.new }
{
    match answer {
        Answer::Ready { .. } => READY,
        Answer::Pending => PENDING,
        Answer::Refused { misuse } => status_of(misuse),
        Answer::Left { halt } => halt.tell(out),
    }
}

impl Held {
    /// Marks the thread as running.
    pub(crate) fn start(&mut self) -> i32
        requires { IsHeld self.old }
        ensures good { IsHeld self.new }
        ensures does { Starts self.old result self.new }
    {
        match self {
            Held::Recorded(it) => done(it.start()),
            Held::Repeated(it) => done(it.start()),
            Held::LongRecorded(it) => done(it.start()),
            Held::LongRepeated(it) => done(it.start()),
            _ => OTHER_KIND,
        }
    }

    /// Marks the thread as blocked.
    pub(crate) fn stop(&mut self) -> i32
        requires { IsHeld self.old }
        ensures good { IsHeld self.new }
        ensures does { Stops self.old result self.new }
    {
        match self {
            Held::Recorded(it) => done(it.stop()),
            Held::Repeated(it) => done(it.stop()),
            Held::LongRecorded(it) => done(it.stop()),
            Held::LongRepeated(it) => done(it.stop()),
            _ => OTHER_KIND,
        }
    }

    /// Ends the thread. A recorded one of a script is blocked.
    pub(crate) fn end(&mut self, out: &mut u64) -> i32
        requires { IsHeld self.old }
        ensures good { IsHeld self.new }
        ensures does { EndsThread out.old out.new self.old result self.new }
    {
        match self {
            Held::Recorded(it) => done(it.end()),
            Held::Repeated(it) => ended(it.end(), out),
            Held::LongRecorded(it) => ended(it.end(), out),
            Held::LongRepeated(it) => ended(it.end(), out),
            _ => OTHER_KIND,
        }
    }

    /// Begins a region with the next access.
    pub(crate) fn region(&mut self) -> i32
        requires { IsHeld self.old }
        ensures good { IsHeld self.new }
        ensures does { BeginsRegionNext self.old result self.new }
    {
        match self {
            Held::Recorded(it) => done(it.region()),
            Held::Repeated(it) => done(it.region()),
            Held::LongRecorded(it) => done(it.region()),
            Held::LongRepeated(it) => done(it.region()),
            _ => OTHER_KIND,
        }
    }

    /// Answers the threads that have asked this one: 1 if any has.
    pub(crate) fn safe_point(&mut self) -> i32
        requires { IsHeld self.old }
        ensures good { IsHeld self.new }
        ensures does { Passes self.old result self.new }
    {
        match self {
            Held::Recorded(it) => asked(it.safe_point()),
            Held::Repeated(it) => done(it.safe_point()),
            Held::LongRecorded(it) => asked(it.safe_point()),
            Held::LongRepeated(it) => done(it.safe_point()),
            _ => OTHER_KIND,
        }
    }

    /// Begins an access, and makes it if it can be made at once. A thread of a long run comes first, since it makes the most.
    #[tactic(auto, using(crate::proofs::Making::made_long))]
    #[inline(always)]
    pub(crate) fn access(&mut self, wanted: Access, out: &mut u64) -> i32
        requires { IsHeld self.old }
        ensures good { IsHeld self.new }
        ensures does { AccessesNext wanted out.old out.new self.old result self.new }
    {
        match self {
            Held::LongRecorded(it) => told(it.access(wanted), out),
            _ => self.access_of_other(wanted, out),
        }
    }

    // The same, whatever it stands for. What goes out of line is copied to memory here.
    #[inline(always)]
    fn access_of_other(&mut self, wanted: Access, out: &mut u64) -> i32
        requires { IsHeld self.old }
        ensures good { IsHeld self.new }
        ensures does { AccessesNext wanted out.old out.new self.old result self.new }
    {
        self.access_of_any(wanted, out)
    }

    // The same, out of line.
    #[tactic(auto, using(crate::proofs::Making::made_long))]
    #[inline(never)]
    fn access_of_any(&mut self, wanted: Access, out: &mut u64) -> i32
        requires { IsHeld self.old }
        ensures good { IsHeld self.new }
        ensures does { AccessesNext wanted out.old out.new self.old result self.new }
    {
        match self {
            Held::Recorded(it) => told_recorded(it.access(wanted), out),
            Held::Repeated(it) => told(it.access(wanted), out),
            Held::LongRecorded(it) => told(it.access(wanted), out),
            Held::LongRepeated(it) => told(it.access(wanted), out),
            _ => OTHER_KIND,
        }
    }

    /// Goes on with the access that was begun.
    pub(crate) fn poll(&mut self, out: &mut u64) -> i32
        requires { IsHeld self.old }
        ensures good { IsHeld self.new }
        ensures does { Polls out.old out.new self.old result self.new }
    {
        match self {
            Held::Recorded(it) => told_recorded(it.poll(), out),
            Held::Repeated(it) => told(it.poll(), out),
            Held::LongRecorded(it) => told(it.poll(), out),
            Held::LongRepeated(it) => told(it.poll(), out),
            _ => OTHER_KIND,
        }
    }
}
