//! A thread of a run of any length that is made again.
ghost use Rattle.std.specs.Prelude.{◌≡◌, All, length};
ghost use Rattle.octet_follow.specs.Calls.{followers_in};
ghost use Rattle.octet_host.specs.Sealed.{IsSealed};
ghost use Rattle.octet_host_long.specs.Tailed.{IsTailedOf};

use counted_slot::{Counted, Fits};
use octet_host::{Answer, Left, Misuse, Stage, calls};
use octet_session::Access;
use octet_stream::{Halt, LongFollower, LongRerun};
use octet_tail::{Tailed, TailedThread};
use once_cell::race::{Note, OnceBox};
use std::alloc::Global;
use std::sync::Arc;

/// What drives a thread: its follower, with its last accesses, if they are noted.
pub type Follower = TailedThread<LongFollower>;

/// What is under the seal of a thread: which follower it has left.
#[derive(Drop)]
pub struct SealedFollower;

impl Fits for SealedFollower {
    type Tag = Follower;

    ghost fits = { λ _ _. Unit {0} };
}

/// A note of what is under a seal.
pub type FollowerNote = Note<Counted<SealedFollower>>;

/// The seals of a run's threads, in order.
#[derive(Drop)]
pub(crate) struct SealedRerun {
    pub(crate) rerun: Tailed<LongRerun>,
    pub(crate) seals: Vec<OnceBox<Counted<SealedFollower>>>,
}

/// The follower that a thread leaves, and the note of it.
#[derive(Drop)]
pub(crate) struct NotedFollower {
    pub(crate) follower: Follower,
    pub(crate) note: FollowerNote,
}

/// The same where other threads do not see it.
#[derive(Drop)]
pub(crate) struct LeftFollower {
    pub(crate) left: Left<NotedFollower>,
}

// What lies on the desk of a run is a follower of it, which is the one under the seal of its thread.
impl Fits for LeftFollower {
    type Tag = SealedRerun;

    ghost fits = { λ sealed it. IsTailedOf sealed.rerun.session it.left.loose.value.follower × IsSealed sealed.seals.items it.left.loose.value.follower.thread.follower.number it.left.loose.value.follower it.left.loose.value.note };
}

/// Where a thread lays its follower once its session is handed back.
pub(crate) type Place = Counted<Option<LeftFollower>>;

/// What the threads of a run share that is made again.
#[derive(Drop)]
pub struct LongCourse {
    pub(crate) rerun: Tailed<LongRerun>,
    // How many last accesses each of them notes.
    pub(crate) last: u16,
    // A seal for each thread.
    pub(crate) seals: Vec<OnceBox<Counted<SealedFollower>>>,
    // A place for each thread.
    pub(crate) desk: Vec<Place>,
    ghost tags: { All (λ tag. tag ≡ record { rerun = rerun; seals = seals }) desk.items },
    ghost places: { length desk.items ≡ followers_in rerun.session.course },
    ghost sealed: { length seals.items ≡ followers_in rerun.session.course },
}

/// A thread that is made again.
#[derive(Drop)]
pub struct LongRepeated {
    pub(crate) course: Arc<LongCourse, Global>,
    pub(crate) thread: Follower,
    pub(crate) stage: Stage,
    pub(crate) objects: u16,
}

impl LongRepeated {
    ghost use Rattle.octet_host.specs.Calls.{Does, Goes, BeginsNext, IsNoRest, IsNotIdle, Accesses, GoesOn, Ends};
    ghost use Rattle.octet_host.specs.declared.stage.Stage.TheVariants as at;
    ghost use Rattle.octet_stream.specs.Followers.{HasFollowed, IsFollowerReason};
    ghost use Rattle.octet_host_long.specs.Threads.{rerun_of, IsLongRepeated, OnFollower};

    /// Marks the thread as running.
    pub fn start(&mut self) -> Result<(), Misuse>
        requires { IsLongRepeated self.old }
        ensures good { IsLongRepeated self.new }
        ensures does { OnFollower (Does (Goes at.Resting at.Idle) IsNoRest result) self.old self.new }
    {
        calls::start(&self.course.rerun, &mut self.thread, &mut self.stage)
    }

    /// Marks the thread as blocked.
    pub fn stop(&mut self) -> Result<(), Misuse>
        requires { IsLongRepeated self.old }
        ensures good { IsLongRepeated self.new }
        ensures does { OnFollower (Does (Goes at.Idle at.Resting) IsNotIdle result) self.old self.new }
    {
        calls::stop(&self.course.rerun, &mut self.thread, &mut self.stage)
    }

    /// Begins a region with the next access.
    pub fn region(&mut self) -> Result<(), Misuse>
        requires { IsLongRepeated self.old }
        ensures good { IsLongRepeated self.new }
        ensures does { OnFollower (Does BeginsNext IsNotIdle result) self.old self.new }
    {
        calls::region(&self.course.rerun, &mut self.thread, self.stage)
    }

    /// Does nothing: no thread waits for the answer of another one.
    pub fn safe_point(&mut self) -> Result<(), Misuse>
        requires { IsLongRepeated self.old }
        ensures good { IsLongRepeated self.new }
        ensures does { OnFollower (Does (Goes at.Idle at.Idle) IsNotIdle result) self.old self.new }
    {
        calls::safe_point(&self.course.rerun, &mut self.thread, self.stage)
    }

    /// Begins an access, and makes it if it can be made at once.
    pub fn access(&mut self, wanted: Access) -> Answer<Halt>
        requires { IsLongRepeated self.old }
        ensures good { IsLongRepeated self.new }
        ensures does { OnFollower (λ s v t w. Accesses (λ asked. IsFollowerReason (rerun_of self.new) asked self.new.thread.thread) self.old.objects wanted s v result t w) self.old self.new }
    {
        calls::access(
            &self.course.rerun,
            &mut self.thread,
            &mut self.stage,
            self.objects,
            wanted,
        )
    }

    /// Goes on with the access that was begun.
    pub fn poll(&mut self) -> Answer<Halt>
        requires { IsLongRepeated self.old }
        ensures good { IsLongRepeated self.new }
        ensures does { OnFollower (λ s v t w. GoesOn (λ asked. IsFollowerReason (rerun_of self.new) asked self.new.thread.thread) s v result t w) self.old self.new }
    {
        calls::poll(&self.course.rerun, &mut self.thread, &mut self.stage)
    }

    /// Ends the thread, which has then made all that was recorded of it.
    pub fn end(&mut self) -> Answer<Halt>
        requires { IsLongRepeated self.old }
        ensures good { IsLongRepeated self.new }
        ensures does { OnFollower (λ s v t w. Ends (λ asked. IsFollowerReason (rerun_of self.new) asked self.new.thread.thread) (HasFollowed self.new.thread.thread) s v result t w) self.old self.new }
    {
        calls::end(&self.course.rerun, &mut self.thread, &mut self.stage)
    }
}
