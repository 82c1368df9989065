//! A thread that is run again.
ghost use Rattle.std.specs.Prelude.{◌≡◌, All, length};
ghost use Rattle.octet_parallel.specs.Calls.{script_in, log_in, players_in};
ghost use Rattle.octet_rerun.specs.Reruns.{made_by, recorded_of, IsFollowerOf};
ghost use Rattle.octet_host_script.specs.Spelled.{IsSpelled};

use counted_slot::{Counted, Fits};
use octet_host::{Answer, Left, Misuse, Stage, calls};
use octet_rerun::{Follower, Halt, Rerun};
use octet_session::{Access, SecondThread};
use std::alloc::Global;
use std::sync::Arc;

/// The follower that a thread leaves.
#[derive(Drop)]
pub(crate) struct LeftFollower {
    pub(crate) left: Left<Follower>,
}

// What lies on the desk of a second run is a follower of it, which has made all of its recording.
impl Fits for LeftFollower {
    type Tag = Rerun;

    ghost fits = { λ rerun it. IsFollowerOf rerun it.left.loose.value × (made_by it.left.loose.value ≡ recorded_of rerun it.left.loose.value.thread) };
}

/// Where a thread lays its follower once its session is handed back.
pub(crate) type Place = Counted<Option<LeftFollower>>;

/// What the threads of a second run share, and the bytes of the recording.
#[derive(Drop)]
pub struct Course {
    pub(crate) rerun: Rerun,
    pub(crate) script: Vec<u8>,
    pub(crate) log: Vec<u8>,
    // A place for each thread.
    pub(crate) desk: Vec<Place>,
    ghost spelled: { ∥ IsSpelled script.items log.items (script_in rerun.field) (log_in rerun.field).threads ∥₁ },
    ghost tags: { All (λ tag. tag ≡ rerun) desk.items },
    ghost places: { length desk.items ≡ players_in rerun.field },
}

/// A thread that is run again.
#[derive(Drop)]
pub struct Repeated {
    pub(crate) course: Arc<Course, Global>,
    pub(crate) thread: SecondThread,
    pub(crate) stage: Stage,
    pub(crate) objects: u16,
}

impl Repeated {
    ghost use Rattle.octet_host.specs.Calls.{Does, Goes, BeginsNext, IsNoRest, IsNotIdle, Accesses, GoesOn, Ends};
    ghost use Rattle.octet_host.specs.declared.stage.Stage.TheVariants as at;
    ghost use Rattle.octet_session.specs.Again.{HasMadeAll, IsSecondReason};
    ghost use Rattle.octet_host_script.specs.Threads.{rerun_of, IsRepeated, OnFollower};

    /// Marks the thread as running.
    pub fn start(&mut self) -> Result<(), Misuse>
        requires { IsRepeated self.old }
        ensures good { IsRepeated self.new }
        ensures does { OnFollower (Does (Goes at.Resting at.Idle) IsNoRest result) self.old self.new }
    {
        calls::start(&self.course.rerun, &mut self.thread, &mut self.stage)
    }

    /// Marks the thread as blocked.
    pub fn stop(&mut self) -> Result<(), Misuse>
        requires { IsRepeated self.old }
        ensures good { IsRepeated self.new }
        ensures does { OnFollower (Does (Goes at.Idle at.Resting) IsNotIdle result) self.old self.new }
    {
        calls::stop(&self.course.rerun, &mut self.thread, &mut self.stage)
    }

    /// Begins a region with the next access.
    pub fn region(&mut self) -> Result<(), Misuse>
        requires { IsRepeated self.old }
        ensures good { IsRepeated self.new }
        ensures does { OnFollower (Does BeginsNext IsNotIdle result) self.old self.new }
    {
        calls::region(&self.course.rerun, &mut self.thread, self.stage)
    }

    /// Does nothing: no thread waits for the answer of another one.
    pub fn safe_point(&mut self) -> Result<(), Misuse>
        requires { IsRepeated self.old }
        ensures good { IsRepeated self.new }
        ensures does { OnFollower (Does (Goes at.Idle at.Idle) IsNotIdle result) self.old self.new }
    {
        calls::safe_point(&self.course.rerun, &mut self.thread, self.stage)
    }

    /// Begins an access, and makes it if it can be made at once.
    pub fn access(&mut self, wanted: Access) -> Answer<Halt>
        requires { IsRepeated self.old }
        ensures good { IsRepeated self.new }
        ensures does { OnFollower (λ s v t w. Accesses (λ asked. IsSecondReason (rerun_of self.new) asked self.new.thread) self.old.objects wanted s v result t w) self.old self.new }
    {
        calls::access(
            &self.course.rerun,
            &mut self.thread,
            &mut self.stage,
            self.objects,
            wanted,
        )
    }

    /// Goes on with the access that was begun.
    pub fn poll(&mut self) -> Answer<Halt>
        requires { IsRepeated self.old }
        ensures good { IsRepeated self.new }
        ensures does { OnFollower (λ s v t w. GoesOn (λ asked. IsSecondReason (rerun_of self.new) asked self.new.thread) s v result t w) self.old self.new }
    {
        calls::poll(&self.course.rerun, &mut self.thread, &mut self.stage)
    }

    /// Ends the thread, which has then made all of its recording.
    pub fn end(&mut self) -> Answer<Halt>
        requires { IsRepeated self.old }
        ensures good { IsRepeated self.new }
        ensures does { OnFollower (λ s v t w. Ends (λ asked. IsSecondReason (rerun_of self.new) asked self.new.thread) (HasMadeAll (rerun_of self.new) self.new.thread) s v result t w) self.old self.new }
    {
        calls::end(&self.course.rerun, &mut self.thread, &mut self.stage)
    }
}
