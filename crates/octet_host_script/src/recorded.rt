//! A thread that is recorded.
ghost use Rattle.std.specs.Prelude.{◌≡◌, All, length, OnOk};
ghost use Rattle.octet_recorder.specs.Tracks.{threads_in, number_of, IsTrackOf};
ghost use Rattle.octet_session.specs.Recording.{TrackRests};
ghost use Rattle.octet_host.specs.Sealed.{IsSealed};

use counted_slot::{Counted, Fits};
use octet_host::{Answer, Left, Misuse, Stage, calls};
use octet_recorder::{Recorder, Track};
use octet_session::Access;
use once_cell::race::{Note, OnceBox};
use std::alloc::Global;
use std::convert::Infallible;
use std::sync::Arc;

/// How many words lie between what two threads write: two cache lines.
pub(crate) const CACHE_PADDING: usize = 16;

/// What is under the seal of a thread: which track it has left.
#[derive(Drop)]
pub struct SealedTrack;

impl Fits for SealedTrack {
    type Tag = Track;

    ghost fits = { λ _ _. Unit {0} };
}

/// A note of what is under a seal.
pub type TrackNote = Note<Counted<SealedTrack>>;

/// The seals of a recorder's threads, in order.
#[derive(Drop)]
pub(crate) struct SealedRun {
    pub(crate) recorder: Recorder,
    pub(crate) seals: Vec<OnceBox<Counted<SealedTrack>>>,
}

/// The track that a thread leaves, and the note of it.
#[derive(Drop)]
pub(crate) struct NotedTrack {
    pub(crate) track: Track,
    pub(crate) note: TrackNote,
}

/// The same where other threads do not see it.
#[derive(Drop)]
pub(crate) struct LeftTrack {
    pub(crate) left: Left<NotedTrack>,
}

// What lies on the desk of a recorder is a track of it, off or blocked, which is the one under the seal of its thread.
impl Fits for LeftTrack {
    type Tag = SealedRun;

    ghost fits = { λ run it. IsTrackOf run.recorder it.left.loose.value.track × TrackRests it.left.loose.value.track × IsSealed run.seals.items (number_of it.left.loose.value.track) it.left.loose.value.track it.left.loose.value.note };
}

/// Where a thread lays its track once its session is handed back.
pub(crate) type Place = Counted<Option<LeftTrack>>;

/// What the threads of a recorded run share.
#[derive(Drop)]
pub struct Heap {
    pub(crate) recorder: Recorder,
    // A seal for each thread.
    pub(crate) seals: Vec<OnceBox<Counted<SealedTrack>>>,
    // A place for each thread.
    pub(crate) desk: Vec<Place>,
    ghost tags: { All (λ tag. tag ≡ record { recorder = recorder; seals = seals }) desk.items },
    ghost places: { length desk.items ≡ threads_in recorder },
    ghost sealed: { length seals.items ≡ threads_in recorder },
}

/// A thread that is recorded.
#[derive(Drop)]
pub struct Recorded {
    pub(crate) heap: Arc<Heap, Global>,
    pub(crate) track: Track,
    pub(crate) stage: Stage,
    pub(crate) objects: u16,
    // So that what two threads write lies apart.
    pub(crate) padding: [u64; CACHE_PADDING],
}

impl Recorded {
    ghost use Rattle.octet_host.specs.Calls.{Does, Goes, BeginsNext, IsNoRest, IsNotIdle, made_of, Accesses, GoesOn};
    ghost use Rattle.octet_host.specs.declared.stage.Stage.TheVariants as at;
    ghost use Rattle.octet_session.specs.Recording.{AnswersAndMakes, IsTrackReason};
    ghost use Rattle.octet_host_script.specs.Threads.{IsRecorded, OnTrack, Glances};

    /// Marks the thread as running.
    pub fn start(&mut self) -> Result<(), Misuse>
        requires { IsRecorded self.old }
        ensures good { IsRecorded self.new }
        ensures does { OnTrack (Does (Goes at.Resting at.Idle) IsNoRest result) self.old self.new }
    {
        calls::start(&self.heap.recorder, &mut self.track, &mut self.stage)
    }

    /// Marks the thread as blocked.
    pub fn stop(&mut self) -> Result<(), Misuse>
        requires { IsRecorded self.old }
        ensures good { IsRecorded self.new }
        ensures does { OnTrack (Does (Goes at.Idle at.Resting) IsNotIdle result) self.old self.new }
    {
        calls::stop(&self.heap.recorder, &mut self.track, &mut self.stage)
    }

    /// Begins a region with the next access.
    pub fn region(&mut self) -> Result<(), Misuse>
        requires { IsRecorded self.old }
        ensures good { IsRecorded self.new }
        ensures does { OnTrack (Does BeginsNext IsNotIdle result) self.old self.new }
    {
        calls::region(&self.heap.recorder, &mut self.track, self.stage)
    }

    /// Answers the threads that have asked this one. Tells whether any has.
    pub fn safe_point(&mut self) -> Result<bool, Misuse>
        requires { IsRecorded self.old }
        ensures good { IsRecorded self.new }
        ensures run { self.new.heap ≡ self.old.heap }
        ensures does { Glances result self.old self.new }
    {
        self.stage.idle()?;
        Ok(self.heap.recorder.safe_point(&mut self.track))
    }

    /// Begins an access, and makes it if it can be made at once.
    #[inline(always)]
    pub fn access(&mut self, wanted: Access) -> Answer<Infallible>
        requires { IsRecorded self.old }
        ensures good { IsRecorded self.new }
        ensures does { OnTrack (λ s v t w. Accesses (λ asked. IsTrackReason asked self.old.track self.new.track) self.old.objects wanted s v result t w) self.old self.new }
        ensures made { OnOk (made_of result) (AnswersAndMakes wanted self.old.track self.new.track) }
    {
        calls::access(
            &self.heap.recorder,
            &mut self.track,
            &mut self.stage,
            self.objects,
            wanted,
        )
    }

    /// Goes on with the access that was begun.
    pub fn poll(&mut self) -> Answer<Infallible>
        requires { IsRecorded self.old }
        ensures good { IsRecorded self.new }
        ensures does { OnTrack (λ s v t w. GoesOn (λ asked. IsTrackReason asked self.old.track self.new.track) s v result t w) self.old self.new }
    {
        calls::poll(&self.heap.recorder, &mut self.track, &mut self.stage)
    }

    /// Ends the thread. It is blocked then, since its run is whole wherever its threads stop.
    pub fn end(&mut self) -> Result<(), Misuse>
        requires { IsRecorded self.old }
        ensures good { IsRecorded self.new }
        ensures does { OnTrack (Does (Goes at.Idle at.Resting) IsNotIdle result) self.old self.new }
    {
        self.stop()
    }
}
