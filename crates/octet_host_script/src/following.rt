//! A recording, from its bytes to the end of a run by it.
ghost use Rattle.std.specs.Prelude.{◌≡◌, ◌↔◌, ◌⊎◌, [], All, Any, length, true, IfOk, IfErr, OnOk};
ghost use Rattle.std.specs.Arc.{arc_value};
ghost use Rattle.std.specs.Option.{option_map};
ghost use Rattle.octet_parallel.specs.Calls.{script_in, log_in, players_in};
ghost use Rattle.octet_rerun.specs.Reruns.{made_by, recorded_of, IsFollowerOf, EachAtStart, EachAtEnd};
ghost use Rattle.octet_host.specs.declared.fault.CloseFault.TheVariants.{OutOfMemory as MemoryRefused, TwoRuns as OfTwoRuns};
ghost use Rattle.octet_host.specs.HandedBack.{AreAsOne};
ghost use Rattle.octet_host_script.specs.HandedBack.{IsRepeatedAt, IsRepeatedAmong, IsRepeatedAs, LeavesSome, RefusesRepeated};
ghost use Rattle.octet_host_script.specs.Opened.{EachFirstAgain, Follows, IsFirstAgain};
ghost use Rattle.octet_host_script.specs.Records.{RepeatsRecording};
ghost use Rattle.octet_host_script.specs.Refusals.{RefusesToFollow};
ghost use Rattle.octet_host_script.specs.Spelled.{IsOf, IsSpelled};
ghost use Rattle.octet_host_script.specs.Threads.{course_of, IsRepeated};

use crate::fault::FollowFault;
use crate::kept::Kept;
use crate::opening::objects_of;
use crate::repeated::{Course, LeftFollower, Place, Repeated};
use octet_host::{CloseFault, HandIn, Left, Stage, hand_in_all, lay, places};
use octet_log::{Digest, Loaded, decode, digest};
use octet_model::{List, Log, MAX_LOG_FILE, MAX_SCRIPT_FILE, OutOfMemory, Outcome, Script};
use octet_rerun::{Follower, Rerun};
use octet_script::parse;
use octet_session::SecondThread;
use std::alloc::Global;
use std::sync::Arc;

// Whether a log of this digest, or of none, is of the script of this text.
fn is_of(text: &[u8], named: Option<Digest>) -> bool
    ensures { (result ≡ true) ↔ IsOf text.now (option_map (λ digest. digest.bytes) named) }
{
    match named {
        Some(named) => named == digest(text),
        None => true,
    }
}

// The script and the log that bytes spell.
fn loaded(alloc: Global, text: &[u8], log: &[u8]) -> Result<(Script, Log), FollowFault>
    ensures spelled { IfOk result (λ loaded. IsSpelled text.now log.now loaded.0 loaded.1.threads) }
    ensures refused { IfErr result (RefusesToFollow text.now log.now) }
{
    if text.len() > MAX_SCRIPT_FILE as usize || log.len() > MAX_LOG_FILE as usize {
        return Err(FollowFault::TooLong);
    }
    let script = parse(alloc, text)?;
    let Loaded { log, digest } = decode(alloc, log)?;
    if !is_of(text, digest) {
        return Err(FollowFault::Misfit);
    }
    Ok((script, log))
}

// What the threads of a second run share.
fn shared(
    alloc: Global,
    rerun: Rerun,
    threads: usize,
    text: &[u8],
    log: &[u8],
) -> Result<Arc<Course, Global>, OutOfMemory>
    requires threads { threads ≡ players_in rerun.field }
    requires spelled { ∥ IsSpelled text.now log.now (script_in rerun.field) (log_in rerun.field).threads ∥₁ }
    ensures { IfOk result (λ course. (arc_value course).rerun ≡ rerun) }
{
    let desk = places(alloc, threads, &rerun)?;
    let course = Course {
        rerun,
        script: Vec::from_slice(alloc, text)?,
        log: Vec::from_slice(alloc, log)?,
        desk,
    };
    match Arc::new(alloc, course) {
        Ok(course) => Ok(course),
        Err(_) => Err(OutOfMemory),
    }
}

// The thread of a follower, which is off.
fn seat(
    course: &Arc<Course, Global>,
    objects: u16,
    fuel: u32,
    follower: Follower,
) -> Result<Repeated, OutOfMemory>
    requires own { IsFollowerOf (arc_value course.now).rerun follower }
    requires none_made { made_by follower ≡ [] }
    requires objects { objects ≡ length (script_in (arc_value course.now).rerun.field).objects }
    requires fuel { fuel ≡ (script_in (arc_value course.now).rerun.field).fuel }
    ensures good { IfOk result IsRepeated }
    ensures first { IfOk result (IsFirstAgain (arc_value course.now).rerun follower.thread) }
    ensures share { IfOk result (λ it. arc_value it.course ≡ arc_value course.now) }
{
    Ok(Repeated {
        course: Arc::try_clone(course)?,
        thread: SecondThread::new(follower, fuel),
        stage: Stage::Resting,
        objects,
    })
}

// A thread for each follower.
fn seat_all(
    alloc: Global,
    course: &Arc<Course, Global>,
    objects: u16,
    fuel: u32,
    followers: Vec<Follower>,
) -> Result<Vec<Repeated>, OutOfMemory>
    requires start { EachAtStart (arc_value course.now).rerun followers.items }
    requires objects { objects ≡ length (script_in (arc_value course.now).rerun.field).objects }
    requires fuel { fuel ≡ (script_in (arc_value course.now).rerun.field).fuel }
    ensures count { IfOk result (λ threads. length threads.items ≡ length followers.items) }
    ensures good { IfOk result (λ threads. All IsRepeated threads.items) }
    ensures first { IfOk result (λ threads. EachFirstAgain (arc_value course.now).rerun threads.items) }
    ensures share { IfOk result (λ threads. All (λ it. arc_value it.course ≡ arc_value course.now) threads.items) }
{
    let mut threads = Vec::new(alloc);
    for follower in followers {
        threads.push(seat(course, objects, fuel, follower)?)?;
    }
    Ok(threads)
}

/// The threads of a recording, off. Refused where the bytes are no script and log of it, or the log leaves conflicts
/// unordered.
#[tactic(auto, using(crate::proofs::Refused::refused_for))]
pub fn follow(alloc: Global, text: &[u8], bytes: &[u8]) -> Result<Vec<Repeated>, FollowFault>
    ensures good { IfOk result (λ threads. All IsRepeated threads.items) }
    ensures follows { IfOk result (λ threads. Follows text.now bytes.now threads.items) }
    ensures refused { IfErr result (RefusesToFollow text.now bytes.now) }
{
    let (script, log) = loaded(alloc, text, bytes)?;
    let (rerun, followers) = match Rerun::new(alloc, &script, &log) {
        Ok(new) => new,
        Err(why) => return Err(FollowFault::from(why)),
    };
    let followers = followers.into_vec();
    let course = shared(alloc, rerun, followers.len(), text, bytes)?;
    let objects = objects_of(&script);
    Ok(seat_all(alloc, &course, objects, script.fuel, followers)?)
}

impl Course {
    // Lays a follower down, if its place is there and free.
    fn lay(&self, number: usize, left: Left<Follower>)
        requires own { IsFollowerOf self.now.rerun left.loose.value }
        requires ended { made_by left.loose.value ≡ recorded_of self.now.rerun left.loose.value.thread }
    {
        if let Some(place) = self.desk.get(number) {
            lay(place, LeftFollower { left });
        }
    }
}

impl HandIn for Repeated {
    type Shared = Course;

    // What it leaves is what was recorded of it.
    type Note = ();

    ghost IsGood = { IsRepeated };

    ghost stage = { λ it. it.stage };

    ghost shared = { λ it. arc_value it.course };

    ghost IsAt = { IsRepeatedAt };

    ghost IsAmong = { IsRepeatedAmong };

    ghost IsNotWhole = { LeavesSome };

    ghost IsTooLong = { λ _. ⊥ };

    ghost IsNoted = { λ _ _ _. Unit {0} };

    fn hand_in(
        self,
        alloc: Global,
        number: usize,
        threads: usize,
    ) -> Result<(Option<Course>, ()), CloseFault> {
        let Repeated {
            course,
            thread,
            stage,
            ..
        } = self;
        let (Stage::Resting | Stage::Ended) = stage else {
            return Err(CloseFault::StillRunning);
        };
        let mut follower = thread.into_follower();
        if course.desk.len() != threads {
            return Err(CloseFault::OtherSessions);
        }
        if follower.thread() as usize != number {
            return Err(CloseFault::OutOfOrder);
        }
        if let Err(_halt) = course.rerun.finish(&mut follower) {
            return Err(CloseFault::NotWhole);
        }
        let left = Left::new(alloc, follower)?;
        course.lay(number, left);
        Ok((Arc::into_inner(course), ()))
    }
}

// The followers that lie on a desk, in order.
fn followers_on(
    alloc: Global,
    rerun: &Rerun,
    desk: Vec<Place>,
) -> Result<List<Follower>, CloseFault>
    requires tags { All (λ tag. tag ≡ rerun.now) desk.items }
    ensures all { IfOk result (λ followers. length followers ≡ length desk.items) }
    ensures ended { IfOk result (EachAtEnd rerun.now) }
    ensures refused { IfErr result (λ fault. (fault ≡ MemoryRefused) ⊎ (fault ≡ OfTwoRuns)) }
{
    let mut followers = List::new(alloc);
    for place in desk {
        let Some(left) = place.into_inner() else {
            return Err(CloseFault::TwoRuns);
        };
        let follower = left.left.into_inner();
        if follower.thread() as usize != followers.len() {
            return Err(CloseFault::TwoRuns);
        }
        followers.push(follower)?;
    }
    Ok(followers)
}

/// Ends the run. Every thread of the recording is handed in, in order, off or blocked or over, and has made all of it.
pub fn close_repeated(alloc: Global, threads: Vec<Repeated>) -> Result<Kept, CloseFault>
    requires { All IsRepeated threads.items }
    ensures as_one { OnOk result (AreAsOne IsRepeatedAs threads.items) }
    ensures repeats { IfOk result (λ kept. Any (λ it. RepeatsRecording (course_of it) kept) threads.items) }
    ensures refused { IfErr result (RefusesRepeated threads.items) }
{
    let (course, _) = hand_in_all(alloc, threads)?;
    let Course {
        rerun,
        script,
        log,
        desk,
    } = course;
    let followers = followers_on(alloc, &rerun, desk)?;
    let Outcome { heap, .. } = rerun.close(alloc, followers)?.outcome;
    Ok(Kept {
        script,
        log,
        values: heap,
    })
}
