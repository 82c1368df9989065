//! A run of any length that is made again, from its beginning to its end.
ghost use Rattle.std.specs.Prelude.{◌≡◌, ◌<◌, ◌≤◌, ◌⊎◌, [], All, Any, length, map, IfOk, IfErr, IfSome, OnOk};
ghost use Rattle.std.specs.Arc.{arc_value};
ghost use Rattle.octet_model.specs.declared.limits.TheConstants.{MAX_THREADS};
ghost use Rattle.octet_rule.specs.declared.limits.TheConstants.{MAX_OBJECTS_OF_HEAP};
ghost use Rattle.octet_marks.specs.declared.piece.Head.{Head};
ghost use Rattle.octet_follow.specs.Calls.{followers_in};
ghost use Rattle.octet_stream.specs.Followers.{EachOf};
ghost use Rattle.octet_tail.specs.Tails.{IsTail};
ghost use Rattle.octet_host.specs.declared.fault.CloseFault.TheVariants.{OutOfMemory as MemoryRefused, TwoRuns as OfTwoRuns};
ghost use Rattle.octet_host.specs.HandedBack.{AreAsOne};
ghost use Rattle.octet_host.specs.Sealed.{IsSealed, AreFound, ShareOne};
ghost use Rattle.octet_host_long.specs.Closed.{HaveMade, IsClosedAgain};
ghost use Rattle.octet_host_long.specs.HandedBack.{IsRepeatedAt, IsRepeatedAmong, IsRepeatedAs, RefusesRepeated};
ghost use Rattle.octet_host_long.specs.Opened.{head_with, IsSeatAgain, IsInlet, Follows};
ghost use Rattle.octet_host_long.specs.Tailed.{HasRoom, IsTailedOf};
ghost use Rattle.octet_host_long.specs.Theirs.{RepeatsThreads};
ghost use Rattle.octet_host_long.specs.Threads.{course_of, IsLongRepeated};

use crate::inlet::Inlet;
use crate::opening::ROOM;
use crate::repeated::{
    Follower, FollowerNote, LeftFollower, LongCourse, LongRepeated, NotedFollower, Place,
    SealedFollower, SealedRerun,
};
use octet_host::{CloseFault, HandIn, Left, Stage, agree, hand_in_all, lay, places, seal, seals};
use octet_log::digest;
use octet_marks::Head;
use octet_model::{List, OutOfMemory};
use octet_stream::{Feeder, LongFollower, LongRerun};
use octet_tail::{Made, Tail, Tailed};
use std::alloc::Global;
use std::mem;
use std::sync::Arc;

// What the threads of a run share that is made again.
fn shared(
    alloc: Global,
    rerun: LongRerun,
    threads: usize,
    last: u16,
) -> Result<Arc<LongCourse, Global>, OutOfMemory>
    requires { threads ≡ followers_in rerun.course }
    ensures rerun { IfOk result (λ course. (arc_value course).rerun.session ≡ rerun) }
    ensures last { IfOk result (λ course. (arc_value course).last ≡ last) }
{
    let sealed = SealedRerun {
        rerun: Tailed { session: rerun },
        seals: seals(alloc, threads)?,
    };
    let desk = places(alloc, threads, &sealed)?;
    let SealedRerun { rerun, seals } = sealed;
    let course = LongCourse {
        rerun,
        last,
        seals,
        desk,
    };
    match Arc::new(alloc, course) {
        Ok(course) => Ok(course),
        Err(_) => Err(OutOfMemory),
    }
}

// Room for so many last accesses of a thread, if any are to be noted.
fn tail_of(alloc: Global, last: u16) -> Result<Option<Tail>, OutOfMemory>
    ensures room { IfOk result (HasRoom last) }
    ensures none { IfOk result (λ tail. IfSome tail (IsTail [])) }
{
    if last == 0 {
        return Ok(None);
    }
    Ok(Some(Tail::new(alloc, usize::from(last))?))
}

// The thread of a follower, which is off.
fn seat(
    alloc: Global,
    course: &Arc<LongCourse, Global>,
    objects: u16,
    thread: LongFollower,
) -> Result<LongRepeated, OutOfMemory>
    ensures seat { IfOk result (IsSeatAgain (arc_value course.now).rerun.session objects (arc_value course.now).last) }
    ensures thread { IfOk result (λ it. it.thread.thread ≡ thread) }
    ensures share { IfOk result (λ it. arc_value it.course ≡ arc_value course.now) }
{
    let tail = tail_of(alloc, course.last)?;
    Ok(LongRepeated {
        course: Arc::try_clone(course)?,
        thread: Follower { thread, tail },
        stage: Stage::Resting,
        objects,
    })
}

// A thread for each follower.
fn seat_all(
    alloc: Global,
    course: &Arc<LongCourse, Global>,
    objects: u16,
    followers: Vec<LongFollower>,
) -> Result<Vec<LongRepeated>, OutOfMemory>
    ensures seats { IfOk result (λ threads. All (IsSeatAgain (arc_value course.now).rerun.session objects (arc_value course.now).last) threads.items) }
    ensures followers { IfOk result (λ threads. map (λ it. it.thread.thread) threads.items ≡ followers.items) }
    ensures share { IfOk result (λ threads. All (λ it. arc_value it.course ≡ arc_value course.now) threads.items) }
{
    let mut threads = Vec::new(alloc);
    for follower in followers {
        threads.push(seat(alloc, course, objects, follower)?)?;
    }
    Ok(threads)
}

// What a marks file of such a run begins with.
fn shared_head(
    alloc: Global,
    threads: u8,
    starts: &[u64],
    declared: &[u8],
) -> Result<Arc<Head, Global>, OutOfMemory>
    ensures { IfOk result (λ head. arc_value head ≡ head_with threads starts.now declared.now) }
{
    let head = head_of(alloc, threads, starts, declared)?;
    match Arc::new(alloc, head) {
        Ok(head) => Ok(head),
        Err(_) => Err(OutOfMemory),
    }
}

/// What a marks file of such a run begins with: its digest is that of the declared bytes.
pub fn head_of(
    alloc: Global,
    threads: u8,
    starts: &[u64],
    declared: &[u8],
) -> Result<Head, OutOfMemory>
    ensures { IfOk result (λ head. head ≡ head_with threads starts.now declared.now) }
{
    Ok(Head {
        threads,
        starts: List::from_vec(Vec::from_slice(alloc, starts)?),
        declared: digest(declared),
    })
}

// A stream for each feeder.
fn inlets_of(
    alloc: Global,
    head: &Arc<Head, Global>,
    feeders: Vec<Feeder>,
) -> Result<Vec<Inlet>, OutOfMemory>
    ensures each { IfOk result (λ inlets. All (IsInlet (arc_value head.now)) inlets.items) }
    ensures feeders { IfOk result (λ inlets. map (λ inlet. inlet.reader.feeder) inlets.items ≡ feeders.items) }
{
    let mut inlets = Vec::new(alloc);
    for feeder in feeders {
        inlets.push(Inlet::new(alloc, Arc::try_clone(head)?, feeder))?;
    }
    Ok(inlets)
}

/// The threads of a run that is made again, off, over objects with these starting values, and the stream of each. Each is
/// fed a marks file, whose head has to be of such a run with the digest of the declared bytes, and notes so many of its last
/// accesses. Refused only where memory is.
pub fn follow(
    alloc: Global,
    threads: u8,
    starts: &[u64],
    declared: &[u8],
    last: u16,
) -> Result<(Vec<LongRepeated>, Vec<Inlet>), OutOfMemory>
    requires threads { (0 < threads) × (threads ≤ MAX_THREADS) }
    requires objects { length starts.now ≤ MAX_OBJECTS_OF_HEAP }
    ensures good { IfOk result (λ opened. All IsLongRepeated opened.0.items) }
    ensures follows { IfOk result (λ opened. Follows threads starts.now declared.now last opened.0.items opened.1.items) }
{
    let head = shared_head(alloc, threads, starts, declared)?;
    let (rerun, followers, feeders) = LongRerun::new(alloc, threads, &head.starts, ROOM)?;
    let course = shared(alloc, rerun, usize::from(threads), last)?;
    let sessions = seat_all(alloc, &course, starts.len() as u16, followers.into_vec())?;
    let inlets = inlets_of(alloc, &head, feeders.into_vec())?;
    Ok((sessions, inlets))
}

impl LongCourse {
    // Lays a follower down, if its place is there and free.
    fn lay(&self, number: usize, left: Left<NotedFollower>)
        requires own { IsTailedOf self.now.rerun.session left.loose.value.follower }
        requires sealed { IsSealed self.now.seals.items left.loose.value.follower.thread.follower.number left.loose.value.follower left.loose.value.note }
    {
        if let Some(place) = self.desk.get(number) {
            lay(place, LeftFollower { left });
        }
    }
}

impl HandIn for LongRepeated {
    type Shared = LongCourse;

    type Note = FollowerNote;

    ghost IsGood = { IsLongRepeated };

    ghost stage = { λ it. it.stage };

    ghost shared = { λ it. arc_value it.course };

    ghost IsAt = { IsRepeatedAt };

    ghost IsAmong = { IsRepeatedAmong };

    ghost IsNotWhole = { λ _. ⊥ };

    ghost IsTooLong = { λ _. ⊥ };

    ghost IsNoted = { λ number it note. IsSealed (arc_value it.course).seals.items number it.thread note };

    fn hand_in(
        self,
        alloc: Global,
        number: usize,
        threads: usize,
    ) -> Result<(Option<LongCourse>, FollowerNote), CloseFault> {
        let LongRepeated {
            course,
            thread,
            stage,
            ..
        } = self;
        let (Stage::Resting | Stage::Ended) = stage else {
            return Err(CloseFault::StillRunning);
        };
        if course.desk.len() != threads {
            return Err(CloseFault::OtherSessions);
        }
        if thread.thread.thread() as usize != number {
            return Err(CloseFault::OutOfOrder);
        }
        let mut note = seal(
            alloc,
            course.seals.as_slice(),
            number,
            SealedFollower,
            &thread,
        )?;
        let noted = NotedFollower {
            follower: thread,
            note: note.again(),
        };
        let left = Left::new(alloc, noted)?;
        course.lay(number, left);
        Ok((Arc::into_inner(course), note))
    }
}

// What the threads of a run leave on its desk, in order, and what each has made: those of which these are the notes.
fn followers_on(
    alloc: Global,
    sealed: &SealedRerun,
    desk: Vec<Place>,
    notes: Vec<FollowerNote>,
) -> Result<(List<LongFollower>, List<Made>), CloseFault>
    requires tags { All (λ tag. tag ≡ sealed.now) desk.items }
    ensures all { IfOk result (λ left. length left.0 ≡ length desk.items) }
    ensures each { IfOk result (λ left. EachOf sealed.now.rerun.session left.0) }
    ensures made { IfOk result (λ left. HaveMade left.0 left.1) }
    ensures found { IfOk result (λ left. AreFound (λ it. it.thread) sealed.now.seals.items notes.items left.0) }
    ensures refused { IfErr result (λ fault. (fault ≡ MemoryRefused) ⊎ (fault ≡ OfTwoRuns)) }
{
    let mut followers = List::new(alloc);
    let mut made = List::new(alloc);
    let mut noted = notes.into_iter();
    for place in desk {
        let Some(left) = place.into_inner() else {
            return Err(CloseFault::TwoRuns);
        };
        let Some(mut mine) = noted.next() else {
            return Err(CloseFault::TwoRuns);
        };
        let NotedFollower { follower, mut note } = left.left.into_inner();
        agree(&mut mine, &mut note);
        let Follower { thread, tail } = follower;
        if thread.thread() as usize != followers.len() {
            return Err(CloseFault::TwoRuns);
        }
        let accesses = thread.accesses();
        made.push(Made { accesses, tail })?;
        followers.push(thread)?;
    }
    Ok((followers, made))
}

/// What a run leaves that was made again.
#[derive(Drop)]
pub struct ClosedAgain {
    /// The objects' values.
    pub values: List<u64>,
    /// What each thread has made, in order.
    pub made: List<Made>,
    /// How many last accesses of each were to be noted.
    pub last: u16,
}

impl ClosedAgain {
    /// What each thread has made, with its last accesses. They are here no more.
    pub fn take_made(&mut self, alloc: Global) -> List<Made>
        ensures made { result ≡ self.old.made }
        ensures gone { self.new ≡ record { values = self.old.values; made = []; last = 0 } }
    {
        self.last = 0;
        mem::replace(&mut self.made, List::new(alloc))
    }
}

/// Ends a run that is made again. Every thread of it is handed in, in order, off, blocked or ended; else the threads are gone.
pub fn close_repeated(alloc: Global, threads: Vec<LongRepeated>) -> Result<ClosedAgain, CloseFault>
    requires { All IsLongRepeated threads.items }
    ensures as_one { OnOk result (AreAsOne IsRepeatedAs threads.items) }
    ensures closed { IfOk result (λ again. Any (λ it. IsClosedAgain (course_of it) again) threads.items) }
    ensures theirs { IfOk result (λ again. ShareOne (λ it. arc_value it.course) threads.items → RepeatsThreads threads.items again) }
    ensures refused { IfErr result (RefusesRepeated threads.items) }
{
    let (course, notes) = hand_in_all(alloc, threads)?;
    let LongCourse {
        rerun,
        last,
        seals,
        desk,
    } = course;
    let sealed = SealedRerun { rerun, seals };
    let (followers, made) = followers_on(alloc, &sealed, desk, notes)?;
    let Tailed { session } = sealed.rerun;
    let values = session.close(alloc, followers)?;
    Ok(ClosedAgain { values, made, last })
}
