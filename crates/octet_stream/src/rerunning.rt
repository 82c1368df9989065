//! A long run that is made again, at its start and at its end.
ghost use Rattle.std.specs.Prelude.{◌≡◌, ◌<◌, ◌≤◌, ◌^◌, length, map, IfOk};
ghost use Rattle.octet_follow.specs.Calls as calls;
ghost use Rattle.octet_follow.specs.Calls.{starts_in, followers_in, ClosesTo};
ghost use Rattle.octet_follow.specs.Repeats.{RepeatsRecording, KeepsToRecording};
ghost use Rattle.octet_follow.specs.Histories.{RepeatsHistory};
ghost use Rattle.octet_stream.specs.Followers.{followers_of, IsFedAt, EachAtStart, EachOf};

use crate::feeder::Feeder;
use crate::long_follower::LongFollower;
use crate::long_rerun::LongRerun;
use crate::opening::Room;
use crate::quiet::{Quiet, Watch};
use octet_follow::{Course, Follower};
use octet_model::{List, OutOfMemory};
use octet_rerun::First;
use rtrb::RingBuffer;
use std::alloc::Global;

impl LongRerun {
    /// Objects with these starting values, and a thread for each of so many, in order, with the end by which it is fed. The
    /// room is that of the recording, or other. Reserves all that a run needs. Refused only where memory is.
    pub fn new(
        alloc: Global,
        threads: u8,
        starts: &List<u64>,
        room: Room,
    ) -> Result<(LongRerun, List<LongFollower>, List<Feeder>), OutOfMemory>
        requires threads { 0 < threads }
        requires objects { length starts.now < 2 ^ 16 }
        requires marks { 0 < room.marks }
        requires blocks { 0 < room.blocks }
        ensures of { IfOk result (λ new. (starts_in new.0.course ≡ starts.now) × (followers_in new.0.course ≡ threads)) }
        ensures count { IfOk result (λ new. (length new.1 ≡ threads) × (length new.2 ≡ threads)) }
        ensures ends { IfOk result (λ new. EachAtStart new.0 new.1 new.2) }
    {
        let (course, followers) = Course::new(alloc, starts, threads, room.marks as usize)?;
        let rerun = LongRerun {
            course,
            diverged: First::new(),
            quiet: Quiet::new(alloc, threads)?,
        };
        let (all, feeders) = rerun.threads(alloc, followers.into_vec(), room)?;
        Ok((rerun, List::from_vec(all), List::from_vec(feeders)))
    }

    // A thread and a feeder for each follower.
    fn threads(
        &self,
        alloc: Global,
        followers: Vec<Follower>,
        room: Room,
    ) -> Result<(Vec<LongFollower>, Vec<Feeder>), OutOfMemory>
        requires start { calls.EachAtStart self.now.course room.marks followers.items }
        requires few { length followers.items < 2 ^ 8 }
        requires blocks { 0 < room.blocks }
        ensures count { IfOk result (λ new. (length new.0.items ≡ length followers.items) × (length new.1.items ≡ length followers.items)) }
        ensures ends { IfOk result (λ new. EachAtStart self.now new.0.items new.1.items) }
    {
        let count = followers.len() as u8;
        let mut threads = Vec::new(alloc);
        let mut feeders = Vec::new(alloc);
        let mut number = 0;
        for follower in followers {
            let watch = Watch::new(alloc, count)?;
            let (thread, feeder) = self.thread(alloc, number, follower, room, watch)?;
            threads.push(thread)?;
            feeders.push(feeder)?;
            number += 1;
        }
        Ok((threads, feeders))
    }

    // The two ends of a ring that has room for whole blocks, each with the end of a thread.
    fn thread(
        &self,
        alloc: Global,
        number: u8,
        follower: Follower,
        room: Room,
        watch: Watch,
    ) -> Result<(LongFollower, Feeder), OutOfMemory>
        requires start { calls.IsAtStart self.now.course room.marks number follower }
        requires blocks { 0 < room.blocks }
        ensures { IfOk result (λ new. IsFedAt self.now number new.0 new.1) }
    {
        let items = (room.marks as usize + 2) * room.blocks as usize;
        let (end, feed) = RingBuffer::new(alloc, items)?;
        let thread = LongFollower {
            follower,
            feed,
            marks: Vec::with_capacity(alloc, room.marks as usize)?,
            expected: None,
            from: 0,
            begun: None,
            region: false,
            watch,
        };
        Ok((
            thread,
            Feeder {
                end,
                thread: number,
            },
        ))
    }

    /// Ends the run, and answers the objects' values. Every thread of the run is handed in, in order. Where they were fed
    /// the marks of a recording, and each access was what their threads demand in it, they have repeated it, or the
    /// beginning of it. Refused only where memory is.
    pub fn close(self, alloc: Global, threads: List<LongFollower>) -> Result<List<u64>, OutOfMemory>
        requires all { length threads ≡ followers_in self.course }
        requires each { EachOf self threads }
        ensures closes { IfOk result (λ heap. ClosesTo (starts_in self.course) (followers_of threads) heap) }
        ensures keeps { IfOk result (λ heap. KeepsToRecording (starts_in self.course) (followers_of threads)) }
        ensures repeats { IfOk result (λ heap. RepeatsRecording (starts_in self.course) (followers_of threads) heap) }
        ensures history { IfOk result (λ heap. RepeatsHistory (starts_in self.course) (followers_of threads) heap) }
    {
        let LongRerun { course, .. } = self;
        course.close(alloc, all_followers(alloc, threads.into_vec())?)
    }
}

// The followers of all threads.
fn all_followers(alloc: Global, threads: Vec<LongFollower>) -> Result<List<Follower>, OutOfMemory>
    ensures { IfOk result (λ followers. followers ≡ followers_of threads.items) }
{
    let mut followers = List::new(alloc);
    for thread in threads {
        followers.push(thread.follower)?;
    }
    Ok(followers)
}
