//! A course is closed, and its cells are read.
ghost use Rattle.std.specs.Prelude.{◌≡◌, length, map, IfOk};
ghost use Rattle.octet_follow.specs.Calls.{followers_in, starts_in, EachOf, ClosesTo};
ghost use Rattle.octet_follow.specs.Repeats.{RepeatsRecording, KeepsToRecording};
ghost use Rattle.octet_follow.specs.Histories.{RepeatsHistory};
ghost use Rattle.octet_follow.specs.Faithful.{RepeatsPlan};

use crate::course::Course;
use crate::follower::Follower;
use crate::words::Seat;
use octet_model::{List, OutOfMemory};
use std::alloc::Global;

impl Course {
    /// The values of the objects. All followers of the course are handed in, in order. Where they were
    /// given the marks of a recording, and each access was what their threads demand in it, they have
    /// repeated it.
    pub fn close(self, alloc: Global, followers: List<Follower>) -> Result<List<u64>, OutOfMemory>
        requires all { length followers ≡ followers_in self }
        requires each { EachOf self followers }
        ensures closes { IfOk result (λ heap. ClosesTo (starts_in self) followers heap) }
        ensures keeps { IfOk result (λ heap. KeepsToRecording (starts_in self) followers) }
        ensures repeats { IfOk result (λ heap. RepeatsRecording (starts_in self) followers heap) }
        ensures history { IfOk result (λ heap. RepeatsHistory (starts_in self) followers heap) }
        ensures plan { IfOk result (λ heap. RepeatsPlan (starts_in self) followers heap) }
    {
        let seats = seats_of(alloc, followers.into_vec())?;
        let cells = self.words.close(alloc, seats)?;
        Ok(List::from_vec(cells))
    }
}

// The followers' seats.
fn seats_of(alloc: Global, followers: Vec<Follower>) -> Result<Vec<Seat>, OutOfMemory>
    ensures { IfOk result (λ seats. seats.items ≡ map (λ follower. follower.seat) followers.items) }
{
    let mut seats = Vec::new(alloc);
    for follower in followers {
        let Follower { seat, .. } = follower;
        seats.push(seat)?;
    }
    Ok(seats)
}
