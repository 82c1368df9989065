//! A course and its followers at first.
ghost use Rattle.std.specs.Prelude.{◌≡◌, ◌<◌, ◌^◌, length, IfOk};
ghost use Rattle.octet_follow.specs.Calls.{starts_in, followers_in, EachAtStart, AreFollowersAt, IsFollowerAt};

use crate::course::Course;
use crate::ending::Ending;
use crate::follower::{Follower, WORDS_APART};
use crate::words::{Seat, Words};
use octet_digest::Digest;
use octet_model::{List, OutOfMemory};
use std::alloc::Global;

impl Course {
    /// The course of so many threads, on objects with these values at first, and a follower for each
    /// thread, in order, with room for so many marks.
    pub fn new(
        alloc: Global,
        starts: &List<u64>,
        followers: u8,
        room: usize,
    ) -> Result<(Course, List<Follower>), OutOfMemory>
        requires some { 0 < followers }
        requires objects { length starts.now < 2 ^ 16 }
        ensures of { IfOk result (λ new. (starts_in new.0 ≡ starts.now) × (followers_in new.0 ≡ followers)) }
        ensures followers { IfOk result (λ new. (length new.1 ≡ followers) × EachAtStart new.0 room new.1) }
    {
        let (words, seats) = Words::new(alloc, starts, followers)?;
        let followers = followers_of(alloc, seats, room)?;
        Ok((Course { words }, List::from_vec(followers)))
    }
}

// One follower for each seat.
fn followers_of(alloc: Global, seats: Vec<Seat>, room: usize) -> Result<Vec<Follower>, OutOfMemory>
    requires few { length seats.items < 2 ^ 8 }
    ensures { IfOk result (λ followers. AreFollowersAt room 0 seats.items followers.items) }
{
    let mut followers = Vec::new(alloc);
    let mut number = 0;
    for seat in seats {
        followers.push(follower(alloc, number, seat, room)?)?;
        number += 1;
    }
    Ok(followers)
}

// The follower of a seat that has taken no step.
fn follower(alloc: Global, number: u8, seat: Seat, room: usize) -> Result<Follower, OutOfMemory>
    ensures { IfOk result (λ follower. IsFollowerAt room number seat follower) }
{
    Ok(Follower {
        seat,
        number,
        ending: Ending::Open,
        left: 0,
        after: 0,
        events: 0,
        marked: 0,
        shown: 0,
        awaited: 0,
        digest: Digest::new(),
        marks: Vec::with_capacity(alloc, room)?,
        next: 0,
        padding: [0; WORDS_APART],
    })
}
