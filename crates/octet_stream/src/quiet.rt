//! Whether anything can still be made: a thread that waits may find that all others wait too, or make nothing any more.
//! No claim rests on it.
use octet_model::OutOfMemory;
use std::alloc::Global;
use std::sync::atomic::{AtomicU64, Ordering};

/// In which of its waits a thread looks at all others.
const EVERY: u64 = 64;

/// How one thread stands, as it tells the others.
#[derive(Drop)]
struct Post {
    // How often it has begun to wait.
    turns: AtomicU64,
    // How often it has looked in vain since then. None where it does not wait.
    looks: AtomicU64,
    // Not 0 once it makes nothing any more.
    over: AtomicU64,
}

/// How all threads stand.
#[derive(Drop)]
pub(crate) struct Quiet {
    posts: Vec<Post>,
}

/// How a thread saw another one.
#[derive(Clone, Copy)]
struct Sight {
    turns: u64,
    looks: u64,
    over: u64,
}

/// What a thread that waits has seen of the others.
#[derive(Drop)]
pub(crate) struct Watch {
    seen: Vec<Sight>,
    waits: u64,
    // How many events the thread itself had made where it waited last.
    made: u64,
}

impl Quiet {
    /// That of so many threads, of which none has begun.
    pub(crate) fn new(alloc: Global, threads: u8) -> Result<Quiet, OutOfMemory> {
        let mut posts = Vec::new(alloc);
        for _ in 0..threads {
            posts.push(Post {
                turns: AtomicU64::new(0),
                looks: AtomicU64::new(0),
                over: AtomicU64::new(0),
            })?;
        }
        Ok(Quiet { posts })
    }

    /// A thread that has made so many events has looked in vain. Whether all threads have looked in vain since it saw them
    /// all wait, or make nothing any more: then nothing can be made any more. A thread that has made a mark since its last
    /// look begins to wait anew, since others may have waited for that mark.
    pub(crate) fn wait(&self, thread: u8, made: u64, watch: &mut Watch) -> bool {
        let Some(post) = self.posts.get(thread as usize) else {
            return false;
        };
        if post.looks.load(Ordering::SeqCst) == 0 || watch.made != made {
            watch.made = made;
            post.turns.fetch_add(1, Ordering::SeqCst);
        }
        post.looks.fetch_add(1, Ordering::SeqCst);
        watch.waits = watch.waits.wrapping_add(1);
        watch.waits % EVERY == 0 && self.are_all_still(watch)
    }

    /// A thread waits no more.
    pub(crate) fn go_on(&self, thread: u8) {
        if let Some(post) = self.posts.get(thread as usize) {
            post.looks.store(0, Ordering::SeqCst);
        }
    }

    /// A thread makes nothing any more.
    pub(crate) fn leave(&self, thread: u8) {
        if let Some(post) = self.posts.get(thread as usize) {
            post.over.store(1, Ordering::SeqCst);
        }
    }

    // Whether each thread is over, or has looked in vain twice since it was seen to wait. Where one has gone on, all are
    // seen anew.
    fn are_all_still(&self, watch: &mut Watch) -> bool {
        let mut still = true;
        let mut moved = false;
        for (post, seen) in self.posts.as_slice().iter().zip(watch.seen.as_slice()) {
            let over = post.over.load(Ordering::SeqCst);
            // What it made at last may let others go on.
            moved = moved || over != seen.over;
            if over == 0 {
                // The turn is read last: while it is the same, so is the wait that was looked at.
                let looks = post.looks.load(Ordering::SeqCst);
                let turns = post.turns.load(Ordering::SeqCst);
                moved = moved || looks == 0 || turns != seen.turns;
                still = still && looks.wrapping_sub(seen.looks) >= 2;
            }
        }
        if moved {
            self.see_all(watch);
        }
        still && !moved
    }

    // Sees how all threads stand.
    fn see_all(&self, watch: &mut Watch) {
        for (post, seen) in self
            .posts
            .as_slice()
            .iter()
            .zip(watch.seen.as_mut_slice().iter_mut())
        {
            seen.over = post.over.load(Ordering::SeqCst);
            seen.turns = post.turns.load(Ordering::SeqCst);
            seen.looks = post.looks.load(Ordering::SeqCst);
        }
    }
}

impl Watch {
    /// That of one of so many threads, which has seen nothing.
    pub(crate) fn new(alloc: Global, threads: u8) -> Result<Watch, OutOfMemory> {
        let mut seen = Vec::new(alloc);
        for _ in 0..threads {
            seen.push(Sight {
                turns: 0,
                looks: 0,
                over: 0,
            })?;
        }
        Ok(Watch {
            seen,
            waits: 0,
            made: 0,
        })
    }
}
