//! Replays of a log step by step, and what a thread waits for.
use crate::samples::{DRAW, FENCE, JOIN, LogThread, log, script};
use octet_model::{End, Event, List, Mark};
use octet_replay::{Need, Replayer, Stepped, Waits};
use std::fmt::Debug;
use std::process::Abort;
use std::test::*;

fn assert_lists<T: Debug + PartialEq>(rt: &impl Abort, lists: &List<List<T>>, wanted: &[&[T]]) {
    assert_eq!(rt; lists.len(), wanted.len());
    for thread in 0..wanted.len() {
        let list = lists.as_slice()[thread].as_slice();
        assert_eq!(rt; list, wanted[thread], "of thread {thread}");
    }
}

const fn joined(from: u8, upto: u64) -> Event {
    Event::Marked {
        mark: Mark::Join { from, upto },
    }
}

// Thread 1 reads first, and then thread 2 does: x becomes read-shared, and thread 1 fences.
const READERS: &[u8] = b"object x 9\nthread\nthread\nread r0 x\nread r1 x\nthread\nread r0 x\n";

const SHARED: &[LogThread] = &[
    (0, &[]),
    (2, &[(JOIN, 0, 0, 0), (FENCE, 1, 0, 1)]),
    (1, &[(JOIN, 0, 1, 1), (DRAW, 0, 0, 1)]),
];

const READ_9: Event = Event::Read {
    object: 0,
    value: 9,
};

#[test]
fn events_are_told_one_by_one(rt: HostRuntime) -> Result<(), Fail> {
    let alloc = rt.alloc();
    let (script, log) = (script(alloc, READERS)?, log(alloc, SHARED)?);
    let mut replayer = Replayer::new(alloc, &script, &log)?;
    let marked = |mark: Mark| Event::Marked { mark };
    for (thread, event) in [
        (1, joined(0, 0)),
        (1, READ_9),
        (2, joined(1, 1)),
        (2, marked(Mark::Draw { number: 1 })),
        (1, marked(Mark::Fence { number: 1 })),
        (1, READ_9),
        (2, READ_9),
    ] {
        assert_eq!(rt; replayer.step(), Stepped::Made { thread, event });
    }
    assert_eq!(rt; replayer.step(), Stepped::Halted);
    replayer.run();
    let outcome = replayer.end(alloc)?;
    assert_eq!(rt; outcome.ends.as_slice(), [End::Done; 3].as_slice());
    assert_lists(&rt, &outcome.reads, &[&[], &[9, 9], &[9]]);
    assert_eq!(rt; outcome.heap.as_slice(), [9].as_slice());
    Ok(())
}

#[test]
fn waits_follow_what_is_counted(rt: HostRuntime) -> Result<(), Fail> {
    let alloc = rt.alloc();
    let mut needs = List::new(alloc);
    needs.push(Need::Events { of: 1, count: 1 })?;
    needs.push(Need::Free)?;
    let mut waits = Waits::new(alloc, &needs)?;
    assert_eq!(rt; waits.lowest(), Some(1));
    waits.step(1, false, Need::Never);
    assert_eq!(rt; waits.lowest(), Some(0));
    waits.step(0, false, Need::Never);
    assert_eq!(rt; waits.lowest(), None);
    Ok(())
}
