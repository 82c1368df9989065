//! Runs by threads beside each other, through the top call.
use crate::desks::log_left;
use crate::gates::{Counted, MOST_LOOKS, wait_for};
use octet_base::Gate;
use octet_heap::Worker;
use octet_threads::HeapGate;
use std::sync::Wait;
use std::sync::atomic::{AtomicBool, Ordering};
use std::test::Fail as Failed;
use std::thread::Threads;

/// At its first access each thread raises a flag, thread 0 the first and all others the second, and
/// waits until both are up.
#[derive(Drop)]
struct TwoFlags {
    first: AtomicBool,
    second: AtomicBool,
    gave_up: AtomicBool,
}

impl TwoFlags {
    fn new() -> TwoFlags {
        TwoFlags {
            first: AtomicBool::new(false),
            second: AtomicBool::new(false),
            gave_up: AtomicBool::new(false),
        }
    }

    fn are_up(&self) -> bool {
        self.first.load(Ordering::SeqCst) && self.second.load(Ordering::SeqCst)
    }

    fn meet(&self, own: &AtomicBool, other: &AtomicBool) {
        own.store(true, Ordering::SeqCst);
        if !wait_for(other, MOST_LOOKS) {
            self.gave_up.store(true, Ordering::SeqCst);
        }
    }
}

impl Gate for TwoFlags {
    fn pass<R: Threads + Wait + Sync>(&self, _rt: &R, thread: u8, access: u32) {
        match (thread, access) {
            (0, 0) => self.meet(&self.first, &self.second),
            (_, 0) => self.meet(&self.second, &self.first),
            (_, _) => {}
        }
    }
}

impl HeapGate for TwoFlags {
    fn note(&self, _thread: u8, _worker: &Worker) {}
}

/// Each of two threads writes an object of its own.
const APART: &[u8] =
    b"object x 0\nobject y 0\nthread\nset r0 1\nwrite x r0\nthread\nset r0 2\nwrite y r0\n";

/// The second thread's one mark is `Join(0, 0)`.
const APART_LOG: &[u8] =
    b"OCTL\x01\x02\x00\x00\x00\x01\x00\x00\x00\x00\x00\x00\x00\x01\x00\x00\x00\x01\x01\x00\x00\x00\x00\x00\x00\x00\x00\x00\x00\x00\x00\x00";

/// The second thread reads then what the first one has written.
const TOGETHER: &[u8] =
    b"object x 0\nobject y 0\nthread\nset r0 1\nwrite x r0\nthread\nset r0 2\nwrite y r0\nread r1 x\n";

/// The second thread's marks are `Join(0, 0)`, and before its read `Join(0, 1)`.
const TOGETHER_LOG: &[u8] =
    b"OCTL\x01\x02\x00\x00\x00\x01\x00\x00\x00\x00\x00\x00\x00\x02\x00\x00\x00\x02\x01\x00\x00\x00\x00\x00\x00\x00\x00\x00\x00\x00\x00\x00\x01\x00\x00\x00\x01\x00\x00\x00\x00\x00\x00\x00\x00\x01";

/// Each with its script and log, how often threads pass at least, and how many workers are shown.
const BESIDE: &[(&str, &[u8], &[u8], u32, u32)] = &[
    ("run S L", APART, APART_LOG, 2, 2),
    ("locked S L", APART, APART_LOG, 2, 0),
    ("gen 1 G L", APART, APART_LOG, 160_000, 160_000),
    ("parallel S K", APART, APART_LOG, 2, 0),
    ("parallel S K", TOGETHER, TOGETHER_LOG, 3, 0),
];

/// No body that runs or replays the threads one after another, none that leaves the gate out, and
/// none that runs a generated script in rounds or under the lock, where no worker is shown, passes;
/// none either that does so only where the gate says that it is open.
#[test]
fn threads_run_beside_each_other(rt: HostRuntime) -> Result<(), Failed> {
    for &(line, script, log, passes, notes) in BESIDE {
        for is_open in [false, true] {
            let flags = TwoFlags::new();
            let gate = Counted::new(&flags, is_open);
            log_left(&rt, rt.alloc(), script, log, line, &gate)?;
            let gave_up = flags.gave_up.load(Ordering::SeqCst);
            let found = (flags.are_up(), gave_up, gate.notes());
            assert_eq!(rt; found, (true, false, notes), "{line} {is_open}");
            assert!(rt; gate.passes() >= passes, "{line} {is_open}");
        }
    }
    Ok(())
}
