//! A run over one machine behind a lock, at a gate that holds one of two threads while the other one waits for it.
use crate::gates::{MOST_LOOKS, wait_for};
use crate::samples::script;
use octet_base::Gate;
use octet_threads::run_locked;
use std::sync::Wait;
use std::sync::atomic::{AtomicBool, Ordering};
use std::test::Fail;
use std::thread::Threads;

/// How often thread 0 looks whether thread 1 went on, while it is held.
const LOOKS_WHILE_HELD: u32 = 20_000;

/// Thread 1 waits before its first access until thread 0 has come to its second one, and thread 0 is
/// held there for a while. Notes whether thread 1 has come to its second access meanwhile.
#[derive(Drop)]
struct Held {
    has_come: AtomicBool,
    is_let_go: AtomicBool,
    went_on: AtomicBool,
}

impl Held {
    fn new() -> Held {
        Held {
            has_come: AtomicBool::new(false),
            is_let_go: AtomicBool::new(false),
            went_on: AtomicBool::new(false),
        }
    }

    /// Whether thread 0 came to its second access, and whether thread 1 made its first one while that one
    /// was held.
    fn seen(&self) -> (bool, bool) {
        (
            self.has_come.load(Ordering::SeqCst),
            self.went_on.load(Ordering::SeqCst),
        )
    }
}

impl Gate for Held {
    fn pass<R: Threads + Wait + Sync>(&self, _rt: &R, thread: u8, access: u32) {
        match (thread, access) {
            (0, 0) => {}
            (0, _) => {
                self.has_come.store(true, Ordering::SeqCst);
                let _ = wait_for(&self.went_on, LOOKS_WHILE_HELD);
                self.is_let_go.store(true, Ordering::SeqCst);
            }
            (_, 0) => {
                let _ = wait_for(&self.has_come, MOST_LOOKS);
            }
            (_, _) => {
                if !self.is_let_go.load(Ordering::SeqCst) {
                    self.went_on.store(true, Ordering::SeqCst);
                }
            }
        }
    }
}

/// Thread 0 writes x, which thread 1 reads, and then once more.
const READS_WRITTEN: &[u8] =
    b"object x 0\nthread\nset r0 5\nwrite x r0\nwrite x r0\nthread\nread r0 x\nread r0 x\n";

/// Under the lock a worker takes turns of a thread for which its own one waits, but never past the gate
/// of that one: so thread 1 does not go on as long as thread 0 is held.
#[test]
fn no_worker_takes_another_thread_past_its_gate(rt: HostRuntime) -> Result<(), Fail> {
    let alloc = rt.alloc();
    let script = script(alloc, READS_WRITTEN)?;
    let gate = Held::new();
    let recorded = run_locked(&rt, alloc, &script, &gate)?;
    assert_eq!(rt; gate.seen(), (true, false));
    assert_eq!(rt; recorded.outcome.heap.as_slice(), [5u64].as_slice());
    Ok(())
}
