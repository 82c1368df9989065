//! A flag to wait for, and any gate, counted, and as one that says that it is open.
use octet_base::Gate;
use octet_heap::Worker;
use octet_threads::HeapGate;
use std::sync::Wait;
use std::sync::atomic::{AtomicBool, AtomicU32, Ordering};
use std::thread::{Threads, yield_now};

/// How often a thread looks before it gives up.
pub(crate) const MOST_LOOKS: u32 = 10_000_000;

/// Waits until the flag is up, but for so many looks at most. Tells whether it was seen.
pub(crate) fn wait_for(flag: &AtomicBool, looks: u32) -> bool {
    for _ in 0..looks {
        if flag.load(Ordering::SeqCst) {
            return true;
        }
        yield_now();
    }
    false
}

/// Lets threads pass and shows workers where another gate does, which may hold them. Counts both, and
/// says that it is open, or that it is not. What is only done at a gate that is not open shows here.
#[derive(Drop)]
pub(crate) struct Counted<'a, G> {
    gate: &'a G,
    is_open: bool,
    passes: AtomicU32,
    notes: AtomicU32,
}

impl<'a, G: HeapGate> Counted<'a, G> {
    pub(crate) fn new(gate: &'a G, is_open: bool) -> Counted<'a, G> {
        Counted {
            gate,
            is_open,
            passes: AtomicU32::new(0),
            notes: AtomicU32::new(0),
        }
    }

    /// How often a thread passed.
    pub(crate) fn passes(&self) -> u32 {
        self.passes.load(Ordering::SeqCst)
    }

    /// How often a worker was shown.
    pub(crate) fn notes(&self) -> u32 {
        self.notes.load(Ordering::SeqCst)
    }
}

impl<'a, G: HeapGate> Gate for Counted<'a, G> {
    fn pass<R: Threads + Wait + Sync>(&self, rt: &R, thread: u8, access: u32) {
        self.passes.fetch_add(1, Ordering::SeqCst);
        self.gate.pass(rt, thread, access);
    }

    fn is_open(&self) -> bool {
        self.is_open
    }
}

impl<'a, G: HeapGate> HeapGate for Counted<'a, G> {
    fn note(&self, thread: u8, worker: &Worker) {
        self.notes.fetch_add(1, Ordering::SeqCst);
        self.gate.note(thread, worker);
    }
}
