//! A run on the shared heap: what the gate is shown of each worker before its accesses is what the
//! log that was written has there.
use crate::desks::log_left;
use crate::gates::Counted;
use octet_base::Gate;
use octet_heap::Worker;
use octet_log::decode;
use octet_model::{Gapped, MAX_LOG_FILE, Mark, OutOfMemory, ThreadLog};
use octet_threads::HeapGate;
use std::alloc::Global;
use std::process::Abort;
use std::sync::Wait;
use std::sync::atomic::{AtomicU32, AtomicU64, Ordering};
use std::test::Fail as Failed;
use std::thread::Threads;

const THREADS: usize = 2;

/// Of each thread.
const ACCESSES: usize = 100;

/// Each thread writes `ACCESSES` times.
const WRITERS: &[u8] =
    b"object x 0\nthread\nset r0 100\nset r1 1\nwhile r0\nwrite x r0\nsafe\nsub r0 r0 r1\nend\nthread\nset r0 100\nset r1 1\nwhile r0\nwrite x r0\nsafe\nsub r0 r0 r1\nend\n";

/// How often a worker was shown before one access, and with how many marks and which number in the
/// last of them.
#[derive(Drop)]
struct Place {
    calls: AtomicU32,
    marks: AtomicU64,
    number: AtomicU64,
}

/// A place for each access of each thread, in order.
#[derive(Drop)]
struct Notes {
    places: Vec<Place>,
}

impl Notes {
    fn new(alloc: Global) -> Result<Notes, OutOfMemory> {
        let mut places = Vec::new(alloc);
        for _place in 0..THREADS * ACCESSES {
            places.push(Place {
                calls: AtomicU32::new(0),
                marks: AtomicU64::new(0),
                number: AtomicU64::new(0),
            })?;
        }
        Ok(Notes { places })
    }

    fn place(&self, thread: usize, access: usize) -> Option<&Place> {
        if access >= ACCESSES {
            return None;
        }
        self.places
            .get(thread.saturating_mul(ACCESSES).saturating_add(access))
    }

    /// How often a worker was shown before an access, with how many marks and which number in the
    /// last.
    fn noted(&self, thread: usize, access: usize) -> Option<(u32, u64, u64)> {
        let place = self.place(thread, access)?;
        Some((
            place.calls.load(Ordering::SeqCst),
            place.marks.load(Ordering::SeqCst),
            place.number.load(Ordering::SeqCst),
        ))
    }
}

impl Gate for Notes {
    fn pass<R: Threads + Wait + Sync>(&self, _rt: &R, _thread: u8, _access: u32) {}
}

impl HeapGate for Notes {
    fn note(&self, thread: u8, worker: &Worker) {
        if let Some(place) = self.place(thread as usize, worker.accesses() as usize) {
            let marks = worker.marks();
            place.calls.fetch_add(1, Ordering::SeqCst);
            place.marks.store(marks.len() as u64, Ordering::SeqCst);
            place
                .number
                .store(number_of(marks.last()), Ordering::SeqCst);
        }
    }
}

fn number_of(last: Option<&Gapped>) -> u64 {
    match last {
        Some(gapped) => match gapped.mark {
            Mark::Join { upto, .. } => upto,
            Mark::Draw { number } | Mark::Fence { number } => number,
        },
        None => 0,
    }
}

/// How many marks of a thread stand before an access, counted from 0, and the number in the last.
fn marks_before(log: &ThreadLog, access: usize) -> (u64, u64) {
    let mut made: usize = 0;
    let mut before: u64 = 0;
    let mut last = None;
    for gapped in log.marks.as_slice() {
        made = made.saturating_add(gapped.gap as usize);
        if made > access {
            break;
        }
        before = before.saturating_add(1);
        last = Some(gapped);
    }
    (before, number_of(last))
}

/// What the notes are to say of an access, by the log.
fn wanted(log: &ThreadLog, access: usize) -> (u32, u64, u64) {
    let (marks, number) = match access.checked_sub(1) {
        Some(before) => marks_before(log, before),
        None => (0, 0),
    };
    (1, marks, number)
}

/// The first access of a thread of which the notes say something else.
fn misnoted(notes: &Notes, thread: usize, log: &ThreadLog) -> Option<usize> {
    for access in 0..ACCESSES {
        if notes.noted(thread, access) != Some(wanted(log, access)) {
            return Some(access);
        }
    }
    None
}

/// Of each access the notes say what the log does.
fn agree<R: Abort>(rt: &R, notes: &Notes, threads: &[ThreadLog]) {
    assert_eq!(rt; threads.len(), THREADS);
    for (thread, log) in threads.iter().enumerate() {
        let found = (log.accesses as usize, misnoted(notes, thread, log));
        assert_eq!(rt; found, (ACCESSES, None), "{thread}");
    }
}

/// No body over the locked machine passes: its threads have no workers to show. None either that
/// keeps to the heap only where the gate is not open.
#[test]
fn run_uses_the_shared_heap(rt: HostRuntime) -> Result<(), Failed> {
    let alloc = rt.alloc();
    for is_open in [false, true] {
        let notes = Notes::new(alloc)?;
        let gate = Counted::new(&notes, is_open);
        let written = log_left(&rt, alloc, WRITERS, b"", "run S L", &gate)?;
        let all = (THREADS * ACCESSES) as u32;
        assert_eq!(rt; (gate.passes(), gate.notes()), (all, all), "{is_open}");
        assert!(rt; written.len() <= MAX_LOG_FILE as usize);
        let loaded = decode(alloc, written.as_slice())?;
        agree(&rt, &notes, loaded.log.threads.as_slice());
    }
    Ok(())
}
