//! A run writes its log while its threads run: one of them goes on only once a piece of another was
//! added.
ghost use Rattle.std.specs.Prelude.{◌≡◌, None, IsSome};
ghost use Rattle.octet_base.specs.Desk.{Takes, TakesPiece, Begins, Adds, Finishes, Says};

use crate::desks::{desk_with, words_of};
use crate::gates::{Counted, MOST_LOOKS, wait_for};
use octet_base::{Desk, DeskFault, Gate, MemoryDesk};
use octet_heap::Worker;
use octet_threads::HeapGate;
use octet_top::serve;
use std::alloc::Global;
use std::sync::Wait;
use std::sync::atomic::{AtomicBool, Ordering};
use std::test::Fail as Failed;
use std::thread::Threads;

const APART: &[u8] =
    b"object x 0\nobject y 0\nthread\nthread\nset r0 1\nwrite x r0\nthread\nset r0 2\nwrite y r0\n";

/// A desk that raises a flag at its second add: of a piece, after the head.
#[derive(Drop)]
struct Flagging<'a> {
    desk: MemoryDesk,
    has_added: bool,
    flag: &'a AtomicBool,
}

impl<'a> Desk for Flagging<'a> {
    ghost use Rattle.octet_base.specs.Memory.{state_in};

    ghost state = { λ d. state_in d.desk };

    fn take(&mut self, alloc: Global, name: &str, limit: u32) -> Result<Vec<u8>, DeskFault>
        ensures { Takes name.now limit (state_in self.old.desk) result (state_in self.new.desk) }
    {
        self.desk.take(alloc, name, limit)
    }

    fn take_piece(
        &mut self,
        alloc: Global,
        name: &str,
        from: u64,
        limit: u32,
    ) -> Result<Vec<u8>, DeskFault>
        ensures { TakesPiece name.now from limit (state_in self.old.desk) result (state_in self.new.desk) }
    {
        self.desk.take_piece(alloc, name, from, limit)
    }

    fn begin(&mut self, alloc: Global, name: &str) -> Result<(), DeskFault>
        requires { (state_in self.old.desk).begun ≡ None }
        ensures { Begins name.now (state_in self.old.desk) result (state_in self.new.desk) }
    {
        self.desk.begin(alloc, name)
    }

    fn add(&mut self, alloc: Global, bytes: &[u8]) -> Result<(), DeskFault>
        requires { IsSome (state_in self.old.desk).begun }
        ensures { Adds bytes.now (state_in self.old.desk) result (state_in self.new.desk) }
    {
        self.flag.store(self.has_added, Ordering::SeqCst);
        self.has_added = true;
        self.desk.add(alloc, bytes)
    }

    fn finish(&mut self) -> Result<(), DeskFault>
        requires { IsSome (state_in self.old.desk).begun }
        ensures { Finishes (state_in self.old.desk) result (state_in self.new.desk) }
    {
        self.desk.finish()
    }

    fn say(&mut self, alloc: Global, bytes: &[u8]) -> Result<(), DeskFault>
        ensures { Says bytes.now (state_in self.old.desk) result (state_in self.new.desk) }
    {
        self.desk.say(alloc, bytes)
    }
}

/// Holds thread 2 at its first access until the flag is up.
#[derive(Drop)]
struct Held<'a> {
    flag: &'a AtomicBool,
    has_seen: AtomicBool,
}

impl<'a> Gate for Held<'a> {
    fn pass<R: Threads + Wait + Sync>(&self, _rt: &R, thread: u8, access: u32) {
        if thread == 2 && access == 0 && wait_for(self.flag, MOST_LOOKS) {
            self.has_seen.store(true, Ordering::SeqCst);
        }
    }
}

impl<'a> HeapGate for Held<'a> {
    fn note(&self, _thread: u8, _worker: &Worker) {}
}

/// What is said of that script.
const SAID: &[u8] = b"thread 0 done\nthread 1 done\nthread 2 done\nobject x 1\nobject y 2\n";

/// No body that holds the log back until the threads have ended passes, whatever the gate says.
#[test]
fn log_is_written_while_threads_run(rt: HostRuntime) -> Result<(), Failed> {
    let alloc = rt.alloc();
    let words = words_of(alloc, "run S L")?;
    for is_open in [false, true] {
        let flag = AtomicBool::new(false);
        let held = Held {
            flag: &flag,
            has_seen: AtomicBool::new(false),
        };
        let gate = Counted::new(&held, is_open);
        let mut desk = Flagging {
            desk: desk_with(alloc, APART, b"", &[])?,
            has_added: false,
            flag: &flag,
        };
        let status = serve(&rt, alloc, &words, &mut desk, &gate);
        let has_seen = held.has_seen.load(Ordering::SeqCst);
        assert_eq!(rt;
            (status, has_seen, gate.passes()),
            (0, true, 2),
            "{is_open}"
        );
        assert_eq!(rt; desk.desk.said(), SAID, "{is_open}");
    }
    Ok(())
}
