//! A whole tool on replays, which the page of `crates/octet_replay` names.
use octet_log::decode;
use octet_model::{Event, Log, MAX_THREADS, OutOfMemory, Place, Script};
use octet_replay::{ReplayFault, Tracer};
use octet_script::parse;
use std::alloc::Global;
use std::test::Fail as Failed;

/// What a thread knows of an object.
#[derive(Clone, Copy, Debug, PartialEq, Eq)]
enum Known {
    /// Nothing: it has not read the object since it last wrote it.
    Nothing,
    /// What it read is there still.
    Current,
    /// Another thread has changed the object since.
    Stale,
}

/// What each thread knows of each object.
#[derive(Drop)]
struct Board {
    objects: Vec<[Known; MAX_THREADS]>,
}

impl Board {
    fn new(alloc: Global, objects: usize) -> Result<Board, OutOfMemory> {
        Ok(Board {
            objects: vec![in alloc; [Known::Nothing; MAX_THREADS]; objects]?,
        })
    }

    fn read(&mut self, thread: u8, object: u16) {
        if let Some(threads) = self.objects.get_mut(object as usize) {
            if let Some(known) = threads.get_mut(thread as usize) {
                *known = Known::Current;
            }
        }
    }

    /// Tells whether what the thread had read was changed meanwhile.
    fn write(&mut self, thread: u8, object: u16) -> bool {
        let mut lost = false;
        if let Some(threads) = self.objects.get_mut(object as usize) {
            for (other, known) in threads.iter_mut().enumerate() {
                if other == thread as usize {
                    lost = *known == Known::Stale;
                    *known = Known::Nothing;
                } else if *known == Known::Current {
                    *known = Known::Stale;
                }
            }
        }
        lost
    }

    /// Takes an event in. Tells whether it is a write that loses an update.
    fn take(&mut self, thread: u8, event: Event) -> bool {
        match event {
            Event::Read { object, .. } => {
                self.read(thread, object);
                false
            }
            Event::Write { object, .. } => self.write(thread, object),
            Event::Update { object, .. } => {
                self.write(thread, object);
                false
            }
            Event::Marked { .. } => false,
        }
    }
}

/// The first write of a log's lowest order by a thread that had read the object before another
/// thread changed it.
fn lost_update(alloc: Global, script: &Script, log: &Log) -> Result<Option<Place>, ReplayFault> {
    let mut board = Board::new(alloc, script.objects.len())?;
    let mut tracer = Tracer::new(alloc, script, log)?;
    while let Some((place, event)) = tracer.next() {
        if board.take(place.thread, event) {
            return Ok(Some(place));
        }
    }
    Ok(None)
}

/// Two threads add to one object, each by a read and a write.
const ADDING: &[u8] =
    b"object x 5\nthread\nset r1 2\nread r0 x\nadd r0 r0 r1\nwrite x r0\nthread\nset r1 3\nread r0 x\nadd r0 r0 r1\nwrite x r0\n";

/// Both read, and then both write.
const TOGETHER: &[u8] =
    b"OCTL\x01\x02\x00\x00\x00\x02\x00\x00\x00\x01\x01\x00\x00\x00\x01\x01\x00\x00\x00\x00\x00\x00\x00\x02\x00\x00\x00\x02\x00\x00\x00\x02\x01\x00\x00\x00\x00\x00\x00\x00\x00\x00\x00\x00\x00\x01\x01\x00\x00\x00\x01\x00\x00\x00\x00\x00\x00\x00\x00\x03";

/// One after the other.
const APART: &[u8] =
    b"OCTL\x01\x02\x00\x00\x00\x02\x00\x00\x00\x00\x00\x00\x00\x02\x00\x00\x00\x01\x01\x00\x00\x00\x00\x00\x00\x00\x00\x00\x00\x00\x00\x02";

#[test]
fn a_lost_update_is_found(rt: HostRuntime) -> Result<(), Failed> {
    let alloc = rt.alloc();
    let script = parse(alloc, ADDING)?;
    let together = decode(alloc, TOGETHER)?.log;
    let lost = Place {
        thread: 1,
        event: 3,
    };
    let found = lost_update(alloc, &script, &together)?;
    assert_eq!(rt; found, Some(lost));
    let apart = decode(alloc, APART)?.log;
    let found = lost_update(alloc, &script, &apart)?;
    assert_eq!(rt; found, None);
    Ok(())
}
