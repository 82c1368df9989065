//! A replay of a log that keeps one event.
ghost use Rattle.std.specs.Prelude.{◌≡◌, length, IfOk};
ghost use Rattle.octet_slice.specs.Replaying.{IsReplayedTo, MakesEventAt};

use octet_model::{Event, Log, OutOfMemory, Script};
use octet_replay::Tracer;
use std::alloc::Global;

/// An event, and how many were made in all.
#[derive(Clone, Copy)]
pub(crate) struct Replayed {
    pub(crate) event: Event,
    pub(crate) made: u64,
}

/// Steps the lowest order of a log until no thread may step, and tells an event that it makes. The
/// log has as many threads as the script, so that want of memory alone keeps a replay from being
/// begun.
pub(crate) fn replay_to(
    alloc: Global,
    script: &Script,
    log: &Log,
    thread: u64,
    event: u64,
) -> Result<Replayed, OutOfMemory>
    requires agree { length script.now.threads ≡ length log.now.threads }
    requires there { MakesEventAt script.now log.now.threads (record { thread = thread; event = event }) }
    ensures { IfOk result (IsReplayedTo script.now log.now.threads (record { thread = thread; event = event })) }
{
    let Ok(mut tracer) = Tracer::new(alloc, script, log) else {
        return Err(OutOfMemory);
    };
    let mut found = None;
    let mut made = 0;
    while let Some((place, this)) = tracer.next() {
        if u64::from(place.thread) == thread && u64::from(place.event) == event {
            found = Some(this);
        }
        made += 1;
    }
    match found {
        Some(event) => Ok(Replayed { event, made }),
        None => unreachable!(),
    }
}
