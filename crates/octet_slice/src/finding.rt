//! The first event that a test accepts.
ghost use Rattle.std.specs.Prelude.{◌≡◌, IfOk, IfErr};
ghost use Rattle.octet_model.specs.Traces.{trace_of};
ghost use Rattle.octet_replay.specs.Judged.{HasCause, IsLawful};
ghost use Rattle.octet_slice.specs.FirstMatch.{IsFound};

use octet_model::{Event, Log, Place, Script};
use octet_replay::{ReplayFault, Tracer};
use octet_watch::{Answers, Stop};
use std::alloc::Global;

/// What a search comes to.
#[derive(Clone, Copy, Debug, PartialEq, Eq)]
pub enum Found {
    /// The first event that the test accepts, and its place.
    At { place: Place, event: Event },
    /// The test accepts no event.
    Nowhere,
}

// Goes by a trace up to the first event that the test accepts, or to its end.
fn seek(tracer: &mut Tracer<'_>, test: &Stop) -> Found
    requires begins { tracer.old.told ≡ 0 }
    ensures script { tracer.new.script ≡ tracer.old.script }
    ensures log { tracer.new.log ≡ tracer.old.log }
    ensures found { IsFound (⟦<Stop as Answers>⟧.answers test.now) (trace_of tracer.old.script tracer.old.log.threads) result }
{
    while let Some((place, event)) = tracer.next() {
        if test.asks(&event) {
            return Found::At { place, event };
        }
    }
    Found::Nowhere
}

/// The first event of the lowest order that the test accepts, with its place. Refuses as a replay
/// does: the whole order is judged before the event is told.
pub fn first(alloc: Global, script: &Script, log: &Log, test: &Stop) -> Result<Found, ReplayFault>
    ensures lawful { IfOk result (λ _. IsLawful script.now log.now.threads) }
    ensures found { IfOk result (IsFound (⟦<Stop as Answers>⟧.answers test.now) (trace_of script.now log.now.threads)) }
    ensures refused { IfErr result (HasCause script.now log.now.threads) }
{
    let mut tracer = Tracer::new(alloc, script, log)?;
    let found = seek(&mut tracer, test);
    tracer.end(alloc)?;
    Ok(found)
}
