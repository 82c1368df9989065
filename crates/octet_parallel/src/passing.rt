//! The gate, which each thread of a replay passes before each access.
use octet_base::Gate;
use octet_model::Event;
use octet_replay::NextStep;
use std::sync::Wait;
use std::thread::Threads;

/// Passes the gate where an access is next for the thread, which has made that many so far.
#[inline(always)]
pub(crate) fn pass_before<R: Threads + Wait + Sync, G: Gate>(
    rt: &R,
    gate: &G,
    thread: u8,
    next: NextStep,
    accesses: u32,
) {
    match next {
        NextStep::Read { .. } | NextStep::Write { .. } | NextStep::Bump { .. } => {
            gate.pass(rt, thread, accesses);
        }
        NextStep::Mark { .. } | NextStep::Finished | NextStep::NothingFits => {}
    }
}

/// The same of a thread whose next event is known.
#[inline(always)]
pub(crate) fn pass_before_event<R: Threads + Wait + Sync, G: Gate>(
    rt: &R,
    gate: &G,
    thread: u8,
    event: Event,
    accesses: u32,
) {
    if event.is_access() {
        gate.pass(rt, thread, accesses);
    }
}
