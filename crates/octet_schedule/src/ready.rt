//! The threads that are ready.
ghost use Rattle.std.specs.Prelude.{◌≡◌, ◌≤◌, ◌<◌, length, false, get_or, MatchOption, None, Some};
ghost use Rattle.std.specs.Option.{ForSome};
ghost use Rattle.octet_model.specs.declared.limits.TheConstants.{MAX_THREADS};
ghost use Rattle.octet_schedule.specs.Ready.{IsReady, SomeIsReady, NoneIn, IsFirstIn, IsNearest, IsDrawn};

use crate::draws::Draws;

/// Whether a thread is ready.
pub(crate) fn is_ready(ready: &[bool], thread: u8) -> bool
    ensures { result ≡ get_or ready.now thread false }
{
    ready.get(thread as usize).copied().unwrap_or(false)
}

/// The first of these threads that is ready, but for the one that is passed over.
pub(crate) fn first_in(ready: &[bool], from: u8, upto: u8, passed_over: Option<u8>) -> Option<u8>
    ensures { MatchOption result (NoneIn ready.now passed_over from upto) (IsFirstIn ready.now passed_over from upto) }
{
    for thread in from..upto {
        if is_ready(ready, thread) && Some(thread) != passed_over {
            return Some(thread);
        }
    }
    None
}

// The first ready thread from this one on, round all of them.
fn nearest(ready: &[bool], from: u8, passed_over: Option<u8>) -> Option<u8>
    requires few { length ready.now ≤ MAX_THREADS }
    requires from { from < length ready.now }
    ensures { MatchOption result (NoneIn ready.now passed_over 0 (length ready.now)) (IsNearest ready.now passed_over from) }
{
    let threads = ready.len() as u8;
    match first_in(ready, from, threads, passed_over) {
        Some(thread) => Some(thread),
        None => first_in(ready, 0, from, passed_over),
    }
}

/// A ready thread, from one on that is drawn: another one than is passed over, if one is ready.
pub(crate) fn any(draws: &mut Draws, ready: &[bool], passed_over: Option<u8>) -> u8
    requires few { length ready.now ≤ MAX_THREADS }
    requires some { SomeIsReady ready.now }
    requires passed { ForSome passed_over (λ thread. IsReady ready.now thread) }
    ensures { IsDrawn draws.old.generator ready.now passed_over result draws.new.generator }
{
    let from = draws.below(ready.len() as u64) as u8;
    match nearest(ready, from, passed_over) {
        Some(thread) => thread,
        None => passed_over.unwrap_or(from),
    }
}
