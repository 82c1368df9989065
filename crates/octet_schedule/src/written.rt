//! A schedule that is written.
ghost use Rattle.std.specs.Prelude.{◌≤◌, length, MatchOption};
ghost use Rattle.std.specs.Option.{ForSome};
ghost use Rattle.octet_model.specs.declared.limits.TheConstants.{MAX_THREADS};
ghost use Rattle.octet_schedule.specs.Ready.{IsReady, SomeIsReady};
ghost use Rattle.octet_schedule.specs.Ways.{IsNextWritten, NoneIsWritten, GoesAsWritten};

use crate::draws::Draws;
use crate::ready::{any, is_ready};

/// The threads that are to come, from a place on.
#[derive(Drop)]
pub(crate) struct Written {
    pub(crate) picks: Vec<u8>,
    pub(crate) place: usize,
}

impl Written {
    // The next one that is ready. Those before it are passed over.
    fn next(&mut self, ready: &[bool]) -> Option<u8>
        ensures { MatchOption result (NoneIsWritten self.old ready.now self.new) (λ thread. IsNextWritten self.old ready.now thread self.new) }
    {
        for at in self.place..self.picks.len() {
            let thread = self.picks[at];
            if is_ready(ready, thread) {
                self.place = at + 1;
                return Some(thread);
            }
        }
        self.place = self.picks.len();
        None
    }

    /// The thread that comes next: where none is written any more, the one at work, if it is ready.
    pub(crate) fn pick(&mut self, draws: &mut Draws, ready: &[bool], at_work: Option<u8>) -> u8
        requires few { length ready.now ≤ MAX_THREADS }
        requires some { SomeIsReady ready.now }
        requires at_work { ForSome at_work (λ thread. IsReady ready.now thread) }
        ensures ready { IsReady ready.now result }
        ensures goes { GoesAsWritten self.old draws.old.generator ready.now at_work result self.new draws.new.generator }
    {
        if let Some(thread) = self.next(ready) {
            return thread;
        }
        if let Some(thread) = at_work {
            return thread;
        }
        any(draws, ready, None)
    }
}
