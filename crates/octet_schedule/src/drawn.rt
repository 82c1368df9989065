//! Schedules by which any thread may come next.
ghost use Rattle.std.specs.Prelude.{◌≡◌, ◌≤◌, true, length, Some};
ghost use Rattle.std.specs.Option.{ForSome};
ghost use Rattle.octet_model.specs.declared.limits.TheConstants.{MAX_THREADS};
ghost use Rattle.octet_schedule.specs.Ready.{IsReady, SomeIsReady, NoneIn};
ghost use Rattle.octet_schedule.specs.Ways.{Stays, GoesDrawn};

use crate::draws::Draws;
use crate::ready::any;

/// When another thread is drawn than the one at work.
#[derive(Drop)]
pub(crate) enum Drawn {
    /// Before each access any thread is drawn.
    Uniform,
    /// One makes up to `longest` accesses in a row, of which so many are left, and then another one.
    Bursts { longest: u64, left: u64 },
    /// The one at work goes on, but for so many switches, which come at any of so many accesses.
    Switches { switches: u64, accesses: u64 },
}

impl Drawn {
    // Whether the thread at work makes the next access too.
    fn stays(&mut self, draws: &mut Draws) -> bool
        ensures { Stays self.old draws.old.generator result self.new draws.new.generator }
    {
        match self {
            Drawn::Uniform => false,
            Drawn::Bursts { longest, left } => {
                if *left > 0 {
                    *left -= 1;
                    return true;
                }
                *left = draws.below((*longest).max(1));
                false
            }
            Drawn::Switches { switches, accesses } => {
                let stays = draws.below((*accesses).max(1)) >= *switches;
                *accesses = accesses.saturating_sub(1);
                if !stays {
                    *switches = switches.saturating_sub(1);
                }
                stays
            }
        }
    }

    /// The thread that comes next. The one at work is ready, and may be tired.
    pub(crate) fn pick(
        &mut self,
        draws: &mut Draws,
        ready: &[bool],
        at_work: Option<u8>,
        is_tired: bool,
    ) -> u8
        requires few { length ready.now ≤ MAX_THREADS }
        requires some { SomeIsReady ready.now }
        requires at_work { ForSome at_work (λ thread. IsReady ready.now thread) }
        ensures ready { IsReady ready.now result }
        ensures rests { is_tired ≡ true → at_work ≡ Some result → NoneIn ready.now at_work 0 (length ready.now) }
        ensures goes { GoesDrawn self.old draws.old.generator ready.now at_work is_tired result self.new draws.new.generator }
    {
        let Some(thread) = at_work else {
            return any(draws, ready, None);
        };
        if is_tired {
            return any(draws, ready, at_work);
        }
        if let Drawn::Uniform = self {
            return any(draws, ready, None);
        }
        if self.stays(draws) {
            return thread;
        }
        any(draws, ready, at_work)
    }
}
