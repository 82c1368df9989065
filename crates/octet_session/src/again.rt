//! A second run is a session.
ghost use Rattle.std.specs.Prelude.{◌≡◌, ◌+◌, Some, None, length};
ghost use Rattle.octet_parallel.specs.Calls.{script_in};
ghost use Rattle.octet_rerun.specs.Reruns.{recorded_of, IsFollowerOf};
ghost use Rattle.octet_session.specs.Again.{second_standing, HasMadeAll, IsSecondReason};
ghost use Rattle.octet_session.specs.Asking.{lines_of, lines_of_region};

use crate::not_made::NotMade;
use crate::second_thread::SecondThread;
use crate::session::Session;
use octet_recorder::{Access, LINES_OF_ACCESS};
use octet_rerun::{Halt, Rerun};

// The lines that an access takes in a recording, with that of a region, if one begins with it.
fn lines_taken(wanted: Access, region: bool) -> u32
    ensures { result ≡ lines_of_region region + lines_of wanted }
{
    let lines = match wanted {
        Access::Read { .. } => 1,
        Access::Write { .. } | Access::Update { .. } => 2,
    };
    if region { lines + 1 } else { lines }
}

impl Session for Rerun {
    type Thread = SecondThread;

    type Halt = Halt;

    ghost IsThreadOf = { λ rerun thread. IsFollowerOf rerun thread.follower };

    ghost standing = { λ _ thread. second_standing thread };

    ghost objects = { λ rerun. length (script_in rerun.field).objects };

    ghost recorded = { λ rerun thread. Some (recorded_of rerun thread.follower.thread) };

    ghost Runs = { λ _. Unit {0} };

    ghost Rests = { λ _. Unit {0} };

    ghost HasEnded = { HasMadeAll };

    ghost IsReason = { λ rerun wanted _ after. IsSecondReason rerun wanted after };

    ghost HasMade = { λ _ _ _ _. Unit {0} };

    fn ask(&self, thread: &mut SecondThread, wanted: Access) -> Result<u64, NotMade<Halt>> {
        thread.begun = None;
        if thread.left < LINES_OF_ACCESS {
            return Err(NotMade::NoRoom);
        }
        match self.ask(&mut thread.follower, wanted) {
            Ok(value) => {
                thread.left -= lines_taken(wanted, thread.region);
                thread.region = false;
                Ok(value)
            }
            Err(Halt::Waits { .. }) => {
                thread.begun = Some(wanted);
                Err(NotMade::Waits)
            }
            Err(halt) => Err(NotMade::Left { halt }),
        }
    }

    fn region(&self, thread: &mut SecondThread) {
        thread.region = true;
    }

    // No thread waits for another one that rests: each is told what was recorded.
    fn safe_point(&self, _thread: &mut SecondThread) {}

    fn block(&self, _thread: &mut SecondThread) {}

    fn unblock(&self, _thread: &mut SecondThread) {}

    fn finish(&self, thread: &mut SecondThread) -> Result<(), NotMade<Halt>> {
        match self.finish(&mut thread.follower) {
            Ok(()) => Ok(()),
            Err(Halt::Waits { .. }) => Err(NotMade::Waits),
            Err(halt) => Err(NotMade::Left { halt }),
        }
    }
}
