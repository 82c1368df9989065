//! What C is told of a thread that goes on no more.
ghost use Rattle.std.specs.Prelude.{ℕ, ℤ};
ghost use Rattle.octet_c.specs.Statuses.{Halts, IsSpent, LongHalts};

use crate::status::{DIVERGED, HALTED, OVER, PENDING, SPENT};
use octet_session::Halt;
use octet_stream::Full;

/// Why a thread goes on no more, as C is told.
pub(crate) trait Told: Copy {
    ghost Tells: { Self → ℤ → ℕ → ℕ → Type 0 };

    /// The status. Where the thread has left its recording, `out` is how many accesses it has made.
    fn tell(self, out: &mut u64) -> i32
        ensures { Tells self result out.old out.new };
}

impl Told for Halt {
    ghost Tells = { Halts };

    fn tell(self, out: &mut u64) -> i32 {
        match self {
            Halt::Diverges { divergence } => {
                *out = u64::from(divergence.accesses);
                DIVERGED
            }
            Halt::Waits { .. } => PENDING,
            Halt::Stopped { .. } | Halt::Amiss => HALTED,
        }
    }
}

impl Told for Full {
    ghost Tells = { IsSpent };

    fn tell(self, _out: &mut u64) -> i32 {
        SPENT
    }
}

impl Told for octet_stream::Halt {
    ghost Tells = { LongHalts };

    fn tell(self, out: &mut u64) -> i32 {
        match self {
            octet_stream::Halt::Diverges { divergence } => {
                *out = divergence.to;
                DIVERGED
            }
            octet_stream::Halt::Stopped { .. } | octet_stream::Halt::Amiss => HALTED,
            octet_stream::Halt::RecordingEnds => OVER,
        }
    }
}
