//! Where a thread stands between two calls.
ghost use Rattle.std.specs.Prelude.{◌≡◌, Some, IfErr, OnOk};
ghost use Rattle.octet_host.specs.Stages.{why_not_idle, why_not_resting};
ghost use Rattle.octet_host.specs.declared.stage.Stage.TheVariants.{Resting, Idle};

use crate::misuse::Misuse;
use octet_session::Access;

/// Where a thread stands between two calls.
#[derive(Clone, Copy, Debug, PartialEq, Eq)]
pub enum Stage {
    /// Off or blocked.
    Resting,
    /// It runs, and has begun no access.
    Idle,
    /// It has begun this access, which waits for another thread.
    Begun { wanted: Access },
    /// It has made all of its recording, and is over.
    Ended,
}

impl Stage {
    /// Refuses a thread that does not run, or has begun an access.
    #[inline(always)]
    pub fn idle(self) -> Result<(), Misuse>
        ensures is { OnOk result (self ≡ Idle) }
        ensures why { IfErr result (λ misuse. why_not_idle self ≡ Some misuse) }
    {
        if let Stage::Idle = self {
            return Ok(());
        }
        match self {
            Stage::Begun { .. } => Err(Misuse::Begun),
            _ => Err(Misuse::Resting),
        }
    }

    /// Refuses a thread that runs, or is over.
    pub fn resting(self) -> Result<(), Misuse>
        ensures is { OnOk result (self ≡ Resting) }
        ensures why { IfErr result (λ misuse. why_not_resting self ≡ Some misuse) }
    {
        match self {
            Stage::Resting => Ok(()),
            Stage::Ended => Err(Misuse::Resting),
            Stage::Idle | Stage::Begun { .. } => Err(Misuse::Running),
        }
    }
}
