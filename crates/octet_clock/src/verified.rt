//! The check of a script and a log.
ghost use Rattle.std.specs.Prelude.{◌≡◌, IfOk, IfErr};
ghost use Rattle.octet_model.specs.Orders.{execution, lowest_order};
ghost use Rattle.octet_replay.specs.Judged.{HasCause};
ghost use Rattle.octet_clock.specs.Verified.{IsVerified};

use crate::checker::judge;
use crate::verdict::Verdict;
use octet_model::{Log, Outcome, Script};
use octet_replay::{ReplayFault, Replayer};
use std::alloc::Global;

/// What a log is found to be, and what its lowest order comes to.
#[derive(Drop)]
pub struct Verified {
    pub verdict: Verdict,
    pub outcome: Outcome,
}

/// Checks that a log orders all conflicts: that in the journals of its lowest order, of every two
/// conflicting accesses one happens before the other. Then all lawful orders of the log have one
/// outcome. Where it does not, names the first access in the lowest order that some earlier
/// conflicting access does not happen before, and that one. Refuses what a replay refuses.
pub fn verify(alloc: Global, script: &Script, log: &Log) -> Result<Verdict, ReplayFault>
    ensures verdict { IfOk result (IsVerified script.now log.now.threads) }
    ensures refused { IfErr result (HasCause script.now log.now.threads) }
{
    let verified = verify_and_replay(alloc, script, log)?;
    Ok(verified.verdict)
}

/// The same, with the outcome of the lowest order, which the check makes anyway.
pub fn verify_and_replay(alloc: Global, script: &Script, log: &Log) -> Result<Verified, ReplayFault>
    ensures verdict { IfOk result (λ verified. IsVerified script.now log.now.threads verified.verdict) }
    ensures outcome { IfOk result (λ verified. verified.outcome ≡ execution script.now log.now.threads (lowest_order script.now log.now.threads)) }
    ensures refused { IfErr result (HasCause script.now log.now.threads) }
{
    let mut replayer = Replayer::new(alloc, script, log)?;
    let verdict = judge(alloc, &mut replayer, log.threads.len())?;
    replayer.run();
    let outcome = replayer.end(alloc)?;
    Ok(Verified { verdict, outcome })
}
