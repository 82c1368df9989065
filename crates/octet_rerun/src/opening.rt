//! A second run at its start.
ghost use Rattle.std.specs.Prelude.{◌≡◌, ◌≤◌, length, IfOk, IfErr};
ghost use Rattle.octet_model.specs.declared.limits.TheConstants.{MAX_THREADS};
ghost use Rattle.octet_clock.specs.Fronts.{OrdersConflicts};
ghost use Rattle.octet_parallel.specs.Calls.{script_in, log_in, players_in, EachUnbegun};
ghost use Rattle.octet_rerun.specs.Reruns.{players_of, EachAtStart, ArePlain, Refuses};

use crate::fault::RerunFault;
use crate::first::First;
use crate::follower::Follower;
use crate::rerun::Rerun;
use octet_clock::{Verdict, verify};
use octet_model::{List, Log, OutOfMemory, Script};
use octet_parallel::{Field, Player};
use octet_replay::journals;
use std::alloc::Global;

impl Rerun {
    /// What the threads of a second run share, and a follower for each of them, in order. The script and the
    /// log are a recording that fits and orders all conflicts, as those of every recorder are; others are
    /// refused. Reserves all the room that a run needs. Takes as long as two replays.
    pub fn new(
        alloc: Global,
        script: &Script,
        log: &Log,
    ) -> Result<(Rerun, List<Follower>), RerunFault>
        ensures of { IfOk result (λ new. (script_in new.0.field ≡ script.now) × (log_in new.0.field ≡ log.now)) }
        ensures as_many { IfOk result (λ new. (length new.1 ≡ length log.now.threads) × (players_in new.0.field ≡ length log.now.threads)) }
        ensures followers { IfOk result (λ new. EachAtStart new.0 new.1) }
        ensures refused { IfErr result (Refuses script.now log.now.threads) }
    {
        match verify(alloc, script, log)? {
            Verdict::Unordered { first, second } => Err(RerunFault::Unordered { first, second }),
            Verdict::Ordered => open(alloc, script, log),
        }
    }
}

// The same, where the log orders all conflicts.
fn open(alloc: Global, script: &Script, log: &Log) -> Result<(Rerun, List<Follower>), RerunFault>
    requires ordered { OrdersConflicts script.now log.now.threads }
    ensures of { IfOk result (λ new. (script_in new.0.field ≡ script.now) × (log_in new.0.field ≡ log.now)) }
    ensures as_many { IfOk result (λ new. (length new.1 ≡ length log.now.threads) × (players_in new.0.field ≡ length log.now.threads)) }
    ensures followers { IfOk result (λ new. EachAtStart new.0 new.1) }
    ensures refused { IfErr result (Refuses script.now log.now.threads) }
{
    let recorded = journals(alloc, script, log)?;
    let (field, players) = Field::new(alloc, script, log)?;
    let followers = followers_of(alloc, players.into_vec())?;
    let rerun = Rerun {
        field,
        recorded,
        diverged: First::new(),
    };
    Ok((rerun, List::from_vec(followers)))
}

// A follower for each player, which has made nothing.
fn followers_of(alloc: Global, players: Vec<Player>) -> Result<Vec<Follower>, OutOfMemory>
    requires few { length players.items ≤ MAX_THREADS }
    ensures players { IfOk result (λ followers. players_of followers.items ≡ players.items) }
    ensures plain { IfOk result (λ followers. ArePlain 0 followers.items) }
{
    let mut followers = Vec::new(alloc);
    let mut thread = 0;
    for player in players {
        followers.push(Follower {
            player,
            thread,
            made: 0,
            accesses: 0,
        })?;
        thread += 1;
    }
    Ok(followers)
}
