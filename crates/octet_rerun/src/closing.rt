//! A second run at its end.
ghost use Rattle.std.specs.Prelude.{◌≡◌, length, IfOk};
ghost use Rattle.octet_parallel.specs.Calls.{script_in, log_in, players_in};
ghost use Rattle.octet_rerun.specs.Reruns.{players_of, EachAtEnd, RepeatsRecording};

use crate::follower::Follower;
use crate::rerun::Rerun;
use octet_model::{List, OutOfMemory};
use octet_parallel::{Finished, Player};
use std::alloc::Global;

impl Rerun {
    /// Ends the run: all followers are handed in, in order, each at its end. Its journals and its outcome are
    /// those of the recording. Refused only where memory is.
    pub fn close(self, alloc: Global, followers: List<Follower>) -> Result<Finished, OutOfMemory>
        requires all { length followers ≡ players_in self.field }
        requires ended { EachAtEnd self followers }
        ensures { IfOk result (RepeatsRecording (script_in self.field) (log_in self.field).threads) }
    {
        let Rerun { field, .. } = self;
        let players = players_in_order(alloc, followers.into_vec())?;
        match field.close(alloc, players)? {
            Some(finished) => Ok(finished),
            None => unreachable!(),
        }
    }
}

fn players_in_order(alloc: Global, followers: Vec<Follower>) -> Result<List<Player>, OutOfMemory>
    ensures { IfOk result (λ players. players ≡ players_of followers.items) }
{
    let mut players = List::new(alloc);
    for follower in followers {
        players.push(follower.player)?;
    }
    Ok(players)
}
