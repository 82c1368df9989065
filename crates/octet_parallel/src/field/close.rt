//! A field is closed, and its replay told.
ghost use Rattle.std.specs.Prelude.{◌≡◌, ◌≢◌, ◌<◌, All, length, map, IfOk, IfSome, IfNone};
ghost use Rattle.octet_replay.specs.Threads.{end_told, values_of};
ghost use Rattle.octet_parallel.specs.declared.fate.Fate.TheVariants.{Playing as StillPlaying};
ghost use Rattle.octet_parallel.specs.Calls.{script_in, log_in, players_in, EachEnded, ClosesTo, ClosesAfterRun, fate_at};

use crate::fate::Fate;
use crate::field::Field;
use crate::finished::Finished;
use crate::player::Player;
use crate::words::Seat;
use octet_model::{End, Event, List, OutOfMemory, Outcome};
use std::alloc::Global;

// What players leave that have ended.
#[derive(Drop)]
struct Left {
    seats: Vec<Seat>,
    reads: List<List<u64>>,
    journals: List<List<Event>>,
}

impl Field {
    /// The journals and the outcome of the replay, which are those of a lawful order, where every
    /// player is through. None where one is amiss or stopped. Either way the field closes after a run
    /// in which each player took the steps that its seat knows of, and no others. All players of the
    /// field are handed in, in order, and each of them has ended.
    pub fn close(
        self,
        alloc: Global,
        players: List<Player>,
    ) -> Result<Option<Finished>, OutOfMemory>
        requires all { length players ≡ players_in self }
        requires ended { EachEnded self players }
        ensures closes { IfOk result (λ closed. ClosesTo (script_in self) (log_in self).threads players closed) }
        ensures run { IfOk result (λ closed. ClosesAfterRun (script_in self) (log_in self) players closed) }
    {
        let stopped = first_stopped(players.as_slice());
        let ends = ends_of(alloc, players.as_slice())?;
        let left = left_of(alloc, players.into_vec())?;
        let cells = self.words.close(alloc, left.seats)?;
        match stopped {
            Some(_place) => Ok(None),
            None => Ok(Some(Finished {
                outcome: Outcome {
                    ends,
                    reads: left.reads,
                    heap: List::from_vec(cells),
                },
                journals: left.journals,
            })),
        }
    }
}

// The first player that does not play on.
fn first_stopped(players: &[Player]) -> Option<usize>
    ensures some { IfSome result (λ place. (place < length players.now) × (fate_at players.now place ≢ StillPlaying)) }
    ensures none { IfNone result (All (λ player. player.fate ≡ StillPlaying) players.now) }
{
    for place in 0..players.len() {
        if players[place].fate != Fate::Playing {
            return Some(place);
        }
    }
    None
}

// How each thread ended.
fn ends_of(alloc: Global, players: &[Player]) -> Result<List<End>, OutOfMemory>
    ensures { IfOk result (λ ends. ends ≡ map (λ player. end_told player.replay) players.now) }
{
    let mut ends = List::new(alloc);
    for player in players {
        ends.push(player.replay.end())?;
    }
    Ok(ends)
}

fn left_of(alloc: Global, players: Vec<Player>) -> Result<Left, OutOfMemory>
    ensures seats { IfOk result (λ left. left.seats.items ≡ map (λ player. player.seat) players.items) }
    ensures reads { IfOk result (λ left. left.reads ≡ map (λ player. values_of player.replay) players.items) }
    ensures journals { IfOk result (λ left. left.journals ≡ map (λ player. player.journal.items) players.items) }
{
    let mut seats = Vec::new(alloc);
    let mut reads = List::new(alloc);
    let mut journals = List::new(alloc);
    for player in players {
        let Player {
            seat,
            replay,
            journal,
            ..
        } = player;
        seats.push(seat)?;
        reads.push(List::from_vec(replay.into_reads()))?;
        journals.push(List::from_vec(journal))?;
    }
    Ok(Left {
        seats,
        reads,
        journals,
    })
}
