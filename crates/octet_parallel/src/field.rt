//! The field of a replay on threads.
ghost use Rattle.std.specs.Prelude.{◌≡◌};
ghost use Rattle.octet_parallel.specs.Draws.{AreDraws};
ghost use Rattle.octet_parallel.specs.Seats.{log_of};

mod close;
mod new;
mod step;

use crate::draws::PlayerEvents;
use crate::words::Words;
use octet_model::Log;

/// What the players of a replay share: the words, the log, and where its draws stand.
#[derive(Drop)]
pub struct Field {
    pub(crate) words: Words,
    pub(crate) log: Log,
    pub(crate) draws: Vec<PlayerEvents>,
    ghost of: { log_of words ≡ log },
    ghost known: { AreDraws (log_of words).threads draws.items },
}
