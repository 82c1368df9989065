//! The field and its players at first.
ghost use Rattle.std.specs.Prelude.{◌≡◌, ◌<◌, length, IfOk};
ghost use Rattle.octet_clock.specs.Untied.{IsUntied};
ghost use Rattle.octet_parallel.specs.Calls.{script_in, log_in, IsPlayerAt, ArePlayersAt, EachUnbegun};

use crate::draws::draws_of;
use crate::fate::Fate;
use crate::field::Field;
use crate::player::{Player, WORDS_APART};
use crate::words::{Seat, Words};
use octet_model::{List, Log, OutOfMemory, Script};
use octet_replay::ThreadReplay;
use std::alloc::Global;

impl Field {
    /// The field of a script and an untied log of equally many threads, and one player per thread,
    /// in order. Reserves the room for all journals.
    pub fn new(
        alloc: Global,
        script: &Script,
        log: &Log,
    ) -> Result<(Field, List<Player>), OutOfMemory>
        requires threads { length script.now.threads ≡ length log.now.threads }
        requires untied { IsUntied log.now.threads }
        ensures of { IfOk result (λ new. (script_in new.0 ≡ script.now) × (log_in new.0 ≡ log.now)) }
        ensures players { IfOk result (λ new. (length new.1 ≡ length log.now.threads) × EachUnbegun new.0 new.1) }
    {
        let draws = draws_of(alloc, log)?;
        let (words, seats) = Words::new(alloc, script, log)?;
        let players = players_of(alloc, script, log, seats)?;
        let field = Field {
            words,
            log: log.try_clone(alloc)?,
            draws,
        };
        Ok((field, List::from_vec(players)))
    }
}

// One player for each seat.
fn players_of(
    alloc: Global,
    script: &Script,
    log: &Log,
    seats: Vec<Seat>,
) -> Result<Vec<Player>, OutOfMemory>
    requires agree { length script.now.threads ≡ length log.now.threads }
    requires seats { length seats.items ≡ length log.now.threads }
    ensures { IfOk result (λ players. ArePlayersAt script.now log.now.threads 0 seats.items players.items) }
{
    let mut players = Vec::new(alloc);
    let mut number = 0;
    for seat in seats {
        players.push(player(alloc, script, log, number, seat)?)?;
        number += 1;
    }
    Ok(players)
}

// The player of a seat that has taken no step, with room for all events of its log.
fn player(
    alloc: Global,
    script: &Script,
    log: &Log,
    number: u8,
    seat: Seat,
) -> Result<Player, OutOfMemory>
    requires agree { length script.now.threads ≡ length log.now.threads }
    requires number { number < length log.now.threads }
    ensures { IfOk result (λ player. IsPlayerAt script.now log.now.threads number seat player) }
{
    let own = &log.threads.as_slice()[number as usize];
    let events = own.accesses as usize + own.marks.len();
    Ok(Player {
        seat,
        number,
        fate: Fate::Playing,
        replay: ThreadReplay::new(alloc, script, own, number)?,
        journal: Vec::with_capacity(alloc, events)?,
        padding: [0; WORDS_APART],
    })
}
