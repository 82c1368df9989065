//! Two players of a log that step one by one, on one thread of the machine.
ghost use Rattle.std.specs.Prelude.{◌≡◌, true};
ghost use Rattle.octet_parallel.specs.Calls.{IsPlayerOf, players_in, view_of};
ghost use Rattle.octet_parallel.specs.Judging.{HasPlayed};

use crate::samples::{JOIN, LogThread, log, script};
use octet_clock::untied;
use octet_model::{List, Log, OutOfMemory, Script};
use octet_parallel::{Field, Finished, Played, Player};
use std::alloc::Global;
use std::test::*;

/// Whether the player's next steps come to this.
fn steps_to(field: &Field, player: &mut Player, wanted: &[Played]) -> bool
    requires { IsPlayerOf field.now player.old }
    ensures own { IsPlayerOf field.now player.new }
    ensures number { (view_of player.new).number ≡ (view_of player.old).number }
{
    for step in wanted {
        if field.step(player) != *step {
            return false;
        }
    }
    true
}

/// Whether one more step tells that the player has ended.
fn has_ended(field: &Field, player: &mut Player) -> bool
    requires { IsPlayerOf field.now player.old }
    ensures own { IsPlayerOf field.now player.new }
    ensures number { (view_of player.new).number ≡ (view_of player.old).number }
    ensures ended { result ≡ true → HasPlayed field.now player.new }
{
    match field.step(player) {
        Played::Made | Played::Waits { .. } => false,
        Played::Through | Played::Amiss | Played::Stopped { .. } => true,
    }
}

fn close_both(
    field: Field,
    alloc: Global,
    first: Player,
    second: Player,
) -> Result<Option<Finished>, OutOfMemory>
    requires field { players_in field ≡ 2 }
    requires first { HasPlayed field first × ((view_of first).number ≡ 0) }
    requires second { HasPlayed field second × ((view_of second).number ≡ 1) }
{
    let mut players = List::new(alloc);
    players.push(first)?;
    players.push(second)?;
    field.close(alloc, players)
}

/// What the second player comes to, then the first one, and then the second one again; and the last values, where
/// the log is that of an order.
type Row = (
    &'static [u8],
    &'static [LogThread],
    [&'static [Played]; 3],
    Option<u64>,
);

/// What the field closes to. Nothing where the log is none that can be replayed so, or where a step comes to
/// something else.
fn played(
    alloc: Global,
    script: &Script,
    log: &Log,
    steps: [&[Played]; 3],
) -> Result<Option<Option<Finished>>, OutOfMemory> {
    if script.threads.len() != 2 || log.threads.len() != 2 || !untied(alloc, log)? {
        return Ok(None);
    }
    let (field, players) = Field::new(alloc, script, log)?;
    let mut players = players.into_vec();
    let mut second = players.remove(1);
    let mut first = players.remove(0);
    let [early, of_first, late] = steps;
    let waits = steps_to(&field, &mut second, early);
    let makes = steps_to(&field, &mut first, of_first);
    let goes_on = steps_to(&field, &mut second, late);
    if !waits || !makes || !goes_on {
        return Ok(None);
    }
    if !has_ended(&field, &mut first) {
        return Ok(None);
    }
    if !has_ended(&field, &mut second) {
        return Ok(None);
    }
    Ok(Some(close_both(field, alloc, first, second)?))
}

const WAITS: Played = Played::Waits {
    whom: 0,
    needs: 1,
    found: 0,
};

const ROWS: [Row; 2] = [
    (
        b"object x 5\nthread\nset r0 7\nwrite x r0\nthread\nread r0 x\n",
        &[(1, &[]), (1, &[(JOIN, 0, 0, 1)])],
        [
            &[WAITS],
            &[Played::Made, Played::Through],
            &[Played::Made, Played::Made, Played::Through],
        ],
        Some(7),
    ),
    (
        b"object x 5\nthread\nread r0 x\nthread\n",
        &[(2, &[]), (0, &[])],
        [&[], &[Played::Made, Played::Amiss], &[Played::Through]],
        None,
    ),
];

#[test]
fn players_step_as_the_log_lets_them(rt: HostRuntime) -> Result<(), Fail> {
    let alloc = rt.alloc();
    for (text, threads, steps, value) in ROWS {
        let (script, log) = (script(alloc, text)?, log(alloc, threads)?);
        let Some(closed) = played(alloc, &script, &log, steps)? else {
            return Err(Fail::new("a step comes to something else"));
        };
        let left = closed.and_then(|finished| finished.outcome.heap.get(0).copied());
        assert_eq!(rt; left, value, "{text:?}");
    }
    Ok(())
}
