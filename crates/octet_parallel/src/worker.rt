//! Players at work: each on a thread of its own, beside the others. What these leave is played on
//! one thread.
ghost use Rattle.std.specs.Prelude.{◌≡◌, true, All};
ghost use Rattle.std.specs.List.{AllZip};
ghost use Rattle.std.specs.Thread.{IsSync};
ghost use Rattle.octet_parallel.specs.Calls.{view_of, IsPlayerOf, EndsBy};
ghost use Rattle.octet_parallel.specs.Judging.{HasPlayed, IsSamePlayer};

use crate::crew::Crew;
use crate::field::Field;
use crate::passing::pass_before;
use crate::played::Played;
use crate::player::Player;
use crate::player_backoff::PlayerBackoff;
use crate::words::STOP_NUMBER;
use octet_base::Gate;
use std::sync::Wait;
use std::thread;
use std::thread::Threads;

/// How many rounds are played on one thread before the players have threads of their own again. Each
/// time twice as many.
const FIRST_ROUNDS: u32 = 4096;

/// How many events a player makes at most in a round.
const EVENTS_OF_A_ROUND: u32 = 1024;

/// Players have threads again, too, after this part of the rounds in a row in which several made all of
/// these events.
const ROUNDS_FOR_A_BUSY_ONE: u32 = 2048;

// Takes the player's next step. Passes the gate before an access.
#[inline(always)]
fn take_step<R: Threads + Wait + Sync, G: Gate>(
    rt: &R,
    field: &Field,
    gate: &G,
    player: &mut Player,
) -> Played
    requires { IsPlayerOf field.now player.old }
    ensures own { IsPlayerOf field.now player.new }
    ensures same { IsSamePlayer player.old player.new }
    ensures ends { EndsBy result (view_of player.new) }
{
    let next = field.next_step(player);
    pass_before(rt, gate, player.number, next, player.replay.accesses());
    field.take(player, next)
}

// Plays until the player has to wait, has ended or has made the events of a round. Answers what its
// last step came to.
#[inline(always)]
fn play_events<R: Threads + Wait + Sync, G: Gate>(
    rt: &R,
    field: &Field,
    gate: &G,
    crew: &Crew,
    player: &mut Player,
) -> Played
    requires { IsPlayerOf field.now player.old }
    ensures own { IsPlayerOf field.now player.new }
    ensures same { IsSamePlayer player.old player.new }
    ensures ends { EndsBy result (view_of player.new) }
{
    let number = player.number;
    for _ in 0..EVENTS_OF_A_ROUND {
        match take_step(rt, field, gate, player) {
            Played::Made => crew.tell(number, player.journal.len() as u64),
            played => return played,
        }
    }
    Played::Made
}

// Plays on a thread of its own, to the end or until the workers are called off.
fn work<R: Threads + Wait + Sync, G: Gate>(
    rt: &R,
    field: &Field,
    gate: &G,
    crew: &Crew,
    player: &mut Player,
)
    requires { IsPlayerOf field.now player.old }
    ensures own { IsPlayerOf field.now player.new }
    ensures same { IsSamePlayer player.old player.new }
{
    crew.begin();
    let number = player.number;
    let mut backoff = PlayerBackoff::new(!gate.is_open());
    for _ in rt.forever() {
        let before = player.journal.len();
        let played = play_events(rt, field, gate, crew, player);
        backoff.restart(player.journal.len().saturating_sub(before));
        match played {
            Played::Made => {}
            Played::Waits { whom, needs, found } => {
                if !backoff.wait(rt, crew, whom, needs, found) {
                    return;
                }
            }
            Played::Through | Played::Amiss | Played::Stopped { .. } => {
                crew.leave();
                crew.tell(number, STOP_NUMBER);
                return;
            }
        }
    }
    unreachable!()
}

// Lets all of them play, each on a thread of its own, beside each other.
fn play_beside<R: Threads + Wait + Sync, G: Gate>(
    rt: &R,
    field: &Field,
    gate: &G,
    crew: &Crew,
    players: &mut [Player],
)
    requires { All (IsPlayerOf field.now) players.old }
    ensures own { All (IsPlayerOf field.now) players.new }
    ensures same { AllZip IsSamePlayer players.old players.new }
{
    if players.is_empty() {
        return;
    }
    let threads = players.len();
    thread::for_each_mut(
        rt,
        players,
        threads,
        &|_, player: &mut Player| -> ()
            requires { IsSync R.row × IsSync G.row × IsPlayerOf field.now player.now }
            ensures { IsPlayerOf field.entry.now player.exit.now × IsSamePlayer player.entry.now player.exit.now }
        { work(rt, field, gate, crew, player) },
    );
}

// Plays a round. Tells whether the player has ended.
fn play_on<R: Threads + Wait + Sync, G: Gate>(
    rt: &R,
    field: &Field,
    gate: &G,
    crew: &Crew,
    player: &mut Player,
) -> bool
    requires { IsPlayerOf field.now player.old }
    ensures own { IsPlayerOf field.now player.new }
    ensures same { IsSamePlayer player.old player.new }
    ensures ended { result ≡ true → HasPlayed field.now player.new }
{
    match play_events(rt, field, gate, crew, player) {
        Played::Made => {
            crew.note_full_round();
            false
        }
        Played::Waits { .. } => false,
        Played::Through | Played::Amiss | Played::Stopped { .. } => true,
    }
}

/// Lets one after the other play on. Tells whether all have ended.
pub(crate) fn play_round<R: Threads + Wait + Sync, G: Gate>(
    rt: &R,
    field: &Field,
    gate: &G,
    crew: &Crew,
    players: &mut [Player],
) -> bool
    requires { All (IsPlayerOf field.now) players.old }
    ensures own { All (IsPlayerOf field.now) players.new }
    ensures same { AllZip IsSamePlayer players.old players.new }
    ensures ended { result ≡ true → All (HasPlayed field.now) players.new }
{
    let Some((first, others)) = players.split_first_mut() else {
        return true;
    };
    let has_ended = play_on(rt, field, gate, crew, first);
    let have_ended = play_round(rt, field, gate, crew, others);
    has_ended && have_ended
}

// Plays so many rounds at most, and fewer where several players need not wait, since threads are of use
// then. Tells whether all players have ended.
fn play_rounds<R: Threads + Wait + Sync, G: Gate>(
    rt: &R,
    field: &Field,
    gate: &G,
    crew: &Crew,
    players: &mut [Player],
    rounds: u32,
) -> bool
    requires { All (IsPlayerOf field.now) players.old }
    ensures own { All (IsPlayerOf field.now) players.new }
    ensures same { AllZip IsSamePlayer players.old players.new }
    ensures ended { result ≡ true → All (HasPlayed field.now) players.new }
{
    let mut busy: u32 = 0;
    for _ in 0..rounds {
        if play_round(rt, field, gate, crew, players) {
            return true;
        }
        busy = if crew.is_busy() {
            busy.saturating_add(1)
        } else {
            0
        };
        if busy > rounds / ROUNDS_FOR_A_BUSY_ONE {
            return false;
        }
    }
    false
}

/// Lets all of them play to their ends: each on a thread of its own, beside each other, as long as
/// threads are to be had and are of use, and else on one thread.
pub(crate) fn play_all<R: Threads + Wait + Sync, G: Gate>(
    rt: &R,
    field: &Field,
    gate: &G,
    crew: &Crew,
    players: &mut [Player],
)
    requires { All (IsPlayerOf field.now) players.old }
    ensures played { All (HasPlayed field.now) players.new }
    ensures same { AllZip IsSamePlayer players.old players.new }
{
    let mut rounds = FIRST_ROUNDS;
    for _ in rt.forever() {
        crew.gather();
        play_beside(rt, field, gate, crew, players);
        let most = if crew.lacks_threads() {
            u32::MAX
        } else {
            rounds
        };
        if play_rounds(rt, field, gate, crew, players, most) {
            return;
        }
        rounds = rounds.saturating_mul(2);
    }
    unreachable!()
}
