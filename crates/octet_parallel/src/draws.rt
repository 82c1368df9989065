//! Which events a mark needs.
ghost use Rattle.std.specs.Prelude.{◌≡◌, ◌+◌, ◌<◌, ◌≤◌, ◌^◌, length, IfOk};
ghost use Rattle.std.specs.List.{All};
ghost use Rattle.octet_parallel.specs.Draws.{drawn_number, noted, noted_all, noted_of, highest_of, highest_in, AreDraws};
ghost use Rattle.octet_clock.specs.Untied.{IsUntied};

use octet_model::{Gapped, Log, Mark, OutOfMemory, ThreadLog};
use std::alloc::Global;

/// So many events of that player.
#[derive(Clone, Copy)]
pub(crate) struct PlayerEvents {
    pub(crate) whom: u8,
    pub(crate) events: u64,
}

// The number that a mark draws, 0 where it draws none.
fn drawn_number(mark: Mark) -> u64
    ensures { result ≡ drawn_number mark }
{
    match mark {
        Mark::Draw { number } => number,
        Mark::Join { .. } | Mark::Fence { .. } => 0,
    }
}

// The highest number that is drawn, or this one where it is higher.
fn highest_of(marks: &[Gapped], before: u64) -> u64
    ensures { result ≡ highest_of marks.now before }
{
    let mut highest = before;
    for next in marks {
        highest = highest.max(drawn_number(next.mark));
    }
    highest
}

fn highest_in(logs: &[ThreadLog]) -> u64
    ensures { result ≡ highest_in logs.now 0 }
{
    let mut highest = 0;
    for log in logs {
        highest = highest_of(log.marks.as_slice(), highest);
    }
    highest
}

// Notes where a mark stands, if it is a draw.
fn note(draws: &mut [PlayerEvents], thread: u8, place: u64, mark: Mark)
    requires { place + 1 < 2 ^ 64 }
    ensures { draws.new ≡ noted draws.old thread place mark }
{
    if let Mark::Draw { number } = mark {
        if number > 0 && number <= draws.len() as u64 {
            draws[(number - 1) as usize] = PlayerEvents {
                whom: thread,
                events: place + 1,
            };
        }
    }
}

// Notes the next mark of a thread, which has this place before its gap. Answers the place after it.
fn note_next(draws: &mut [PlayerEvents], thread: u8, place: u64, next: &Gapped) -> u64
    requires { place < 2 ^ 63 }
    ensures draws { draws.new ≡ noted draws.old thread (place + next.now.gap) next.now.mark }
    ensures place { result ≡ place + next.now.gap + 1 }
    ensures near { result ≤ place + 2 ^ 32 }
{
    let stands = place + u64::from(next.gap);
    note(draws, thread, stands, next.mark);
    stands + 1
}

// Notes where the draws of a thread stand.
fn note_all(draws: &mut [PlayerEvents], thread: u8, marks: &[Gapped])
    requires { length marks.now < 2 ^ 31 }
    ensures { draws.new ≡ noted_all draws.old thread 0 marks.now }
{
    let mut place = 0;
    for next in 0..marks.len() {
        place = note_next(draws, thread, place, &marks[next]);
    }
}

fn note_logs(draws: &mut [PlayerEvents], logs: &[ThreadLog])
    requires few { All (λ log. length log.marks < 2 ^ 31) logs.now }
    requires threads { length logs.now < 2 ^ 8 }
    ensures { draws.new ≡ noted_of draws.old 0 logs.now }
{
    for thread in 0..logs.len() {
        note_all(draws, thread as u8, logs[thread].marks.as_slice());
    }
}

/// Where each draw of the log stands, by its number.
pub(crate) fn draws_of(alloc: Global, log: &Log) -> Result<Vec<PlayerEvents>, OutOfMemory>
    requires { IsUntied log.now.threads }
    ensures { IfOk result (λ draws. AreDraws log.now.threads draws.items) }
{
    let logs = log.threads.as_slice();
    let highest = highest_in(logs);
    let none = PlayerEvents { whom: 0, events: 0 };
    let mut draws = vec![in alloc; none; highest as usize]?;
    note_logs(draws.as_mut_slice(), logs);
    Ok(draws)
}
