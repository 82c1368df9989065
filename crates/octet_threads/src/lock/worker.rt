//! The workers: each takes the turns of one thread of the machine.
ghost use Rattle.std.specs.Prelude.{◌≡◌, ◌<◌, true, length};
ghost use Rattle.std.specs.Thread.{IsSync};
ghost use Rattle.octet_model.specs.declared.limits.TheConstants.{MAX_THREADS};

use crate::access_backoff::AccessBackoff;
use crate::crew::Crew;
use crate::lock::step::{Found, step};
use crate::tuning::TURNS;
use octet_base::Gate;
use octet_machine::{Machine, Turned};
use octet_model::MAX_THREADS;
use octet_state::Why;
use std::sync::{Mutex, Wait};
use std::thread;
use std::thread::Threads;

// The thread that has to go first, if there is one.
fn first(why: Why) -> Option<u8> {
    match why {
        Why::Held { by, .. } | Why::Unanswered { by, .. } => Some(by),
        Why::Changed { .. } => None,
    }
}

// Whether the machine has the thread, and no gate is to be passed before its next turn.
fn is_free(machine: &Machine, thread: u8) -> bool
    ensures { result ≡ true → thread < length machine.now.runners }
{
    thread < machine.threads() && machine.wants(thread).is_none()
}

// Takes a turn of the thread that has to go first, of the one for which that one waits, and so on,
// until a thread went on, but so many at most. A thread that is to pass the gate takes none. Tells
// whether any went on.
fn help(machine: &mut Machine, why: Why, most: u8) -> bool
    ensures { length machine.new.runners ≡ length machine.old.runners }
{
    let Some(by) = first(why) else {
        return true;
    };
    if most == 0 {
        return true;
    }
    if !is_free(machine, by) {
        return false;
    }
    match machine.turn(by) {
        Turned::Moved => true,
        Turned::Ended => false,
        Turned::Waits { why } => help(machine, why, most - 1),
    }
}

// Takes a turn of one thread, and where it has to wait, turns of those that have to go first. Where
// one of those went on, so did it.
fn take_turn(machine: &mut Machine, thread: u8, passed: Option<u32>) -> Found
    requires { thread < length machine.old.runners }
    ensures { length machine.new.runners ≡ length machine.old.runners }
{
    let threads = machine.threads();
    match step(machine, thread, passed) {
        Found::AtGate { access } => Found::AtGate { access },
        Found::Took {
            turned: Turned::Moved,
        } => Found::Took {
            turned: Turned::Moved,
        },
        Found::Took {
            turned: Turned::Ended,
        } => Found::Took {
            turned: Turned::Ended,
        },
        Found::Took {
            turned: Turned::Waits { why },
        } => Found::Took {
            turned: if help(machine, why, threads) {
                Turned::Moved
            } else {
                Turned::Waits { why }
            },
        },
    }
}

// Whether the thread went on.
fn has_moved(found: Found) -> bool {
    match found {
        Found::Took {
            turned: Turned::Moved,
        } => true,
        _ => false,
    }
}

// Takes some turns of one thread, with those of others for which it waits, unless the gate is to be
// passed before. A thread that the machine does not have finds none: of a machine under a lock only
// its type is known.
fn take_turns(machine: &mut Machine, thread: u8, passed: Option<u32>) -> Option<Found> {
    if thread >= machine.threads() {
        return None;
    }
    for _ in 0..TURNS {
        let found = take_turn(machine, thread, passed);
        if !has_moved(found) {
            return Some(found);
        }
    }
    Some(Found::Took {
        turned: Turned::Moved,
    })
}

// Marks a thread of the machine as blocked for a while, between two demands.
fn rest(machine: &mut Machine, thread: u8) {
    if thread < machine.threads() {
        machine.rest(thread);
    }
}

// Stays away from work for a while, with its thread marked as blocked, unless no other worker is at work.
#[cold]
fn stay_away<R: Wait>(
    rt: &R,
    shared: &Mutex<Machine>,
    crew: &Crew,
    backoff: &mut AccessBackoff,
    thread: u8,
) {
    let time = backoff.recover();
    if let Some(rung) = crew.stop() {
        rest(&mut shared.lock(rt), thread);
        crew.rest(rt, rung, time);
    }
}

// Takes the turns of one thread until it has ended, and passes the gate before each access. Before that
// it rests, where the accesses of its thread have waited a lot.
fn work<R: Threads + Wait + Sync, G: Gate>(
    rt: &R,
    shared: &Mutex<Machine>,
    gate: &G,
    crew: &Crew,
    thread: u8,
) {
    crew.begin(rt);
    let mut backoff = AccessBackoff::new();
    let mut passed = None;
    for _ in rt.forever() {
        // The lock is let go of here, and not after the match.
        let found = take_turns(&mut shared.lock(rt), thread, passed);
        match found {
            Some(Found::AtGate { .. }) if backoff.is_worn() => stay_away(
                rt,
                shared,
                crew,
                &mut backoff,
                thread,
            ),
            Some(Found::AtGate { access }) => {
                gate.pass(rt, thread, access);
                passed = Some(access);
            }
            Some(
                Found::Took {
                    turned: Turned::Moved,
                },
            ) => {}
            Some(
                Found::Took {
                    turned: Turned::Waits { why },
                },
            ) => backoff.wait(rt, why, passed.unwrap_or(0)),
            Some(
                Found::Took {
                    turned: Turned::Ended,
                },
            )
            | None => break,
        }
    }
    crew.end();
}

/// Runs a worker for each of so many threads, all beside each other.
pub(crate) fn run_workers<R: Threads + Wait + Sync, G: Gate>(
    rt: &R,
    shared: &Mutex<Machine>,
    gate: &G,
    threads: u8,
) {
    let mut places = [(); MAX_THREADS];
    let many = usize::from(threads).min(MAX_THREADS);
    let crew = Crew::new(many);
    let crew = &crew;
    thread::for_each_mut(
        rt,
        &mut places[..many],
        MAX_THREADS,
        &|thread, _: &mut ()| -> ()
            requires { IsSync R.row × IsSync G.row × (thread < MAX_THREADS) }
        { work(rt, shared, gate, crew, thread as u8) },
    );
}
