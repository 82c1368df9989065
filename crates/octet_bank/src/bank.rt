//! Two tellers and an account, recorded and run again.
ghost use Rattle.std.specs.Prelude.{◌≡◌, [], ◌∷◌, None, length, IfOk, OnOk, IfSome, IsSomeAnd};
ghost use Rattle.octet_heap.specs.Workers.{seat_of};
ghost use Rattle.octet_model.specs.Journals.{log_of};
ghost use Rattle.octet_model.specs.Orders.{IsFaithful};
ghost use Rattle.octet_model.specs.declared.outcome.Outcome.{Outcome};
ghost use Rattle.octet_parallel.specs.Calls.{script_in, log_in, players_in};
ghost use Rattle.octet_recorder.specs.Tracks.{RestsAs};
ghost use Rattle.octet_rerun.specs.Reruns.{IsAtStart, IsAtEnd};
ghost use Rattle.octet_bank.specs.Reports.{Serves};
ghost use Rattle.octet_bank.specs.Tellers.{IsOfBank, IsLogOfPayments};

use crate::beside::{pay_both, pay_both_again};
use crate::fault::Fault;
use crate::report::{save, tell};
use crate::teller::Payments;
use octet_base::Desk;
use octet_log::encode_v1;
use octet_model::{DEFAULT_FUEL, List, Name, Object, OutOfMemory, Outcome, Script};
use octet_recorder::{Recorder, Recording, Track};
use octet_rerun::{Follower, Rerun};
use octet_script::print;
use octet_session::SecondThread;
use std::alloc::Global;
use std::sync::Wait;
use std::thread::Threads;

/// The balance at first.
const START: u64 = 100;

/// One account and two tellers. They have no commands: what they do is the program's own.
fn bank(alloc: Global) -> Result<Script, OutOfMemory>
    ensures { IfOk result IsOfBank }
{
    let mut objects = List::new(alloc);
    objects.push(Object {
        name: Name::new(alloc, b"balance")?,
        start: START,
    })?;
    let mut threads = List::new(alloc);
    threads.push(List::new(alloc))?;
    threads.push(List::new(alloc))?;
    Ok(Script {
        fuel: DEFAULT_FUEL,
        objects,
        threads,
    })
}

/// Ends the recorded run: the tracks are handed back, in order.
fn closed(
    recorder: Recorder,
    alloc: Global,
    first: Track,
    second: Track,
) -> Result<Recording, OutOfMemory>
    requires bank { IsOfBank recorder.opening }
    requires first { RestsAs recorder 0 first }
    requires second { RestsAs recorder 1 second }
    ensures faithful { IfOk result (λ r. IsFaithful r.script r.log.threads r.outcome) }
    ensures bank { IfOk result (λ r. IsOfBank r.script) }
    ensures tellers { IfOk result (λ r. length r.log.threads ≡ 2) }
    ensures log { IfOk result (λ r. r.log.threads ≡ log_of ((seat_of first.worker).journal ∷ (seat_of second.worker).journal ∷ [])) }
{
    let mut tracks = List::new(alloc);
    tracks.push(first)?;
    tracks.push(second)?;
    recorder.close(alloc, tracks)
}

/// A run of both tellers as a recording.
fn recorded<R: Threads + Wait + Sync>(
    rt: &R,
    alloc: Global,
    payments: Payments,
) -> Result<Recording, OutOfMemory>
    ensures faithful { IfOk result (λ r. IsFaithful r.script r.log.threads r.outcome) }
    ensures bank { IfOk result (λ r. IsOfBank r.script) }
    ensures tellers { IfOk result (λ r. length r.log.threads ≡ 2) }
    ensures paid { IfOk result (λ r. IsLogOfPayments payments.first payments.second r.log.threads) }
{
    let (recorder, tracks) = Recorder::new(alloc, bank(alloc)?)?;
    let mut tracks = tracks.into_vec();
    let mut second = tracks.remove(1);
    let mut first = tracks.remove(0);
    pay_both(rt, &recorder, &mut first, &mut second, payments);
    closed(recorder, alloc, first, second)
}

/// Ends the second run.
fn finished(
    rerun: Rerun,
    alloc: Global,
    first: Follower,
    second: Follower,
) -> Result<Outcome, OutOfMemory>
    requires tellers { players_in rerun.field ≡ 2 }
    requires first { IsAtEnd rerun 0 first }
    requires second { IsAtEnd rerun 1 second }
    ensures { IfOk result (λ again. (outcome : Outcome) → IsFaithful (script_in rerun.field) (log_in rerun.field).threads outcome → again ≡ outcome) }
{
    let mut followers = List::new(alloc);
    followers.push(first)?;
    followers.push(second)?;
    Ok(rerun.close(alloc, followers)?.outcome)
}

/// The second run of a recording, and a follower for each teller.
fn reopened(alloc: Global, recording: &Recording) -> Result<(Rerun, Follower, Follower), Fault>
    requires tellers { length recording.now.log.threads ≡ 2 }
    ensures of { IfOk result (λ new. (script_in new.0.field ≡ recording.now.script) × (log_in new.0.field ≡ recording.now.log)) }
    ensures tellers { IfOk result (λ new. players_in new.0.field ≡ 2) }
    ensures first { IfOk result (λ new. IsAtStart new.0 0 new.1) }
    ensures second { IfOk result (λ new. IsAtStart new.0 1 new.2) }
{
    let (rerun, followers) = Rerun::new(alloc, &recording.script, &recording.log)?;
    let mut followers = followers.into_vec();
    let second = followers.remove(1);
    let first = followers.remove(0);
    Ok((rerun, first, second))
}

/// The same tellers run again. What they come to is what was recorded.
fn again<R: Threads + Wait + Sync>(
    rt: &R,
    alloc: Global,
    recording: &Recording,
    payments: Payments,
) -> Result<Outcome, Fault>
    requires faithful { IsFaithful recording.now.script recording.now.log.threads recording.now.outcome }
    requires bank { IsOfBank recording.now.script }
    requires tellers { length recording.now.log.threads ≡ 2 }
    ensures { IfOk result (λ outcome. outcome ≡ recording.now.outcome) }
{
    let (rerun, first, second) = reopened(alloc, recording)?;
    let fuel = recording.script.fuel;
    let mut first = SecondThread::new(first, fuel);
    let mut second = SecondThread::new(second, fuel);
    let answers = pay_both_again(rt, &rerun, &mut first, &mut second, payments);
    let (Ok(()), Ok(())) = answers else {
        return Err(Fault::Left);
    };
    let outcome = finished(rerun, alloc, first.into_follower(), second.into_follower())?;
    Ok(outcome)
}

/// The amounts that two words are.
fn payments_of(words: &[String]) -> Option<Payments> {
    let [first, second] = words else {
        return None;
    };
    Some(Payments {
        first: first.parse().ok()?,
        second: second.parse().ok()?,
    })
}

/// Does what the words of a command line say: both tellers pay, the recording is written, and they pay again.
pub(crate) fn serve<R: Threads + Wait + Sync, D: Desk>(
    rt: &R,
    alloc: Global,
    words: &[String],
    desk: &mut D,
) -> Result<(), Fault>
    requires { (D.state desk.old).begun ≡ None }
    ensures { OnOk result (IfSome (D.state desk.old).contents (λ before. IsSomeAnd (D.state desk.new).contents (Serves before))) }
{
    let payments = payments_of(words).ok_or(Fault::Words)?;
    let recording = recorded(rt, alloc, payments)?;
    save(alloc, desk, "bank.octet", &print(alloc, &recording.script)?)?;
    save(alloc, desk, "bank.log", &encode_v1(alloc, &recording.log)?)?;
    let total = START + u64::from(payments.first) + u64::from(payments.second);
    tell(alloc, desk, "", &recording.outcome, total)?;
    let outcome = again(rt, alloc, &recording, payments)?;
    tell(alloc, desk, "again: ", &outcome, total)
}
