//! Both tellers, each on a thread of its own. The borrow checker does not cover a `join_mut` that is generic over
//! `S::Thread`, so each kind of run starts its threads itself.
ghost use Rattle.std.specs.Prelude.{◌≡◌, None, [], length, IfOk};
ghost use Rattle.std.specs.Thread.{IsSync};
ghost use Rattle.octet_heap.specs.Workers.{seat_of};
ghost use Rattle.octet_parallel.specs.Calls.{script_in};
ghost use Rattle.octet_recorder.specs.Tracks.{number_of, IsTrackOf, IsNew, RestsAs};
ghost use Rattle.octet_rerun.specs.Reruns.{IsAtEnd};
ghost use Rattle.octet_session.specs.Recording.{TrackRests};
ghost use Rattle.octet_bank.specs.Tellers.{Pays, IsOfBank, IsReady};

use crate::teller::{Payments, pay};
use octet_recorder::{Recorder, Track};
use octet_rerun::Rerun;
use octet_session::{Halt, NotMade, SecondThread};
use std::sync::Wait;
use std::thread::{Threads, join_mut};

/// A teller that is recorded. It has room, and no recording to leave: so it pays.
fn pay_recorded<R: Wait>(rt: &R, recorder: &Recorder, teller: &mut Track, amount: u32)
    requires bank { IsOfBank recorder.now.opening }
    requires own { IsTrackOf recorder.now teller.old }
    requires rests { TrackRests teller.old }
    requires idle { teller.old.begun ≡ None }
    requires fresh { teller.old.commands.items ≡ [] }
    ensures own { IsTrackOf recorder.now teller.new }
    ensures rests { TrackRests teller.new }
    ensures number { number_of teller.new ≡ number_of teller.old }
    ensures paid { Pays amount (seat_of teller.old.worker).journal (seat_of teller.new.worker).journal }
{
    let Ok(()) = pay(rt, recorder, teller, amount) else {
        unreachable!()
    };
}

/// Both tellers, recorded.
pub(crate) fn pay_both<R: Threads + Wait + Sync>(
    rt: &R,
    recorder: &Recorder,
    first: &mut Track,
    second: &mut Track,
    payments: Payments,
)
    requires bank { IsOfBank recorder.now.opening }
    requires first { IsNew recorder.now 0 first.old }
    requires second { IsNew recorder.now 1 second.old }
    ensures first { RestsAs recorder.now 0 first.new }
    ensures second { RestsAs recorder.now 1 second.new }
    ensures first_paid { Pays payments.first [] (seat_of first.new.worker).journal }
    ensures second_paid { Pays payments.second [] (seat_of second.new.worker).journal }
{
    join_mut(
        rt,
        &mut || -> ()
            requires { IsSync R.row × IsOfBank recorder.now.opening × IsNew recorder.now 0 first.now }
            ensures rests { RestsAs recorder.entry.now 0 first.exit.now }
            ensures paid { Pays payments.first [] (seat_of first.exit.now.worker).journal }
        { pay_recorded(rt, recorder, first, payments.first) },
        &mut || -> ()
            requires { IsSync R.row × IsOfBank recorder.now.opening × IsNew recorder.now 1 second.now }
            ensures rests { RestsAs recorder.entry.now 1 second.exit.now }
            ensures paid { Pays payments.second [] (seat_of second.exit.now.worker).journal }
        { pay_recorded(rt, recorder, second, payments.second) },
    );
}

/// What a teller of a second run came to.
type Answer = Result<(), NotMade<Halt>>;

/// Both tellers, run again. Each pays, or has left its recording.
pub(crate) fn pay_both_again<R: Threads + Wait + Sync>(
    rt: &R,
    rerun: &Rerun,
    first: &mut SecondThread,
    second: &mut SecondThread,
    payments: Payments,
) -> (Answer, Answer)
    requires account { length (script_in rerun.now.field).objects ≡ 1 }
    requires first { IsReady rerun.now 0 first.old }
    requires second { IsReady rerun.now 1 second.old }
    ensures first { IfOk result.0 (λ _. IsAtEnd rerun.now 0 first.new.follower) }
    ensures second { IfOk result.1 (λ _. IsAtEnd rerun.now 1 second.new.follower) }
{
    join_mut(
        rt,
        &mut || -> Answer
            requires { IsSync R.row × (length (script_in rerun.now.field).objects ≡ 1) × IsReady rerun.now 0 first.now }
            ensures { IfOk result (λ _. IsAtEnd rerun.entry.now 0 first.exit.now.follower) }
        { pay(rt, rerun, first, payments.first) },
        &mut || -> Answer
            requires { IsSync R.row × (length (script_in rerun.now.field).objects ≡ 1) × IsReady rerun.now 1 second.now }
            ensures { IfOk result (λ _. IsAtEnd rerun.entry.now 1 second.exit.now.follower) }
        { pay(rt, rerun, second, payments.second) },
    )
}
