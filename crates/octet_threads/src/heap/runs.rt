//! Runners at work: each runs its thread to its end, all beside each other.
ghost use Rattle.std.specs.Prelude.{◌≡◌, ◌⊎◌, All};
ghost use Rattle.std.specs.List.{AllZip};
ghost use Rattle.std.specs.Option.{ForSome};
ghost use Rattle.std.specs.Thread.{IsSync};
ghost use Rattle.octet_live.specs.Feeds.{HasSent};
ghost use Rattle.octet_threads.specs.Runners.{end_by, IsAtRest, IsAtWork, HasCarried, HasEnded, HasRested, IsSame, IsSeen};

use crate::access_backoff::AccessBackoff;
use crate::crew::Crew;
use crate::heap::carrying::carry_with_backoff;
use crate::heap::gate::HeapGate;
use crate::heap::pace::Pace;
use crate::heap::runner::Runner;
use octet_heap::Heap;
use octet_interp::Demand;
use octet_live::Feed;
use octet_model::Gapped;
use std::sync::Wait;
use std::thread;
use std::thread::Threads;
use std::time::Duration;

// Sends the marks that were not sent yet, as far as the ring has room, where there is a ring.
fn send_new(feed: &mut Option<Feed>, marks: &[Gapped])
    requires { ForSome feed.old (λ feed. HasSent feed marks.now) }
    ensures sent { ForSome feed.new (λ feed. HasSent feed marks.now) }
    ensures same { end_by feed.new ≡ end_by feed.old }
{
    if let Some(feed) = feed {
        feed.send(marks);
    }
}

impl Runner {
    // Carries out one demand of the thread, and sends the marks that were made, if they are to be sent.
    fn step<R: Threads + Wait + Sync, G: HeapGate>(
        &mut self,
        rt: &R,
        heap: &Heap,
        gate: &G,
        backoff: &mut AccessBackoff,
    ) -> Demand
        requires work { IsAtWork heap.now self.old }
        ensures carried { HasCarried heap.now result self.new }
        ensures seen { IsSeen self.new.worker }
        ensures same { IsSame self.old self.new }
    {
        let demand = carry_with_backoff(
            rt,
            heap,
            &mut self.worker,
            &mut self.config,
            gate,
            backoff,
        );
        send_new(&mut self.feed, self.worker.marks());
        demand
    }

    // Stays away from work for so long at most, marked as blocked.
    fn stay_away<R: Wait>(&mut self, rt: &R, heap: &Heap, crew: &Crew, rung: u32, time: Duration)
        requires work { IsAtWork heap.now self.old }
        ensures work { IsAtWork heap.now self.new }
        ensures rested { HasRested self.old self.new }
    {
        heap.block(&mut self.worker);
        crew.rest(rt, rung, time);
        heap.unblock(&mut self.worker);
    }

    // Rests, where its accesses have waited a lot and its next demand is another one, unless no other is
    // at work. Before any other demand it stays as worn as it is: with `safe` after each access it would
    // else never rest.
    #[cold]
    #[inline(never)]
    fn rest<R: Wait>(&mut self, rt: &R, heap: &Heap, backoff: &mut AccessBackoff, crew: &Crew)
        requires work { IsAtWork heap.now self.old }
        ensures work { IsAtWork heap.now self.new }
        ensures rested { (self.new ≡ self.old) ⊎ HasRested self.old self.new }
        ensures same { IsSame self.old self.new }
    {
        match self.config.peek() {
            Demand::Read { .. } | Demand::Write { .. } | Demand::Bump { .. } => {}
            Demand::Safe | Demand::Pause | Demand::Ended { .. } => return,
        }
        let time = backoff.recover();
        if let Some(rung) = crew.stop() {
            self.stay_away(rt, heap, crew, rung, time);
        }
    }

    // Dozes, where its thread waits for what others are to do, unless all others have ended. Where all
    // others rest, one of them goes on.
    #[cold]
    #[inline(never)]
    fn doze<R: Wait>(&mut self, rt: &R, heap: &Heap, crew: &Crew, time: Duration)
        requires work { IsAtWork heap.now self.old }
        ensures work { IsAtWork heap.now self.new }
        ensures rested { (self.new ≡ self.old) ⊎ HasRested self.old self.new }
        ensures same { IsSame self.old self.new }
    {
        if let Some(rung) = crew.stand_by() {
            self.stay_away(rt, heap, crew, rung, time);
        }
    }

    // Runs the thread to its end, and counts it then. Never a part of its caller, where each access would
    // first fetch the heap and the gate from a closure: a twentieth more for objects of one thread.
    #[inline(never)]
    fn run<R: Threads + Wait + Sync, G: HeapGate>(
        &mut self,
        rt: &R,
        heap: &Heap,
        gate: &G,
        crew: &Crew,
    )
        requires { IsAtRest heap.now self.old }
        ensures ended { HasEnded heap.now self.new }
        ensures same { IsSame self.old self.new }
    {
        crew.begin(rt);
        heap.unblock(&mut self.worker);
        let mut backoff = AccessBackoff::new();
        let mut pace = Pace::new();
        for _ in rt.forever() {
            let demand = self.step(rt, heap, gate, &mut backoff);
            if let Demand::Ended { .. } = demand {
                crew.end();
                return;
            }
            if let Some(time) = pace.after(demand, &self.worker) {
                self.doze(rt, heap, crew, time);
            }
            if backoff.is_worn() {
                self.rest(rt, heap, &mut backoff, crew);
            }
        }
        unreachable!()
    }
}

/// Runs them all, each on a thread of its own, beside each other.
pub(crate) fn run_all<R: Threads + Wait + Sync, G: HeapGate>(
    rt: &R,
    heap: &Heap,
    gate: &G,
    crew: &Crew,
    runners: &mut [Runner],
)
    requires { All (IsAtRest heap.now) runners.old }
    ensures ended { All (HasEnded heap.now) runners.new }
    ensures same { AllZip IsSame runners.old runners.new }
{
    if runners.is_empty() {
        return;
    }
    let threads = runners.len();
    thread::for_each_mut(
        rt,
        runners,
        threads,
        &|_, runner: &mut Runner| -> ()
            requires { IsSync R.row × IsSync G.row × IsAtRest heap.now runner.now }
            ensures { HasEnded heap.entry.now runner.exit.now × IsSame runner.entry.now runner.exit.now }
        { runner.run(rt, heap, gate, crew) },
    );
}
