//! A schedule of one run.
ghost use Rattle.std.specs.Prelude.{◌≡◌, ◌≤◌, length, MatchOption};
ghost use Rattle.std.specs.Option.{ForSome};
ghost use Rattle.octet_model.specs.declared.limits.TheConstants.{MAX_THREADS};
ghost use Rattle.octet_schedule.specs.Ready.{IsReady, SomeIsReady, NoneIsReady};
ghost use Rattle.octet_schedule.specs.Schedules.{begins, by_bursts, uniform, is_tired, ready_worker, Goes, Notes, Picks, Prioritizes, Rests};

use crate::drawn::Drawn;
use crate::draws::Draws;
use crate::priorities::{Changes, Priorities};
use crate::ready::{first_in, is_ready};
use crate::written::Written;

/// After so many accesses in a row a thread is tired: another one is picked, if one is ready, so that one that waits in a loop
/// lets the others go on.
pub const MOST_IN_A_ROW: u32 = 64;

/// How the next thread is picked, of those that are ready.
#[derive(Drop)]
pub(crate) enum Way {
    Drawn(Drawn),
    Priorities(Priorities),
    Written(Written),
}

/// A schedule of one run.
#[derive(Drop)]
pub struct Schedule {
    draws: Draws,
    way: Way,
    at_work: Option<u8>,
    in_a_row: u32,
}

impl Schedule {
    fn by(draws: Draws, way: Way) -> Schedule
        ensures { result ≡ begins draws.generator way }
    {
        Schedule {
            draws,
            way,
            at_work: None,
            in_a_row: 0,
        }
    }

    /// Before each access any thread is drawn.
    pub fn uniform(draws: Draws) -> Schedule
        ensures { result ≡ uniform draws.generator }
    {
        Schedule::by(draws, Way::Drawn(Drawn::Uniform))
    }

    /// A thread makes up to so many accesses in a row, and then another one.
    pub fn by_bursts(draws: Draws, longest: u64) -> Schedule
        ensures { result ≡ by_bursts draws.generator longest }
    {
        Schedule::by(draws, Way::Drawn(Drawn::Bursts { longest, left: 0 }))
    }

    /// The thread at work goes on, but for so many switches, which come at any of so many accesses.
    pub fn with_switches(draws: Draws, switches: u64, accesses: u64) -> Schedule
        ensures { result ≡ begins draws.generator (Way.Drawn (Drawn.Switches switches accesses)) }
    {
        Schedule::by(draws, Way::Drawn(Drawn::Switches { switches, accesses }))
    }

    /// The thread of the lowest rank goes on. Ranks are drawn, and a few times the thread at work is put last.
    pub fn by_priorities(mut draws: Draws, changes: Changes) -> Schedule
        ensures { Prioritizes draws.generator changes result }
    {
        let priorities = Priorities::drawn(&mut draws, changes);
        Schedule::by(draws, Way::Priorities(priorities))
    }

    /// As it is written. A thread that is not ready is passed over; after the last one, the one at work goes on.
    pub fn written(picks: Vec<u8>) -> Schedule
        ensures { result ≡ begins 0 (Way.Written (record { picks = picks; place = 0 })) }
    {
        Schedule::by(Draws::new(0), Way::Written(Written { picks, place: 0 }))
    }

    // The thread at work, if it is ready.
    fn ready_worker(&self, ready: &[bool]) -> Option<u8>
        ensures { result ≡ ready_worker self.now ready.now }
    {
        match self.at_work {
            Some(thread) if is_ready(ready, thread) => Some(thread),
            _ => None,
        }
    }

    // One of those that are ready, by the way of the schedule.
    fn choose(&mut self, ready: &[bool], at_work: Option<u8>) -> u8
        requires few { length ready.now ≤ MAX_THREADS }
        requires some { SomeIsReady ready.now }
        requires at_work { ForSome at_work (λ thread. IsReady ready.now thread) }
        ensures ready { IsReady ready.now result }
        ensures rests { Rests self.old.way ready.now at_work (is_tired self.old) result }
        ensures goes { Goes self.old.way self.old.draws.generator ready.now at_work (is_tired self.old) result self.new.way self.new.draws.generator }
        ensures at_work { self.new.at_work ≡ self.old.at_work }
        ensures in_a_row { self.new.in_a_row ≡ self.old.in_a_row }
    {
        let is_tired = self.in_a_row >= MOST_IN_A_ROW;
        let draws = &mut self.draws;
        match &mut self.way {
            Way::Drawn(drawn) => drawn.pick(draws, ready, at_work, is_tired),
            Way::Priorities(priorities) => priorities.pick(draws, ready, at_work, is_tired),
            Way::Written(written) => written.pick(draws, ready, at_work),
        }
    }

    // Counts how many accesses the thread at work has made in a row.
    fn note(&mut self, thread: u8)
        ensures notes { Notes self.old thread self.new }
        ensures way { self.new.way ≡ self.old.way }
        ensures draws { self.new.draws ≡ self.old.draws }
    {
        if self.at_work == Some(thread) {
            self.in_a_row = self.in_a_row.saturating_add(1);
        } else {
            self.in_a_row = 1;
        }
        self.at_work = Some(thread);
    }

    /// The thread that makes the next access: a ready one. Where none is ready, nothing changes.
    pub fn pick(&mut self, ready: &[bool]) -> Option<u8>
        requires { length ready.now ≤ MAX_THREADS }
        ensures { MatchOption result (NoneIsReady ready.now × (self.new ≡ self.old)) (λ thread. Picks self.old ready.now thread self.new) }
    {
        if first_in(ready, 0, ready.len() as u8, None).is_none() {
            return None;
        }
        let at_work = self.ready_worker(ready);
        let thread = self.choose(ready, at_work);
        self.note(thread);
        Some(thread)
    }
}
