//! How a worker waits for another player, and when threads are of no use.
use crate::crew::Crew;
use std::hint;
use std::sync::Wait;

/// How often a worker looks again before it sleeps. This number and those that follow are estimates:
/// no contract rests on them.
const LOOKS_BEFORE_SLEEP: u32 = 40;

/// How often it sleeps at most while not all workers have begun.
const MOST_SLEEPS: u32 = 100;

/// After so many waits it is judged whether threads are of use: they are where a worker made at
/// least so many events for each wait. A wait may take as long as that many events.
const WAITS_BEFORE_JUDGED: u32 = 32;

const EVENTS_FOR_A_WAIT: usize = 512;

/// Threads are of no use either where workers slept while one player alone made events, until it had
/// made as many as one of them, and so many more.
const LONE_EVENTS: u64 = 1 << 14;

/// How long a worker has waited for its next event, and how much its last events had to.
///
/// A player that runs is likely to make soon what is needed: so at first the worker looks again and
/// again. One that has no processor gets none sooner by looks: so then it sleeps. Until it is woken
/// and runs, many events could be made on one thread: so where players wait a lot, or one plays while
/// all others wait, they are played on one thread for some rounds, unless they have to pass a gate.
#[derive(Drop)]
pub(crate) struct PlayerBackoff {
    is_gated: bool,
    looks: u32,
    rung: Option<u32>,
    sleeps: u32,
    waits: u32,
    events: usize,
    all_events: u64,
}

impl PlayerBackoff {
    pub(crate) fn new(is_gated: bool) -> PlayerBackoff {
        PlayerBackoff {
            is_gated,
            looks: 0,
            rung: None,
            sleeps: 0,
            waits: 0,
            events: 0,
            all_events: 0,
        }
    }

    /// The worker made so many events since it waited last.
    pub(crate) fn restart(&mut self, events: usize) {
        if events > 0 {
            self.looks = 0;
            self.rung = None;
            self.events = self.events.saturating_add(events);
            self.all_events = self.all_events.saturating_add(events as u64);
        }
    }

    // Whether its last events waited so much that threads are of no use.
    fn is_worn(&mut self) -> bool {
        self.waits = self.waits.saturating_add(1);
        if self.is_gated || self.waits < WAITS_BEFORE_JUDGED {
            return false;
        }
        let is_worn = self.events < WAITS_BEFORE_JUDGED as usize * EVENTS_FOR_A_WAIT;
        self.waits = 0;
        self.events = 0;
        is_worn
    }

    // Whether the workers wait for one player at a time, so that threads are of no use. The worker is
    // about to sleep, and lacks so many events of another player.
    fn is_lonely(&self, crew: &Crew, lacks: u64) -> bool {
        if self.is_gated || self.rung.is_none() || !crew.has_one_player() {
            return false;
        }
        crew.note_lone(lacks) >= self.all_events.saturating_add(LONE_EVENTS)
    }

    // Sleeps, once it has looked again after it asked to be woken. Tells whether all workers have
    // begun, or may still do so.
    fn sleep<R: Wait>(&mut self, rt: &R, crew: &Crew, whom: u8, needs: u64) -> bool {
        let Some(rung) = self.rung else {
            self.rung = Some(crew.order(whom, needs));
            return true;
        };
        self.rung = None;
        crew.sleep(rt, whom, rung);
        if crew.is_complete() {
            return true;
        }
        self.sleeps = self.sleeps.saturating_add(1);
        self.sleeps < MOST_SLEEPS
    }

    /// Lets some time pass before the worker looks again, which needs so many events of another
    /// player and found fewer. Tells whether it is to go on.
    #[cold]
    #[inline(never)]
    pub(crate) fn wait<R: Wait>(
        &mut self,
        rt: &R,
        crew: &Crew,
        whom: u8,
        needs: u64,
        found: u64,
    ) -> bool {
        if crew.is_called_off() {
            return false;
        }
        if self.looks == 0 && self.is_worn() {
            crew.call_off();
            return false;
        }
        if self.looks < LOOKS_BEFORE_SLEEP {
            self.looks += 1;
            hint::spin_loop();
            return true;
        }
        if self.is_lonely(crew, needs.saturating_sub(found)) {
            crew.call_off();
            return false;
        }
        if self.sleep(rt, crew, whom, needs) {
            return true;
        }
        crew.give_up();
        false
    }
}
