//! Marks are placed, by their gaps.
ghost use Rattle.std.specs.Prelude.{◌≡◌, ◌+◌, ℕ, IfOk, IfSome, IfNone, OnSome};
ghost use Rattle.octet_tail.specs.declared.needs.TheConstants.{THREADS};
ghost use Rattle.octet_tail.specs.Places.{come_at, place_of, passed, AreUncounted, ComesTo};

use crate::needs::THREADS;
use crate::placed::Placed;
use crate::places::{Come, Places};
use octet_model::{Gapped, OutOfMemory};
use std::alloc::Global;

impl Places {
    /// No event of a thread has come.
    pub fn new(alloc: Global) -> Result<Places, OutOfMemory>
        ensures { IfOk result (λ places. (thread : ℕ) → come_at places thread ≡ record { events = 0; accesses = 0 }) }
    {
        let mut come = Vec::new(alloc);
        for _thread in 0..THREADS {
            come.push(Come {
                events: 0,
                accesses: 0,
            })?;
        }
        Ok(Places { come })
    }

    /// How far a thread has come.
    pub fn come(&self, thread: u8) -> Come
        ensures { result ≡ come_at self.now thread }
    {
        self.come[thread as usize]
    }

    /// The thread makes so many accesses. None where its events cannot be counted, and then nothing has changed.
    pub fn pass(&mut self, thread: u8, gap: u32) -> Option<()>
        ensures comes { OnSome result (ComesTo thread (passed gap (come_at self.old thread)) self.old self.new) }
        ensures uncounted { IfNone result (AreUncounted (passed gap (come_at self.old thread)).events (passed gap (come_at self.old thread)).accesses × (self.new ≡ self.old)) }
    {
        let come = self.come(thread);
        let events = come.events.checked_add(u64::from(gap))?;
        let accesses = come.accesses.checked_add(u64::from(gap))?;
        self.come[thread as usize] = Come { events, accesses };
        Some(())
    }

    /// The thread makes so many accesses, and then the mark. Answers where it stands. None where its events cannot be
    /// counted, and then nothing has changed.
    pub fn place(&mut self, thread: u8, gapped: Gapped) -> Option<Placed>
        ensures placed { IfSome result (λ placed. placed ≡ place_of self.old thread gapped) }
        ensures comes { IfSome result (λ placed. ComesTo thread (record { events = placed.events; accesses = placed.accesses }) self.old self.new) }
        ensures uncounted { IfNone result (AreUncounted (place_of self.old thread gapped).events (place_of self.old thread gapped).accesses × (self.new ≡ self.old)) }
    {
        let come = self.come(thread);
        let accesses = come.accesses.checked_add(u64::from(gapped.gap))?;
        let events = come
            .events
            .checked_add(u64::from(gapped.gap))?
            .checked_add(1)?;
        self.come[thread as usize] = Come { events, accesses };
        Some(Placed {
            thread,
            events,
            accesses,
            mark: gapped.mark,
        })
    }
}
