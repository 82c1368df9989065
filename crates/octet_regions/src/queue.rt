//! The regions of one thread, and what they wait for.
ghost use Rattle.std.specs.Prelude.{◌≡◌, ◌+◌, ◌<◌, ◌≤◌, ◌∷◌, ◌++◌, [], ℕ, List, Some, OnOk, length, slice_get};
ghost use Rattle.octet_regions.specs.declared.access.Access.{Access};
ghost use Rattle.octet_regions.specs.code.Bounds.{bound_in, bounds_of};
ghost use Rattle.octet_regions.specs.code.Earlier.{AddsWaits, BoundConflicts, KeepsQueue, KnowsWaits, LowestUnmet, PassesWaits, RegionsRise, TellsFree, is_lower};
ghost use Rattle.octet_regions.specs.declared.queue.QueuedRegion.{QueuedRegion as QueuedOf};

use crate::Region;
use crate::bounds::Bounds;
use octet_model::{MAX_THREADS, OutOfMemory};
use std::alloc::Global;

/// A region of a thread, and how many waits its thread has up to the region's last one.
#[derive(Clone, Copy)]
pub(crate) struct QueuedRegion {
    pub(crate) number: u32,
    pub(crate) waits_upto: usize,
}

/// A wait for all regions of a thread below this number to be taken.
#[derive(Clone, Copy)]
pub(crate) struct Wait {
    pub(crate) of: u8,
    pub(crate) bound: u32,
}

/// The regions of one thread in order, how many of them were taken, and what they wait for, one
/// after another. A region stands behind what earlier ones waited for, so that a wait is kept only
/// where it goes beyond what is known; how many of them are over is kept, too.
#[derive(Drop)]
pub(crate) struct RegionQueue {
    pub(crate) regions: Vec<QueuedRegion>,
    pub(crate) waits: Vec<Wait>,
    pub(crate) known: Bounds,
    pub(crate) taken: usize,
    pub(crate) over: usize,
}

fn is_lower(thread: u8, than: Option<u8>) -> bool
    ensures { result ≡ is_lower thread than }
{
    match than {
        Some(other) => thread < other,
        None => true,
    }
}

impl RegionQueue {
    pub(crate) fn new(alloc: Global) -> RegionQueue
        ensures regions { result.regions.items ≡ [] }
        ensures waits { result.waits.items ≡ [] }
        ensures known { (thread : ℕ) → bound_in result.known thread ≡ 0 }
        ensures taken { result.taken ≡ 0 }
        ensures over { result.over ≡ 0 }
    {
        RegionQueue {
            regions: Vec::new(alloc),
            waits: Vec::new(alloc),
            known: Bounds::new(),
            taken: 0,
            over: 0,
        }
    }

    /// The next region, if one is left.
    pub(crate) fn next(&self) -> Option<QueuedRegion>
        ensures { result ≡ slice_get self.now.regions.items self.now.taken }
    {
        self.regions.get(self.taken).copied()
    }

    // Adds a wait for each other thread of which a bound is not known.
    fn add_each(&mut self, thread: u8, conflicts: &Bounds) -> Result<(), OutOfMemory>
        ensures regions { OnOk result (self.new.regions ≡ self.old.regions) }
        ensures taken { OnOk result (self.new.taken ≡ self.old.taken) }
        ensures over { OnOk result (self.new.over ≡ self.old.over) }
        ensures adds { OnOk result (AddsWaits thread (bound_in conflicts.now) self.old.waits.items self.old.known self.new.waits.items self.new.known) }
    {
        for other in 0..MAX_THREADS {
            if other == thread as usize {
                continue;
            }
            let bound = conflicts.of(other);
            if bound <= self.known.of(other) {
                continue;
            }
            self.waits.push(Wait {
                of: other as u8,
                bound,
            })?;
            self.known.raise(other as u8, bound);
        }
        Ok(())
    }

    // The same, where there are conflicts.
    #[inline(always)]
    fn add_waits(&mut self, thread: u8, conflicts: Option<&Bounds>) -> Result<(), OutOfMemory>
        ensures regions { OnOk result (self.new.regions ≡ self.old.regions) }
        ensures taken { OnOk result (self.new.taken ≡ self.old.taken) }
        ensures over { OnOk result (self.new.over ≡ self.old.over) }
        ensures adds { OnOk result (AddsWaits thread (bounds_of conflicts.entry) self.old.waits.items self.old.known self.new.waits.items self.new.known) }
    {
        match conflicts {
            Some(bounds) => self.add_each(thread, bounds),
            None => Ok(()),
        }
    }

    /// Takes in an access in this region, with bounds on the regions that have an earlier access in
    /// conflict with it, where there are any.
    #[inline(always)]
    pub(crate) fn take_in(
        &mut self,
        region: Region,
        conflicts: Option<&Bounds>,
    ) -> Result<(), OutOfMemory>
        ensures taken { OnOk result (self.new.taken ≡ self.old.taken) }
        ensures over { OnOk result (self.new.over ≡ self.old.over) }
        ensures knows { OnOk result (KnowsWaits self.old.waits.items self.old.known → KnowsWaits self.new.waits.items self.new.known) }
        ensures keeps { OnOk result ((seen : List Access) (access : Access) → access.region ≡ region → RegionsRise (seen ++ access ∷ []) → BoundConflicts seen access (bounds_of conflicts.entry) → KnowsWaits self.old.waits.items self.old.known → KeepsQueue seen region.thread self.old.regions.items self.old.waits.items → KeepsQueue (seen ++ access ∷ []) region.thread self.new.regions.items self.new.waits.items) }
    {
        self.add_waits(region.thread, conflicts)?;
        let waits_upto = self.waits.len();
        let many = self.regions.len();
        if many > 0 && self.regions[many - 1].number == region.number {
            self.regions[many - 1].waits_upto = waits_upto;
            return Ok(());
        }
        self.regions.push(QueuedRegion {
            number: region.number,
            waits_upto,
        })?;
        Ok(())
    }

    /// The number of the next region, where all that it waits for is taken, as these bounds say.
    /// Goes past the waits that are over, and looks at none of them again.
    pub(crate) fn free(&mut self, taken: &Bounds) -> Option<u32>
        requires { (item : QueuedOf) → slice_get self.old.regions.items self.old.taken ≡ Some item → item.waits_upto ≤ length self.old.waits.items }
        ensures passes { PassesWaits self.old taken.now self.new }
        ensures tells { TellsFree self.new taken.now result }
    {
        let item = self.next()?;
        while self.over < item.waits_upto {
            let wait = self.waits[self.over];
            if wait.bound > taken.of(wait.of as usize) {
                return None;
            }
            self.over += 1;
        }
        Some(item.number)
    }

    /// Of the threads of which a region waits for regions that are not taken, the lowest.
    pub(crate) fn lowest_unmet(&self, item: QueuedRegion, taken: &Bounds) -> Option<u8>
        requires { item.waits_upto ≤ length self.now.waits.items }
        ensures { LowestUnmet self.now taken.now item.waits_upto result }
    {
        let mut lowest = None;
        for place in self.over..item.waits_upto {
            let wait = self.waits[place];
            if wait.bound <= taken.of(wait.of as usize) {
                continue;
            }
            if !is_lower(wait.of, lowest) {
                continue;
            }
            lowest = Some(wait.of);
        }
        lowest
    }

    /// Takes the next region, behind all that it waits for.
    pub(crate) fn take(&mut self)
        requires { self.old.taken < length self.old.regions.items }
        ensures regions { self.new.regions ≡ self.old.regions }
        ensures waits { self.new.waits ≡ self.old.waits }
        ensures taken { self.new.taken ≡ self.old.taken + 1 }
        ensures over { (item : QueuedOf) → slice_get self.old.regions.items self.old.taken ≡ Some item → self.new.over ≡ item.waits_upto }
    {
        self.over = self.regions[self.taken].waits_upto;
        self.taken += 1;
    }
}
