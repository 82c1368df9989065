//! The serial choice: of the threads whose next region has no region left before it, always the
//! lowest one's is taken.
ghost use Rattle.std.specs.Prelude.{◌≡◌, ◌+◌, ◌^◌, ◌<◌, ◌≤◌, ◌∷◌, ◌++◌, [], ℕ, List, length, IfOk, OnOk};
ghost use Rattle.octet_regions.specs.Choice.{IsChosen};
ghost use Rattle.octet_regions.specs.code.Chooser.{AreEmptyQueues, AreQueuesOf, AreWithin, ChosenIs, FitQueues, FreeIs, HasChosen, IsBehind, KeepsChoice, left_of, LowestBehind};
ghost use Rattle.octet_regions.specs.Accesses.{accesses_of};
ghost use Rattle.octet_replay.specs.ReplayState.{HasHalted};
ghost use Rattle.octet_regions.specs.declared.access.Access.{Access as AccessOf};

use crate::Region;
use crate::bounds::Bounds;
use crate::gather::next_access;
use crate::last::LastRegions;
use crate::queue::RegionQueue;
use octet_model::{MAX_THREADS, OutOfMemory};
use octet_replay::Replayer;
use std::alloc::Global;

/// The regions of each thread, of each thread a bound on the regions that were taken, and these in
/// order.
#[derive(Drop)]
pub(crate) struct Chooser {
    pub(crate) queues: Vec<RegionQueue>,
    pub(crate) upto: Bounds,
    pub(crate) order: Vec<Region>,
}

fn empty_queues(alloc: Global, threads: usize) -> Result<Vec<RegionQueue>, OutOfMemory>
    ensures { IfOk result (λ queues. AreEmptyQueues threads queues.items) }
{
    let mut queues = Vec::new(alloc);
    for _ in 0..threads {
        queues.push(RegionQueue::new(alloc))?;
    }
    Ok(queues)
}

/// The regions of each thread, by all its accesses, and what they wait for.
pub(crate) fn queues_of(
    alloc: Global,
    threads: usize,
    replayer: &mut Replayer<'_>,
) -> Result<Vec<RegionQueue>, OutOfMemory>
    requires few { threads ≤ MAX_THREADS }
    requires threads { threads ≡ length replayer.old.script.threads }
    requires agree { length replayer.old.script.threads ≡ length replayer.old.log.threads }
    requires begins { replayer.old.steps ≡ 0 }
    ensures script { OnOk result (replayer.new.script ≡ replayer.old.script) }
    ensures log { OnOk result (replayer.new.log ≡ replayer.old.log) }
    ensures halted { OnOk result (HasHalted replayer.new) }
    ensures fit { OnOk result (FitQueues threads (accesses_of replayer.old.script replayer.old.log.threads)) }
    ensures queues { IfOk result (λ queues. AreQueuesOf threads (accesses_of replayer.old.script replayer.old.log.threads) queues.items) }
{
    let mut queues = empty_queues(alloc, threads)?;
    let mut last = LastRegions::new(alloc);
    while let Some(access) = next_access(replayer) {
        let conflicts = last.conflicts(access);
        let queue = &mut queues[access.region.thread as usize];
        queue.take_in(access.region, conflicts)?;
        last.note(access)?;
    }
    Ok(queues)
}

impl Chooser {
    /// Before the first choice.
    pub(crate) fn new(alloc: Global, queues: Vec<RegionQueue>) -> Chooser
        ensures keeps { (threads : ℕ) (accesses : List AccessOf) → FitQueues threads accesses → AreQueuesOf threads accesses queues.items → KeepsChoice accesses result }
        ensures none { result.order.items ≡ [] }
    {
        Chooser {
            queues,
            upto: Bounds::new(),
            order: Vec::new(alloc),
        }
    }

    // The number of the thread's next region, if none that is left is before it.
    fn free_in(&mut self, thread: usize) -> Option<u32>
        requires there { thread < length self.old.queues.items }
        requires within { AreWithin self.old.queues.items }
        ensures order { self.new.order ≡ self.old.order }
        ensures many { length self.new.queues.items ≡ length self.old.queues.items }
        ensures within { AreWithin self.new.queues.items }
        ensures left { left_of self.new.queues.items ≡ left_of self.old.queues.items }
        ensures keeps { (accesses : List AccessOf) → KeepsChoice accesses self.old → KeepsChoice accesses self.new }
        ensures free { (accesses : List AccessOf) → KeepsChoice accesses self.new → FreeIs accesses self.new.order.items thread result }
    {
        self.queues[thread].free(&self.upto)
    }

    // The region to be taken next.
    fn chosen(&mut self) -> Option<Region>
        requires few { length self.old.queues.items ≤ MAX_THREADS }
        requires within { AreWithin self.old.queues.items }
        ensures order { self.new.order ≡ self.old.order }
        ensures many { length self.new.queues.items ≡ length self.old.queues.items }
        ensures within { AreWithin self.new.queues.items }
        ensures left { left_of self.new.queues.items ≡ left_of self.old.queues.items }
        ensures keeps { (accesses : List AccessOf) → KeepsChoice accesses self.old → KeepsChoice accesses self.new }
        ensures chosen { (accesses : List AccessOf) → KeepsChoice accesses self.old → ChosenIs accesses self.new.order.items result }
    {
        for thread in 0..self.queues.len() {
            if let Some(number) = self.free_in(thread) {
                return Some(Region {
                    thread: thread as u8,
                    number,
                });
            }
        }
        None
    }

    // Takes a region.
    fn take(&mut self, region: Region) -> Result<(), OutOfMemory>
        requires few { length self.old.queues.items ≤ MAX_THREADS }
        requires there { region.thread < length self.old.queues.items }
        requires room { region.number + 1 < 2 ^ 32 }
        requires left { IsBehind self.old.queues.items region.thread }
        requires within { AreWithin self.old.queues.items }
        ensures order { OnOk result (self.new.order.items ≡ self.old.order.items ++ region ∷ []) }
        ensures queues { OnOk result (length self.new.queues.items ≡ length self.old.queues.items) }
        ensures keeps { OnOk result ((accesses : List AccessOf) → KeepsChoice accesses self.old → IsChosen accesses self.old.order.items region → KeepsChoice accesses self.new) }
        ensures within { OnOk result (AreWithin self.new.queues.items) }
        ensures fewer { OnOk result (left_of self.new.queues.items < left_of self.old.queues.items) }
    {
        let thread = region.thread as usize;
        self.order.push(region)?;
        self.queues[thread].take();
        self.upto.raise(region.thread, region.number + 1);
        Ok(())
    }

    /// Takes regions, as the serial choice does, until it ends.
    pub(crate) fn choose(&mut self) -> Result<(), OutOfMemory>
        requires keeps { (accesses : List AccessOf) × KeepsChoice accesses self.old }
        requires none { self.old.order.items ≡ [] }
        ensures chose { OnOk result ((accesses : List AccessOf) → KeepsChoice accesses self.old → HasChosen accesses self.new) }
    {
        while let Some(region) = self.chosen() {
            self.take(region)?;
        }
        Ok(())
    }

    /// The lowest thread that has a region left.
    pub(crate) fn lowest_behind(&self) -> Option<u8>
        requires { length self.now.queues.items ≤ MAX_THREADS }
        ensures { LowestBehind self.now.queues.items result }
    {
        for thread in 0..self.queues.len() {
            if self.queues[thread].next().is_some() {
                return Some(thread as u8);
            }
        }
        None
    }
}
