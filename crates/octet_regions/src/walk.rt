//! The walk to a cycle, where the serial choice ends with regions left.
ghost use Rattle.std.specs.Prelude.{◌≡◌, ◌≢◌, ◌<◌, ◌≤◌, ℕ, List, Some, true, false, IfOk};
ghost use Rattle.octet_regions.specs.Choice.{IsCycle, IsHop};
ghost use Rattle.octet_regions.specs.code.Chooser.{FitQueues, IsBehind, IsStuck, LowestBehind};
ghost use Rattle.octet_regions.specs.code.Earlier.{region_of, Conflicts, KeepsLast, RegionsRise};
ghost use Rattle.octet_regions.specs.code.Walk.{EarliestIs, HasInto, IsFrom};
ghost use Rattle.octet_regions.specs.declared.access.Access.{Access};

use crate::access::Access;
use crate::chooser::Chooser;
use crate::last::LastRegions;
use crate::{Hop, Region};
use octet_model::{List, OutOfMemory};
use std::alloc::Global;

// Whether an access is by the thread, in a region from this number on, and in conflict with a noted
// one of the other thread.
fn is_before(later: &LastRegions, access: Access, thread: u8, from: u32, other: u8) -> bool
    requires { thread ≢ other }
    ensures yes { result ≡ true → (seen : List Access) → KeepsLast seen later.now → (access.region.thread ≡ thread) × (from ≤ access.region.number) × ((number : ℕ) × Conflicts seen (region_of other number) access) }
    ensures no { result ≡ false → (seen : List Access) → KeepsLast seen later.now → access.region.thread ≡ thread → from ≤ access.region.number → (number : ℕ) → ¬ Conflicts seen (region_of other number) access }
{
    if access.region.thread != thread {
        return false;
    }
    if access.region.number < from {
        return false;
    }
    match later.conflicts(access) {
        Some(bounds) => bounds.of(other as usize) > 0,
        None => false,
    }
}

// The earliest region of a thread, from this number on, that is before a region. Goes through the
// accesses from the last to the first, and notes those of the region.
fn earliest_before(
    alloc: Global,
    accesses: &[Access],
    thread: u8,
    from: u32,
    region: Region,
) -> Result<Option<u32>, OutOfMemory>
    requires differ { thread ≢ region.thread }
    requires fit { (threads : ℕ) × FitQueues threads accesses.now }
    requires rise { RegionsRise accesses.now }
    ensures { IfOk result (EarliestIs accesses.now thread from region) }
{
    let mut later = LastRegions::new(alloc);
    let mut found = None;
    let mut place = accesses.len();
    while place > 0 {
        place -= 1;
        let access = accesses[place];
        if access.region == region {
            later.note(access)?;
        } else if is_before(&later, access, thread, from, region.thread) {
            found = Some(access.region.number);
        }
    }
    Ok(found)
}

// The hops from the first one on that leads into the thread.
fn from_thread(alloc: Global, hops: &[Hop], thread: u8) -> Result<List<Hop>, OutOfMemory>
    requires { HasInto hops.now thread }
    ensures { IfOk result (IsFrom hops.now thread) }
{
    for first in 0..hops.len() {
        if hops[first].after.thread == thread {
            return Ok(List::from_vec(Vec::from_slice(alloc, &hops[first..])?));
        }
    }
    unreachable!()
}

impl Chooser {
    // The hop into a thread's next region, where the choice ended.
    fn hop_into(&self, alloc: Global, accesses: &[Access], thread: u8) -> Result<Hop, OutOfMemory>
        requires stuck { IsStuck accesses.now self.now }
        requires behind { IsBehind self.now.queues.items thread }
        ensures into { IfOk result (λ hop. hop.after.thread ≡ thread) }
        ensures hop { IfOk result (IsHop accesses.now self.now.order.items) }
        ensures behind { IfOk result (λ hop. IsBehind self.now.queues.items hop.before.thread) }
    {
        let queue = &self.queues[thread as usize];
        let Some(item) = queue.next() else {
            unreachable!()
        };
        let Some(from) = queue.lowest_unmet(item, &self.upto) else {
            unreachable!()
        };
        let after = Region {
            thread,
            number: item.number,
        };
        let bound = self.upto.of(from as usize);
        let Some(number) = earliest_before(alloc, accesses, from, bound, after)? else {
            unreachable!()
        };
        let before = Region {
            thread: from,
            number,
        };
        Ok(Hop { before, after })
    }

    /// The cycle to which the walk from a thread on leads, where the choice ended.
    pub(crate) fn cycle(
        &self,
        alloc: Global,
        accesses: &[Access],
        start: u8,
    ) -> Result<List<Hop>, OutOfMemory>
        requires stuck { IsStuck accesses.now self.now }
        requires start { LowestBehind self.now.queues.items (Some start) }
        ensures { IfOk result (IsCycle accesses.now self.now.order.items) }
    {
        let mut came = vec![in alloc; false; self.queues.len()]?;
        let mut hops: Vec<Hop> = Vec::new(alloc);
        let mut at = start;
        while !came[at as usize] {
            came[at as usize] = true;
            let hop = self.hop_into(alloc, accesses, at)?;
            hops.push(hop)?;
            at = hop.before.thread;
        }
        from_thread(alloc, &hops, at)
    }
}
