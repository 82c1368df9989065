//! Of each object and thread, the last region with an access of it.
ghost use Rattle.std.specs.Prelude.{◌≡◌, ◌≢◌, ◌<◌, ◌+◌, ◌^◌, [], ◌∷◌, ◌++◌, ℕ, List, OnOk};
ghost use Rattle.octet_regions.specs.declared.access.Access.{Access};
ghost use Rattle.octet_regions.specs.code.Bounds.{bounds_of, last_in, IsCovered, IsNoted};
ghost use Rattle.octet_regions.specs.code.Earlier.{BoundConflicts, KeepsLast};

use crate::access::Access;
use crate::bounds::Bounds;
use octet_model::{MAX_THREADS, OutOfMemory};
use std::alloc::Global;

/// For each object bounds, above the numbers of each thread's regions with a noted access of it.
#[derive(Drop)]
pub(crate) struct LastByObject {
    objects: Vec<Bounds>,
}

impl LastByObject {
    fn new(alloc: Global) -> LastByObject
        ensures { result.objects.items ≡ [] }
    {
        LastByObject {
            objects: Vec::new(alloc),
        }
    }

    // The bounds of an object, where another thread than this one has any.
    #[inline(always)]
    fn beside(&self, object: u16, thread: u8) -> Option<&Bounds>
        ensures { (other : ℕ) → other ≢ thread → bounds_of result other ≡ last_in self.now.objects.items object other }
    {
        let bounds = self.objects.get(object as usize)?;
        if bounds.is_alone(thread) {
            return None;
        }
        Some(bounds)
    }

    // Makes bounds for an object that has none.
    #[inline(always)]
    fn cover(&mut self, object: u16) -> Result<(), OutOfMemory>
        ensures { OnOk result (IsCovered self.old.objects.items object self.new.objects.items) }
    {
        let wanted = object as usize + 1;
        if self.objects.len() < wanted {
            self.objects.resize(wanted, Bounds::new())?;
        }
        Ok(())
    }

    // Notes an access by a thread in a region below the bound.
    #[inline(always)]
    fn note(&mut self, object: u16, thread: u8, bound: u32) -> Result<(), OutOfMemory>
        requires { thread < MAX_THREADS }
        ensures { OnOk result (IsNoted self.old.objects.items object thread bound self.new.objects.items) }
    {
        self.cover(object)?;
        self.objects[object as usize].raise(thread, bound);
        Ok(())
    }
}

/// The last regions with an access of an object, and with one that writes.
#[derive(Drop)]
pub(crate) struct LastRegions {
    all: LastByObject,
    writing: LastByObject,
}

impl LastRegions {
    pub(crate) fn new(alloc: Global) -> LastRegions
        ensures { KeepsLast [] result }
    {
        LastRegions {
            all: LastByObject::new(alloc),
            writing: LastByObject::new(alloc),
        }
    }

    /// Of each other thread, the last region with a noted access in conflict with this one, where
    /// there is any.
    #[inline(always)]
    pub(crate) fn conflicts(&self, access: Access) -> Option<&Bounds>
        ensures { (seen : List Access) → KeepsLast seen self.now → BoundConflicts seen access (bounds_of result) }
    {
        let thread = access.region.thread;
        match access.event.object() {
            None => None,
            Some(object) => {
                if access.event.writes() {
                    self.all.beside(object, thread)
                } else {
                    self.writing.beside(object, thread)
                }
            }
        }
    }

    /// Notes an access.
    #[inline(always)]
    pub(crate) fn note(&mut self, access: Access) -> Result<(), OutOfMemory>
        requires thread { access.region.thread < MAX_THREADS }
        requires room { access.region.number + 1 < 2 ^ 32 }
        ensures { OnOk result ((seen : List Access) → KeepsLast seen self.old → KeepsLast (seen ++ access ∷ []) self.new) }
    {
        let Some(object) = access.event.object() else {
            return Ok(());
        };
        let thread = access.region.thread;
        let bound = access.region.number + 1;
        self.all.note(object, thread, bound)?;
        if access.event.writes() {
            self.writing.note(object, thread, bound)?;
        }
        Ok(())
    }
}
