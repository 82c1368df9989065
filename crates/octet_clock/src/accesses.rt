//! The last reads and the last writes of each object, and which of them do not happen before an
//! access in conflict with them.
ghost use Rattle.std.specs.Prelude.{◌≡◌, ◌<◌, ◌≤◌, ◌+◌, ◌^◌, [], ℕ, Bool, List, length, slice_get, OnOk};
ghost use Rattle.octet_model.specs.declared.event.Event.{Event};
ghost use Rattle.octet_clock.specs.Accesses.{AreNoted, KeepsAccesses, IsAccessStep};
ghost use Rattle.octet_clock.specs.LastAccesses.{conflicts_with, conflicts_within, kept_of, read_in, untouched, written_in, IsCovered, IsReadNoted, IsWriteNoted, IsLastOf};
ghost use Rattle.octet_clock.specs.Play.{made_by};
ghost use Rattle.octet_clock.specs.Verdict.{UnorderedConflictIs};

use crate::clock::Clock;
use crate::sources::Prefix;
use octet_model::{MAX_THREADS, OutOfMemory, Place};
use std::alloc::Global;

/// What is known of an object's accesses.
#[derive(Clone, Copy)]
pub(crate) struct ObjectAccesses {
    /// Knows each thread's events up to its last read.
    reads: Clock,
    /// Knows each thread's events up to its last write.
    writes: Clock,
    /// The events of its thread up to the last write.
    last_write: Prefix,
    /// The events of its thread up to the last access, where that thread knew of all the others.
    last_access: Option<Prefix>,
}

impl ObjectAccesses {
    fn new() -> ObjectAccesses
        ensures { result ≡ untouched }
    {
        let none = Prefix {
            thread: 0,
            count: 0,
        };
        ObjectAccesses {
            reads: Clock::new(),
            writes: Clock::new(),
            last_write: none,
            last_access: Some(none),
        }
    }

    // Notes a read by a thread that has made `count` events with it, and knew of all accesses or not.
    #[inline(always)]
    fn note_read(&mut self, thread: usize, count: u32, follows: bool)
        requires { thread < MAX_THREADS }
        ensures { IsReadNoted self.old thread count follows self.new }
    {
        self.reads.raise(thread, count);
        self.last_access = if follows {
            Some(Prefix {
                thread: thread as u8,
                count,
            })
        } else {
            None
        };
    }

    // Notes a write by a thread that has made `count` events with it.
    #[inline(always)]
    fn note_write(&mut self, thread: usize, count: u32)
        requires { thread < MAX_THREADS }
        ensures { IsWriteNoted self.old thread count self.new }
    {
        self.writes.raise(thread, count);
        let upto = Prefix {
            thread: thread as u8,
            count,
        };
        self.last_write = upto;
        self.last_access = Some(upto);
    }
}

/// The accesses of all objects.
#[derive(Drop)]
pub(crate) struct Accesses {
    objects: Vec<ObjectAccesses>,
}

impl Accesses {
    pub(crate) fn new(alloc: Global) -> Accesses
        ensures { result.objects.items ≡ [] }
    {
        Accesses {
            objects: Vec::new(alloc),
        }
    }

    // How many events of a thread there are up to its last read of the object; 0 for none.
    fn last_read(&self, object: u16, thread: usize) -> u32
        ensures { result ≡ read_in self.now.objects.items object thread }
    {
        match self.objects.get(object as usize) {
            Some(kept) => kept.reads.count(thread),
            None => 0,
        }
    }

    // The same of writes.
    fn last_write(&self, object: u16, thread: usize) -> u32
        ensures { result ≡ written_in self.now.objects.items object thread }
    {
        match self.objects.get(object as usize) {
            Some(kept) => kept.writes.count(thread),
            None => 0,
        }
    }

    // How many events of a thread there are up to its last access in conflict with a read or a
    // write of the object; 0 for none.
    fn last_conflict(&self, object: u16, writing: bool, thread: usize) -> u32
        ensures { (journals : List (List Event)) (play : List ℕ) (index : ℕ) → KeepsAccesses journals play index self.now → IsLastOf journals (conflicts_with object writing) thread (made_by play index thread) result }
    {
        let write = self.last_write(object, thread);
        if !writing {
            return write;
        }
        write.max(self.last_read(object, thread))
    }

    /// First events of a thread whose past has all accesses of the object in conflict with a read
    /// or a write, where such are known.
    #[inline(always)]
    pub(crate) fn conflicts_within(&self, object: u16, writing: bool) -> Option<Prefix>
        ensures { result ≡ conflicts_within (kept_of self.now.objects.items object) writing }
    {
        match self.objects.get(object as usize) {
            Some(kept) if writing => kept.last_access,
            Some(kept) => Some(kept.last_write),
            None => Some(Prefix {
                thread: 0,
                count: 0,
            }),
        }
    }

    /// Among the first `threads` threads, the last conflicting access by the lowest thread whose last one the
    /// clock after an access does not know.
    pub(crate) fn unordered_conflict(
        &self,
        threads: usize,
        thread: usize,
        object: u16,
        writing: bool,
        known: &Clock,
    ) -> Option<Place>
        requires { threads ≤ MAX_THREADS }
        ensures { (journals : List (List Event)) (play : List ℕ) (index : ℕ) → length journals ≡ threads → KeepsAccesses journals play index self.now → IsAccessStep journals play index thread object writing known.now → UnorderedConflictIs journals play index result }
    {
        for other in 0..threads {
            let last = self.last_conflict(object, writing, other);
            if other != thread && last > known.count(other) {
                return Some(Place {
                    thread: other as u8,
                    event: last - 1,
                });
            }
        }
        None
    }

    // Makes room for an object that has none.
    #[inline(always)]
    fn cover(&mut self, object: u16) -> Result<(), OutOfMemory>
        ensures { OnOk result (IsCovered self.old.objects.items object self.new.objects.items) }
    {
        let wanted = object as usize + 1;
        if self.objects.len() < wanted {
            self.objects.resize(wanted, ObjectAccesses::new())?;
        }
        Ok(())
    }

    /// Notes an access by a thread that has made `count` events with it, and knew of all accesses
    /// of the object or not.
    #[inline(always)]
    pub(crate) fn note(
        &mut self,
        object: u16,
        writing: bool,
        thread: usize,
        count: u32,
        follows: bool,
    ) -> Result<(), OutOfMemory>
        requires { thread < MAX_THREADS }
        ensures { OnOk result (AreNoted self.old.objects.items object writing thread count follows self.new.objects.items) }
    {
        self.cover(object)?;
        let kept = &mut self.objects[object as usize];
        if writing {
            kept.note_write(thread, count);
        } else {
            kept.note_read(thread, count, follows);
        }
        Ok(())
    }
}
