//! The quick yes of the check: where every object is one thread's own or only read, nothing conflicts.
ghost use Rattle.std.specs.Prelude.{◌≡◌, true, length, IfOk, IfSome, OnOk};
ghost use Rattle.octet_clock.specs.Sharing.{sharing_of, Allows, AllowsMore, HasNoConflict, HasRoom, TakesAccess, TakesEvent, TakesEvents};

use octet_model::{Event, List, OutOfMemory};
use std::alloc::Global;

/// How an object is used by the accesses so far.
#[derive(Clone, Copy)]
enum Sharing {
    /// By none.
    Unused,
    /// By one thread alone, which wrote it or not.
    OwnedBy { thread: usize, written: bool },
    /// By several threads, none of which wrote it.
    ReadShared,
}

impl Sharing {
    // With one more access; none where it conflicts with an earlier one.
    #[inline(always)]
    fn with_access(self, thread: usize, writing: bool) -> Option<Sharing>
        ensures { IfSome result (AllowsMore self thread writing) }
    {
        match self {
            Sharing::Unused => Some(Sharing::OwnedBy {
                thread,
                written: writing,
            }),
            Sharing::OwnedBy {
                thread: owner,
                written,
            } if owner == thread => Some(Sharing::OwnedBy {
                thread,
                written: written || writing,
            }),
            Sharing::OwnedBy { written, .. } if !written && !writing => Some(Sharing::ReadShared),
            Sharing::ReadShared if !writing => Some(Sharing::ReadShared),
            _ => None,
        }
    }
}

/// How each object is used.
#[derive(Drop)]
struct Objects {
    sharing: Vec<Sharing>,
}

impl Objects {
    // Makes room for an object that has none.
    #[inline(always)]
    fn cover(&mut self, object: u16) -> Result<(), OutOfMemory>
        ensures { OnOk result (HasRoom self.old.sharing.items object self.new.sharing.items) }
    {
        let wanted = object as usize + 1;
        if self.sharing.len() < wanted {
            self.sharing.resize(wanted, Sharing::Unused)?;
        }
        Ok(())
    }

    // Whether there may be such an access beside those so far, with nothing to note: mostly there may.
    #[inline(always)]
    fn allows(&self, thread: usize, object: u16, writing: bool) -> bool
        ensures { result ≡ true → Allows (sharing_of self.now.sharing.items object) thread writing }
    {
        match self.sharing.get(object as usize) {
            Some(
                Sharing::OwnedBy {
                    thread: owner,
                    written,
                },
            ) => *owner == thread && (*written || !writing),
            Some(Sharing::ReadShared) => !writing,
            Some(Sharing::Unused) | None => false,
        }
    }

    // Takes in an access. Answers whether it conflicts with no earlier one.
    #[inline(always)]
    fn take_access(
        &mut self,
        thread: usize,
        object: u16,
        writing: bool,
    ) -> Result<bool, OutOfMemory>
        ensures { IfOk result (λ apart. apart ≡ true → TakesAccess self.old.sharing.items thread object writing self.new.sharing.items) }
    {
        if self.allows(thread, object, writing) {
            return Ok(true);
        }
        self.note_access(thread, object, writing)
    }

    // Takes in an access that changes how its object is used.
    #[inline(never)]
    fn note_access(
        &mut self,
        thread: usize,
        object: u16,
        writing: bool,
    ) -> Result<bool, OutOfMemory>
        ensures { IfOk result (λ apart. apart ≡ true → TakesAccess self.old.sharing.items thread object writing self.new.sharing.items) }
    {
        self.cover(object)?;
        let kept = &mut self.sharing[object as usize];
        let Some(more) = kept.with_access(thread, writing) else {
            return Ok(false);
        };
        *kept = more;
        Ok(true)
    }

    // Takes in an event. Answers whether it conflicts with no earlier one.
    #[inline(always)]
    fn take_event(&mut self, thread: usize, event: Event) -> Result<bool, OutOfMemory>
        ensures { IfOk result (λ apart. apart ≡ true → TakesEvent self.old.sharing.items thread event self.new.sharing.items) }
    {
        match event.object() {
            Some(object) => self.take_access(thread, object, event.writes()),
            None => Ok(true),
        }
    }

    // Takes in a thread's events. Answers whether none conflicts with an earlier one.
    fn take_events(&mut self, thread: usize, events: &[Event]) -> Result<bool, OutOfMemory>
        ensures { IfOk result (λ apart. apart ≡ true → TakesEvents self.old.sharing.items thread events.now (length events.now) self.new.sharing.items) }
    {
        for event in events {
            if !self.take_event(thread, *event)? {
                return Ok(false);
            }
        }
        Ok(true)
    }
}

/// Whether nothing conflicts in journals: looked at by objects alone, with no regard to order.
pub(crate) fn nothing_conflicts(
    alloc: Global,
    journals: &[List<Event>],
) -> Result<bool, OutOfMemory>
    ensures { IfOk result (λ nothing. nothing ≡ true → HasNoConflict journals.now) }
{
    let mut objects = Objects {
        sharing: Vec::new(alloc),
    };
    for (thread, journal) in journals.iter().enumerate() {
        if !objects.take_events(thread, journal.as_slice())? {
            return Ok(false);
        }
    }
    Ok(true)
}
