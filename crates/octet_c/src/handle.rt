//! A box as its pointer, in a form that C may hold.
ghost use Rattle.std.specs.Prelude.{◌≡◌, None, Some};
ghost use Rattle.std.specs.Option.{MatchOption};
ghost use Rattle.std.specs.Coded.{coded_option};
ghost use Rattle.std.specs.declared.option.Option.{Option};
ghost use Rattle.std.specs.contracts.impls.GlobalAllocator.TheImpl.{ghosts};
ghost use Rattle.octet_c.specs.Owned.{owned};
ghost use Rattle.octet_c.specs.Sessions.{IsHeld};
ghost use Rattle.octet_c.specs.declared.held.Held.{Held};
ghost use Rattle.octet_c.specs.contracts.held.Held.{the_row as HeldRow};

use crate::held::Held;
use octet_host::Loose;
use std::alloc::Global;
use std::marker::Model;
use std::mem;
use std::ptr::null_mut;

/// What C holds: a session, a stream, a record, a schedule, or nothing.
#[repr(C)]
pub struct Handle {
    at: *mut u8,
    alloc: Global,
    pub ghost held: { Option Held } by { coded_option HeldRow.coded },
}

impl Model for Handle {
    ghost also_owns = { λ h. owned (ghosts.dealloc_token h.alloc) HeldRow IsHeld h.at h.held };
}

impl Handle {
    #[inline(always)]
    fn of_loose(loose: Loose<Held, Global>) -> Handle
        requires { IsHeld loose.value }
        ensures { result.held ≡ Some loose.value }
    {
        let Loose { at, alloc } = loose;
        Handle {
            at: at as *mut u8,
            alloc,
        }
    }

    #[inline(always)]
    fn empty(alloc: Global) -> Handle
        ensures { result.held ≡ None }
    {
        Handle {
            at: null_mut(),
            alloc,
        }
    }

    // Of a handle that holds nothing.
    #[inline(always)]
    fn discard(self)
        requires { self.held ≡ None }
    {
        let Handle { at: _, alloc: _ } = self;
    }

    #[inline(always)]
    fn into_loose(self) -> Option<Loose<Held, Global>>
        ensures { MatchOption result (self.held ≡ None) (λ loose. (self.held ≡ Some loose.value) × IsHeld loose.value) }
    {
        let Handle { at, alloc } = self;
        if at.is_null() {
            None
        } else {
            Some(Loose {
                at: at as *mut Held,
                alloc,
            })
        }
    }
}

impl Handle {
    /// The handle of a box.
    #[inline(always)]
    pub(crate) fn of(value: Box<Held, Global>) -> Handle
        requires { IsHeld value.value }
        ensures { result.held ≡ Some value.value }
    {
        Handle::of_loose(Loose::of(value))
    }

    /// The box, if there is one. Then the handle has none.
    #[inline(always)]
    pub(crate) fn take(&mut self, alloc: Global) -> Option<Box<Held, Global>>
        ensures taken { MatchOption result (self.old.held ≡ None) (λ value. (self.old.held ≡ Some value.value) × IsHeld value.value) }
        ensures rest { self.new.held ≡ None }
    {
        match mem::replace(self, Handle::empty(alloc)).into_loose() {
            Some(loose) => Some(loose.into_box()),
            None => None,
        }
    }

    /// Of a handle that has no box.
    #[inline(always)]
    pub(crate) fn put(&mut self, value: Box<Held, Global>)
        requires empty { self.old.held ≡ None }
        requires good { IsHeld value.value }
        ensures { self.new.held ≡ Some value.value }
    {
        mem::replace(self, Handle::of(value)).discard();
    }
}

unsafe impl Send for Handle {}

// A handle may go to another thread, with what is behind it. What is generic over `Send` asks for
// the proof.
fn sent<T: Send>(value: T) -> T
    ensures { result ≡ value }
{
    value
}

/// The same handle, which may now be in another thread.
pub fn crossed(handle: Handle) -> Handle
    ensures { result ≡ handle }
{
    sent(handle)
}

/// Likewise what is behind one.
pub fn crossed_held(held: Held) -> Held
    ensures { result ≡ held }
{
    sent(held)
}
