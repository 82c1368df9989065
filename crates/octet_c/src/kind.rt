//! The kinds of what stands behind handles.
ghost use Rattle.std.specs.Prelude.{◌≡◌, ◌≢◌, Some, All, map, IfOk, IfErr, MatchOption};
ghost use Rattle.octet_c.specs.declared.held.Held.{Held};
ghost use Rattle.octet_c.specs.declared.held.Held.TheVariants as held;
ghost use Rattle.octet_c.specs.declared.kind.Kind.{Kind};
ghost use Rattle.octet_c.specs.declared.kind.Kind.TheVariants as kinds;
ghost use Rattle.octet_c.specs.Closed.{kind_of, Closes, RefusesToClose};
ghost use Rattle.octet_c.specs.Sessions.{IsHeld};

use crate::held::Held;
use crate::kept::Values;
use octet_host::CloseFault;
use octet_host_long::{Inlet, LongRecorded, LongRepeated, Outlet, close_recorded, close_repeated};
use octet_host_script::{Recorded, Repeated};
use std::alloc::Global;

/// The kinds of threads.
#[derive(Clone, Copy, Debug, PartialEq, Eq)]
pub enum Kind {
    Recorded,
    Repeated,
    LongRecorded,
    LongRepeated,
}

impl Held {
    /// The kind of the thread, if it is one.
    pub(crate) fn kind(&self) -> Option<Kind>
        ensures { result ≡ kind_of self.now }
    {
        match self {
            Held::Recorded(_) => Some(Kind::Recorded),
            Held::Repeated(_) => Some(Kind::Repeated),
            Held::LongRecorded(_) => Some(Kind::LongRecorded),
            Held::LongRepeated(_) => Some(Kind::LongRepeated),
            _ => None,
        }
    }
}

/// What may stand behind a handle.
pub(crate) trait Behind: Drop + Sized {
    ghost as_held: { Self → Held };

    /// The same behind a handle.
    fn into_held(self) -> Held
        ensures { result ≡ as_held self };
}

/// The threads of one kind.
pub(crate) trait Thread: Behind {
    ghost kind: { Kind };

    /// What is behind a handle, if it is a thread of this kind.
    fn of_held(from: Held) -> Option<Self>
        ensures { MatchOption result (kind_of from ≢ Some kind) (λ it. from ≡ Self.as_held it) };

    /// Ends the run of these threads.
    fn close(alloc: Global, threads: Vec<Self>) -> Result<Held, CloseFault>
        requires { All (λ it. IsHeld (Self.as_held it)) threads.items }
        ensures good { IfOk result IsHeld }
        ensures closes { IfOk result (λ kept. Closes (map (λ it. Some (Self.as_held it)) threads.items) (Some kept)) }
        ensures refused { IfErr result (RefusesToClose (map (λ it. Some (Self.as_held it)) threads.items)) };
}

impl Behind for Outlet {
    ghost as_held = { λ it. held.Outlet it };

    fn into_held(self) -> Held {
        Held::Outlet(self)
    }
}

impl Behind for Inlet {
    ghost as_held = { λ it. held.Inlet it };

    fn into_held(self) -> Held {
        Held::Inlet(self)
    }
}

impl Behind for Recorded {
    ghost as_held = { λ it. held.Recorded it };

    fn into_held(self) -> Held {
        Held::Recorded(self)
    }
}

impl Behind for Repeated {
    ghost as_held = { λ it. held.Repeated it };

    fn into_held(self) -> Held {
        Held::Repeated(self)
    }
}

impl Behind for LongRecorded {
    ghost as_held = { λ it. held.LongRecorded it };

    fn into_held(self) -> Held {
        Held::LongRecorded(self)
    }
}

impl Behind for LongRepeated {
    ghost as_held = { λ it. held.LongRepeated it };

    fn into_held(self) -> Held {
        Held::LongRepeated(self)
    }
}

impl Thread for Recorded {
    ghost kind = { kinds.Recorded };

    fn of_held(from: Held) -> Option<Recorded> {
        match from {
            Held::Recorded(it) => Some(it),
            _ => None,
        }
    }

    fn close(alloc: Global, threads: Vec<Recorded>) -> Result<Held, CloseFault>
        requires { All (λ it. IsHeld (held.Recorded it)) threads.items }
        ensures good { IfOk result IsHeld }
        ensures closes { IfOk result (λ kept. Closes (map (λ it. Some (held.Recorded it)) threads.items) (Some kept)) }
        ensures refused { IfErr result (RefusesToClose (map (λ it. Some (held.Recorded it)) threads.items)) }
    {
        let kept = octet_host_script::close_recorded(alloc, threads)?;
        Ok(Held::Kept(kept))
    }
}

impl Thread for Repeated {
    ghost kind = { kinds.Repeated };

    fn of_held(from: Held) -> Option<Repeated> {
        match from {
            Held::Repeated(it) => Some(it),
            _ => None,
        }
    }

    fn close(alloc: Global, threads: Vec<Repeated>) -> Result<Held, CloseFault>
        requires { All (λ it. IsHeld (held.Repeated it)) threads.items }
        ensures good { IfOk result IsHeld }
        ensures closes { IfOk result (λ kept. Closes (map (λ it. Some (held.Repeated it)) threads.items) (Some kept)) }
        ensures refused { IfErr result (RefusesToClose (map (λ it. Some (held.Repeated it)) threads.items)) }
    {
        let again = octet_host_script::close_repeated(alloc, threads)?;
        Ok(Held::Kept(again))
    }
}

impl Thread for LongRecorded {
    ghost kind = { kinds.LongRecorded };

    fn of_held(from: Held) -> Option<LongRecorded> {
        match from {
            Held::LongRecorded(it) => Some(it),
            _ => None,
        }
    }

    fn close(alloc: Global, threads: Vec<LongRecorded>) -> Result<Held, CloseFault>
        requires { All (λ it. IsHeld (held.LongRecorded it)) threads.items }
        ensures good { IfOk result IsHeld }
        ensures closes { IfOk result (λ kept. Closes (map (λ it. Some (held.LongRecorded it)) threads.items) (Some kept)) }
        ensures refused { IfErr result (RefusesToClose (map (λ it. Some (held.LongRecorded it)) threads.items)) }
    {
        let values = close_recorded(alloc, threads)?;
        Ok(Held::Values(Values { values }))
    }
}

impl Thread for LongRepeated {
    ghost kind = { kinds.LongRepeated };

    fn of_held(from: Held) -> Option<LongRepeated> {
        match from {
            Held::LongRepeated(it) => Some(it),
            _ => None,
        }
    }

    fn close(alloc: Global, threads: Vec<LongRepeated>) -> Result<Held, CloseFault>
        requires { All (λ it. IsHeld (held.LongRepeated it)) threads.items }
        ensures good { IfOk result IsHeld }
        ensures closes { IfOk result (λ kept. Closes (map (λ it. Some (held.LongRepeated it)) threads.items) (Some kept)) }
        ensures refused { IfErr result (RefusesToClose (map (λ it. Some (held.LongRepeated it)) threads.items)) }
    {
        let again = close_repeated(alloc, threads)?;
        Ok(Held::Again(again))
    }
}
