//! Sessions behind handles, and back from them.
ghost use Rattle.std.specs.Prelude.{◌≡◌, ◌≢◌, ◌⊎◌, ◌++◌, ◌∷◌, [], All, length, map, Some, None, Ok, Err, IfOk, IfErr, IfSome, IsOk, IsSome, OnOk};
ghost use Rattle.octet_host.specs.declared.fault.CloseFault.TheVariants.{OutOfMemory as MemoryRefused, OtherSessions as SessionMissing};
ghost use Rattle.octet_c.specs.declared.status.TheConstants.{READY, OTHER_SESSIONS};
ghost use Rattle.octet_c.specs.Closed.{first_kind, RefusesToClose};
ghost use Rattle.octet_c.specs.Opened.{HoldEach};
ghost use Rattle.octet_c.specs.Sessions.{IsHeld};

use crate::handle::Handle;
use crate::held::Held;
use crate::kind::Thread;
use crate::status::{OTHER_SESSIONS, READY};
use octet_host::CloseFault;
use std::alloc::Global;

/// What is behind handles, or is to be.
pub(crate) type Boxes = Vec<Box<Held, Global>>;

/// Puts one behind each of the handles, in order. What a handle held is freed. Refused where there are more of one than of
/// the other; then the handles are as before.
pub(crate) fn put_all(alloc: Global, handles: &mut [Handle], boxes: Boxes) -> i32
    requires { All (λ held. IsHeld held.value) boxes.items }
    ensures ready { result ≡ READY → HoldEach (λ held. held.value) boxes.items handles.new }
    ensures fits { length handles.old ≡ length boxes.items → result ≡ READY }
    ensures refused { result ≢ READY → (result ≡ OTHER_SESSIONS) × (handles.new ≡ handles.old) × (length handles.old ≢ length boxes.items) }
{
    if boxes.len() != handles.len() {
        return OTHER_SESSIONS;
    }
    let mut boxes = boxes.into_iter();
    for place in handles {
        let Some(held) = boxes.next() else {
            unreachable!()
        };
        drop(place.take(alloc));
        place.put(held);
    }
    READY
}

// Adds what was behind one more handle, if something was.
fn add(
    taken: Result<Boxes, CloseFault>,
    held: Option<Box<Held, Global>>,
) -> Result<Boxes, CloseFault>
    ensures had { OnOk result (IsOk taken × IsSome held) }
    ensures added { IfOk result (λ boxes. IfOk taken (λ before. IfSome held (λ one. boxes.items ≡ before.items ++ one ∷ []))) }
    ensures refused { IfErr result (λ fault. (taken ≡ Err fault) ⊎ (fault ≡ MemoryRefused) ⊎ ((fault ≡ SessionMissing) × (held ≡ None))) }
{
    let mut boxes = taken?;
    let Some(held) = held else {
        return Err(CloseFault::OtherSessions);
    };
    boxes.push(held)?;
    Ok(boxes)
}

/// What was behind the handles, which then have nothing, whatever is answered. Refused where one has nothing.
pub(crate) fn take_all(alloc: Global, handles: &mut [Handle]) -> Result<Boxes, CloseFault>
    ensures gone { All (λ handle. handle.held ≡ None) handles.new }
    ensures taken { IfOk result (λ boxes. map (λ box. Some box.value) boxes.items ≡ map (λ handle. handle.held) handles.old) }
    ensures good { IfOk result (λ boxes. All (λ box. IsHeld box.value) boxes.items) }
    ensures refused { IfErr result (RefusesToClose (map (λ handle. handle.held) handles.old)) }
{
    let mut taken = Ok(Vec::new(alloc));
    for place in handles {
        taken = add(taken, place.take(alloc));
    }
    taken
}

/// The threads in boxes, which are all of one kind: that of the first.
pub(crate) fn threads_of<T: Thread>(alloc: Global, boxes: Boxes) -> Result<Vec<T>, CloseFault>
    requires { first_kind (map (λ box. box.value) boxes.items) ≡ Some T.kind }
    ensures threads { IfOk result (λ threads. map (λ it. T.as_held it) threads.items ≡ map (λ box. box.value) boxes.items) }
    ensures refused { IfErr result (RefusesToClose (map (λ box. Some box.value) boxes.items)) }
{
    let mut threads = Vec::new(alloc);
    for held in boxes {
        let Some(it) = T::of_held(Box::into_inner(held)) else {
            return Err(CloseFault::OtherSessions);
        };
        threads.push(it)?;
    }
    Ok(threads)
}
