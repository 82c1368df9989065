//! What a thread leaves, under a seal: a cell that is set once. Whoever sets it keeps a note of what it was, and what is found
//! under the same seal later is known to be just that.
ghost use Rattle.std.specs.Prelude.{◌≡◌, ◌<◌, Some, length, IfOk, IfErr, IfSome};
ghost use Rattle.once_cell.specs.Once.{cell_name, Agrees};
ghost use Rattle.octet_host.specs.Sealed.{IsSealed};
ghost use Rattle.octet_host.specs.declared.fault.CloseFault.TheVariants.{OutOfMemory as MemoryRefused};

use crate::fault::CloseFault;
use counted_slot::{Counted, Fits};
use octet_model::OutOfMemory;
use once_cell::race::{Note, OnceBox};
use std::alloc::Global;

/// So many seals, each of them free.
pub fn seals<X: Fits>(
    alloc: Global,
    threads: usize,
) -> Result<Vec<OnceBox<Counted<X>>>, OutOfMemory>
where
    X: Drop,
    ensures { IfOk result (λ seals. length seals.items ≡ threads) }
{
    let mut seals = Vec::new(alloc);
    for _ in 0..threads {
        seals.push(OnceBox::new(alloc))?;
    }
    Ok(seals)
}

// Sets a seal, and gives the note of what is under it. A seal that is set already is refused too, but each thread has one of
// its own, and sets it once.
fn set<X: Fits>(
    alloc: Global,
    seal: &OnceBox<Counted<X>>,
    mark: X,
    value: &X::Tag,
) -> Result<Note<Counted<X>>, CloseFault>
where
    X: Drop,
    requires { X.fits value.now mark }
    ensures noted { IfOk result (λ note. (note.cell ≡ cell_name seal.now) × (note.known ≡ Some value.now)) }
    ensures refused { IfErr result (λ fault. fault ≡ MemoryRefused) }
{
    let mut note = seal.note();
    let sealed = Box::new(alloc, Counted::new(mark, value))?;
    if seal.set_as(sealed, &mut note).is_err() {
        return Err(CloseFault::OutOfMemory);
    }
    Ok(note)
}

/// Sets the seal of this number, and gives the note of what is under it.
pub fn seal<X: Fits>(
    alloc: Global,
    seals: &[OnceBox<Counted<X>>],
    number: usize,
    mark: X,
    value: &X::Tag,
) -> Result<Note<Counted<X>>, CloseFault>
where
    X: Drop,
    requires fits { X.fits value.now mark }
    requires inside { number < length seals.now }
    ensures sealed { IfOk result (IsSealed seals.now number value.now) }
    ensures refused { IfErr result (λ fault. fault ≡ MemoryRefused) }
{
    set(alloc, &seals[number], mark, value)
}

/// Two notes are of one value, if they are of one seal.
pub fn agree<T>(one: &mut Note<T>, other: &mut Note<T>)
    ensures { (one.new ≡ one.old) × (other.old.cell ≡ one.old.cell → IfSome other.old.known (Agrees one.old.known)) }
{}
