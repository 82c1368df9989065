//! Places where the threads of a run lay what they leave. A place belongs to its run, so that what lies there was left by a
//! thread of that run, whatever sessions a caller hands in.
ghost use Rattle.std.specs.Prelude.{◌≡◌, All, length, IfOk, IfSome};

use crate::loose::Loose;
use counted_slot::{Counted, FREE, Fits, PRESENT, TAKEN};
use octet_model::OutOfMemory;
use std::alloc::Global;

/// What a thread leaves, in a box of its own.
pub struct Left<T> {
    pub loose: Loose<T, Global>,
}

impl<T: Drop> Left<T> {
    pub fn new(alloc: Global, value: T) -> Result<Left<T>, OutOfMemory>
        ensures { IfOk result (λ left. left.loose.value ≡ value) }
    {
        let loose = Loose::of(Box::new(alloc, value)?);
        Ok(Left { loose })
    }

    pub fn into_inner(self) -> T
        ensures { result ≡ self.loose.value }
    {
        let Left { loose } = self;
        Box::into_inner(loose.into_box())
    }
}

impl<T: Drop> Drop for Left<T> {
    fn drop(self) {
        drop(self.into_inner());
    }
}

/// So many places, each of them free.
pub fn places<X: Fits + Drop>(
    alloc: Global,
    threads: usize,
    run: &X::Tag,
) -> Result<Vec<Counted<Option<X>>>, OutOfMemory>
    ensures count { IfOk result (λ places. length places.items ≡ threads) }
    ensures tags { IfOk result (λ places. All (λ tag. tag ≡ run.now) places.items) }
{
    let mut places = Vec::new(alloc);
    for _ in 0..threads {
        places.push(Counted::new(None, run))?;
    }
    Ok(places)
}

/// Lays down what a thread leaves. Tells whether the place was free.
pub fn lay<X: Fits + Drop>(place: &Counted<Option<X>>, left: X) -> bool
    requires { X.fits place.now left }
{
    let (found, claim) = place.turn(FREE, TAKEN);
    if found != FREE {
        claim.done();
        return false;
    }
    drop(claim.put(Some(left), PRESENT));
    true
}
