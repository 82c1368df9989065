//! Threads that are handed in at the end of their run.
ghost use Rattle.std.specs.Prelude.{◌≡◌, ◌<◌, ℕ, All, Any, IfOk, IfErr, IfSome, OnOk};
ghost use Rattle.octet_host.specs.declared.stage.Stage.{Stage};
ghost use Rattle.octet_host.specs.HandedBack.{IsAtWork, Both, AreAsOne, RefusesThread, RefusesToClose};
ghost use Rattle.octet_host.specs.Sealed.{AreNoted};

use crate::fault::CloseFault;
use std::alloc::Global;

/// A thread that can be handed in at the end of its run.
pub trait HandIn: Drop + Sized {
    /// What the threads of a run share.
    type Shared: Drop;

    /// What is kept of a thread that is handed in, to know again what it has left.
    type Note: Drop;

    ghost IsGood: { Self → Type 0 };

    ghost stage: { Self → Stage };

    ghost shared: { Self → Self.Shared };

    // It has this number, and its run has so many threads.
    ghost IsAt: { ℕ → ℕ → Self → Type 0 };

    ghost IsAmong: { ℕ → ℕ → Self → Type 0 };

    // Why it has not made all of its recording, and why that of its run is too long.
    ghost IsNotWhole: { Self → Type 0 };

    ghost IsTooLong: { Self → Type 0 };

    // The note is of what this thread, of this number, has left.
    ghost IsNoted: { ℕ → Self → Self.Note → Type 0 };

    /// Lays down what the thread leaves, as thread `number` of so many, and gives a note of it. Gives what the threads share
    /// too, where no other one has it any more.
    fn hand_in(
        self,
        alloc: Global,
        number: usize,
        threads: usize,
    ) -> Result<(Option<Self::Shared>, Self::Note), CloseFault>
        requires good { IsGood self }
        requires inside { number < threads }
        ensures still { OnOk result (IsAtWork (stage self) → ⊥) }
        ensures place { OnOk result (Both IsAt IsAmong number threads self) }
        ensures shared { IfOk result (λ handed. IfSome handed.0 (λ all. shared self ≡ all)) }
        ensures noted { IfOk result (λ handed. IsNoted number self handed.1) }
        ensures refused { IfErr result (RefusesThread (stage self) (IsAt number threads self) (IsAmong number threads self) (IsNotWhole self)) };
}

/// Hands in all threads of a run, in order. Gives what they share, where all of them are here, and a note of what each has
/// left.
#[tactic(auto, using(crate::proofs::lemmas::Noted::noted_all))]
pub fn hand_in_all<T: HandIn>(
    alloc: Global,
    threads: Vec<T>,
) -> Result<(T::Shared, Vec<T::Note>), CloseFault>
    requires { All T.IsGood threads.items }
    ensures as_one { OnOk result (AreAsOne (Both T.IsAt T.IsAmong) threads.items) }
    ensures still { OnOk result (All (λ it. IsAtWork (T.stage it) → ⊥) threads.items) }
    ensures shared { IfOk result (λ handed. Any (λ it. T.shared it ≡ handed.0) threads.items) }
    ensures noted { IfOk result (λ handed. AreNoted T.IsNoted threads.items handed.1.items) }
    ensures refused { IfErr result (RefusesToClose T.stage T.IsAt T.IsAmong T.IsNotWhole T.IsTooLong threads.items) }
{
    let count = threads.len();
    if count == 0 {
        return Err(CloseFault::OtherSessions);
    }
    let mut last = None;
    let mut notes = Vec::new(alloc);
    let mut number = 0;
    for thread in threads {
        let (all, note) = thread.hand_in(alloc, number, count)?;
        last = all;
        notes.push(note)?;
        number += 1;
    }
    match last {
        Some(all) => Ok((all, notes)),
        None => Err(CloseFault::TwoRuns),
    }
}
