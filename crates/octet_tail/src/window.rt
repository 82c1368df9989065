//! What the threads of a run make between two fronts, as a script with its log.
ghost use Rattle.std.specs.Prelude.{◌≡◌, ◌≤◌, length, IfOk, IfErr};
ghost use Rattle.octet_model.specs.declared.limits.TheConstants.{MAX_THREADS};
ghost use Rattle.octet_tail.specs.Windows.{AreNoted, AreTexts, HasNoWindow, refused_fault, unwritten_fault};
ghost use Rattle.octet_tail.specs.declared.window.WindowFault.TheVariants as fault;

use crate::fronts::Fronts;
use crate::parts::Part;
use crate::texts::{Texts, Unwritten, texts_of};
use octet_model::OutOfMemory;
use octet_window::{Notes, Refusal, close};
use std::alloc::Global;

/// Why there is no window.
#[derive(Debug, Drop)]
pub enum WindowFault {
    OutOfMemory,
    /// What the threads make between the fronts makes no window.
    Refused { refusal: Refusal },
    /// The script or its log is longer than its file may be.
    TooLong,
}

impl From<OutOfMemory> for WindowFault {
    ghost from_gives = { λ _ e. e ≡ fault.OutOfMemory };

    fn from(_: OutOfMemory) -> Self {
        WindowFault::OutOfMemory
    }
}

impl From<Refusal> for WindowFault {
    ghost from_gives = { λ refusal e. e ≡ refused_fault refusal };

    fn from(refusal: Refusal) -> Self {
        match refusal {
            Refusal::OutOfMemory => WindowFault::OutOfMemory,
            refusal => WindowFault::Refused { refusal },
        }
    }
}

impl From<Unwritten> for WindowFault {
    ghost from_gives = { λ unwritten e. e ≡ unwritten_fault unwritten };

    fn from(unwritten: Unwritten) -> Self {
        match unwritten {
            Unwritten::TooLong => WindowFault::TooLong,
            Unwritten::OutOfMemory => WindowFault::OutOfMemory,
        }
    }
}

// The notes of all threads.
fn notes_all(alloc: Global, fronts: &Fronts, parts: &[Part]) -> Result<Vec<Notes>, OutOfMemory>
    requires few { length parts.now ≤ MAX_THREADS }
    ensures noted { IfOk result (λ notes. AreNoted fronts.now parts.now 0 notes.items) }
    ensures count { IfOk result (λ notes. length notes.items ≡ length parts.now) }
{
    let mut all = Vec::new(alloc);
    for (thread, part) in parts.iter().enumerate() {
        all.push(fronts.notes(alloc, thread as u8, part)?)?;
    }
    Ok(all)
}

impl Fronts {
    /// The files of the window between the fronts. These are the parts of all threads, in order.
    #[tactic(auto, using(crate::proofs::Windowed::refused_for, crate::proofs::Windowed::unwritten_for))]
    pub fn window(&self, alloc: Global, parts: &[Part]) -> Result<Texts, WindowFault>
        requires some { 1 ≤ length parts.now }
        requires few { length parts.now ≤ MAX_THREADS }
        ensures texts { IfOk result (AreTexts self.now parts.now) }
        ensures fault { IfErr result (HasNoWindow self.now parts.now) }
    {
        let notes = notes_all(alloc, self, parts)?;
        let window = match close(alloc, notes.as_slice()) {
            Ok(window) => window,
            Err(refusal) => return Err(WindowFault::from(refusal)),
        };
        match texts_of(alloc, &window) {
            Ok(texts) => Ok(texts),
            Err(unwritten) => Err(WindowFault::from(unwritten)),
        }
    }
}
