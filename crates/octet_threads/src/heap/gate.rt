//! A gate that is shown each worker that is about to make an access.
ghost use Rattle.std.specs.Prelude.{◌≡◌};
ghost use Rattle.octet_heap.specs.Workers.{seat_of, IsIdle};

use octet_base::{Gate, OpenGate};
use octet_heap::Worker;

/// A gate that is also shown each worker that is about to make an access, after it has passed.
pub trait HeapGate: Gate {
    /// Is shown the worker of the thread. It has no meaning, takes no memory and does not wait.
    fn note(&self, thread: u8, worker: &Worker)
        requires idle { IsIdle worker.now }
        requires number { (seat_of worker.now).number ≡ thread };
}

impl HeapGate for OpenGate {
    fn note(&self, _thread: u8, _worker: &Worker) {}
}
