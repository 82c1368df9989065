//! Objects that threads share, whose run becomes a script.
ghost use Rattle.std.specs.Prelude.{◌≡◌, length};
ghost use Rattle.octet_model.specs.Orders.{starting_heap};
ghost use Rattle.octet_rule.specs.Seats.{objects_of, threads_of, starts_of};

use octet_heap::Heap;
use octet_model::Script;

/// Objects that threads share, and the script with which they began, whose threads are of no
/// account but for their number.
#[derive(Drop)]
pub struct Recorder {
    pub(crate) heap: Heap,
    pub(crate) opening: Script,
    ghost objects: { objects_of heap.words ≡ length opening.objects },
    ghost threads: { threads_of heap.words ≡ length opening.threads },
    ghost fuel: { heap.fuel ≡ opening.fuel },
    ghost starts: { starts_of heap.words ≡ starting_heap opening },
}
