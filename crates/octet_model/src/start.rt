//! What a run of a script starts with.
ghost use Rattle.std.specs.Prelude.{◌≡◌, ◌≤◌, length, map, IfOk};
ghost use Rattle.octet_model.specs.Orders.{starting_heap};

use crate::{MAX_THREADS, OutOfMemory, Script};
use std::alloc::Global;

impl Script {
    /// How many threads there are: 1 to 16.
    #[tactic(auto, using(crate::proofs::lemmas::Validity::valid_script))]
    pub fn thread_count(&self) -> u8
        ensures count { result ≡ length self.now.threads }
        ensures some { 1 ≤ result }
        ensures few { result ≤ MAX_THREADS }
    {
        self.threads.len() as u8
    }

    /// The objects' starting values, in their order.
    pub fn starting_heap(&self, alloc: Global) -> Result<Vec<u64>, OutOfMemory>
        ensures { IfOk result (λ heap. heap.items ≡ starting_heap self.now) }
    {
        let mut heap = Vec::new(alloc);
        for object in self.objects.as_slice() {
            heap.push(object.start)?;
        }
        Ok(heap)
    }
}
