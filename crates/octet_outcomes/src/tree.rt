//! The access by which each moment was found first.
ghost use Rattle.std.specs.Prelude.{◌≡◌, ◌++◌, ◌∷◌, ◌≤◌, [], length, take, IfOk, OnErr, OnOk};

use crate::slots::place_of;
use octet_model::OutOfMemory;
use std::alloc::Global;

/// The access of a thread, from the moment at a place.
#[derive(Clone, Copy)]
pub(crate) struct Step {
    pub(crate) from: u32,
    pub(crate) thread: u8,
}

/// For each moment the access by which it was found. The first one, which has none, has any. What
/// comes after these says nothing.
#[derive(Drop)]
pub(crate) struct Tree {
    pub(crate) steps: Vec<Step>,
}

impl Tree {
    /// The first moment alone.
    pub(crate) fn new(alloc: Global) -> Result<Tree, OutOfMemory>
        ensures { IfOk result (λ tree. length tree.steps.items ≡ 1) }
    {
        let mut steps = Vec::new(alloc);
        steps.push(Step { from: 0, thread: 0 })?;
        Ok(Tree { steps })
    }

    /// Notes the access by which the next moment is found, if one is: after those of so many moments.
    pub(crate) fn note(&mut self, from: usize, thread: u8, many: usize) -> Result<(), OutOfMemory>
        requires { many ≤ length self.old.steps.items }
        ensures ok { OnOk result (self.new.steps.items ≡ take many self.old.steps.items ++ (record { from = from; thread = thread }) ∷ []) }
        ensures err { OnErr result (self.new.steps.items ≡ take many self.old.steps.items) }
    {
        self.steps.truncate(many);
        let from = place_of(from)?;
        self.steps.push(Step { from, thread })?;
        Ok(())
    }
}
