//! The course of threads that run again.
ghost use Rattle.std.specs.Prelude.{◌≡◌, length};
ghost use Rattle.octet_follow.specs.Calls.{starts_in};

mod ask;
mod close;
mod feed;
mod new;

use crate::words::Words;

/// What the followers of a run share: a progress word for each, the number of draws, and a cell for
/// each object.
#[derive(Drop)]
pub struct Course {
    pub(crate) words: Words,
}

impl Course {
    /// How many objects there are.
    pub fn objects(&self) -> u16
        ensures { result ≡ length (starts_in self.now) }
    {
        self.words.objects
    }
}
