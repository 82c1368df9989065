//! The objects that threads share.
ghost use Rattle.std.specs.Prelude.{◌<◌, ◌^◌};

use crate::Name;

/// An object: one cell, with its name and the value that it starts with.
#[derive(Debug, Drop)]
pub struct Object {
    pub name: Name,
    pub start: u64,
    pub ghost fits: { start < 2 ^ 64 },
}
