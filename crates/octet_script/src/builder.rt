//! What the lines so far have said.
ghost use Rattle.std.specs.Prelude.{◌≤◌, length, unwrap_or};
ghost use Rattle.octet_model.specs.declared.limits.TheConstants.{DEFAULT_FUEL, MAX_FUEL, MAX_OBJECTS, MAX_THREADS};

use crate::objects::Objects;
use octet_model::{Command, List};

/// What the lines so far have said.
#[derive(Drop)]
pub(crate) struct Builder<'a> {
    pub fuel: Option<u32>,
    pub objects: Objects<'a>,
    // Whether a `thread` came; the threads before the present one, and its commands.
    pub started: bool,
    pub threads: List<List<Command>>,
    pub commands: List<Command>,
    // The lines of its open `while`s and `if`s, the innermost last.
    pub openers: Vec<u32>,
    pub ghost few_objects: { length objects ≤ MAX_OBJECTS },
    pub ghost few_threads: { length threads ≤ MAX_THREADS },
    pub ghost bounded_fuel: { unwrap_or fuel DEFAULT_FUEL ≤ MAX_FUEL },
}
