//! Scripts: threads of commands over shared objects.
ghost use Rattle.std.specs.Prelude.{IsTrue};
ghost use Rattle.octet_model.specs.Script.{is_script};

use crate::{Command, List, Object};

/// A script, valid by its type: a fuel of 1 to 262,144 for each thread, at most 1,024 objects
/// with different names, 1 to 16 threads, threads times fuel at most 262,144, registers below
/// 16 and objects that are there, and each `Loop` and `Branch` ended by a `Close` of its own.
#[derive(Debug, Drop)]
pub struct Script {
    /// How many commands each thread may run.
    pub fuel: u32,
    pub objects: List<Object>,
    pub threads: List<List<Command>>,
    pub ghost valid: { IsTrue (is_script fuel objects threads) },
}
