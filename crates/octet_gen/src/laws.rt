//! What holds of each generated script. Each law is the contract of a function that does
//! nothing.
ghost use Rattle.octet_gen.specs.Laws.{ThreadMakesItsAccesses, ScriptMakesItsAccesses};

/// Whatever its reads give, each thread of a generated script makes 20,000 accesses: its fuel is
/// enough. So the log of such a script has 160,000.
pub fn accesses_are_as_many_as_said()
    ensures thread { ThreadMakesItsAccesses }
    ensures script { ScriptMakesItsAccesses }
{}
