//! The laws of straight-line programs. Each is the contract of a function that does nothing.
ghost use Rattle.octet_recorder.specs.Programs.{ProgramFits, ProgramIsLong, ProgramIsValid, ProgramsJoin};

/// A journal fits the straight-line program of its accesses, which is done after it, where there is
/// a unit of fuel for each line. The program has a line for each access at least, is valid, and
/// grows as the journal does.
pub fn programs_fit()
    ensures fits { ProgramFits }
    ensures long { ProgramIsLong }
    ensures valid { ProgramIsValid }
    ensures join { ProgramsJoin }
{}
