//! The laws of what a replay comes to. Each is the contract of a function that does nothing.
ghost use Rattle.octet_replay.specs.Laws.{ExecutionIsWhole, FaithfulIsLawful, LawfulIsNotRefused, LawfulOrRefused, OneRefusal, TraceFollowsOrder, TraceHasJournals, TraceIsWhole};

/// For each script and log either the lowest order is lawful, or one refusal has its cause, with
/// its numbers, and never both.
pub fn one_answer()
    ensures some { LawfulOrRefused }
    ensures lawful { LawfulIsNotRefused }
    ensures one { OneRefusal }
{}

/// The log of a faithful recording is replayed: its lowest order is lawful and gives its
/// outcome.
pub fn faithful_is_lawful()
    ensures { FaithfulIsLawful }
{}

/// What an order comes to has an end and the values read for each thread of the script, and a
/// value for each object.
pub fn execution_is_whole()
    ensures { ExecutionIsWhole }
{}

/// The trace of the lowest order tells each thread's journal, event by event, at the places
/// 0, 1, 2 and so on. It goes by that order, after which no thread may step.
pub fn trace_is_whole()
    ensures journals { TraceHasJournals }
    ensures order { TraceFollowsOrder }
    ensures whole { TraceIsWhole }
{}
