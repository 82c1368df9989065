//! The laws of outcomes. Each is the contract of a function that does nothing.
ghost use Rattle.octet_outcomes.specs.Interleavings.{FinalsAreOutcomes, OutcomesAreFinal};
ghost use Rattle.octet_outcomes.specs.Laws.{FaithfulEndsAreOutcomes, LawfulEndsAreOutcomes};

/// Every lawful order whose threads are all done ends with an outcome, whatever the log is.
pub fn lawful_ends_are_outcomes()
    ensures { LawfulEndsAreOutcomes }
{}

/// Every faithful recording whose threads are all done ends with an outcome.
pub fn faithful_ends_are_outcomes()
    ensures { FaithfulEndsAreOutcomes }
{}

/// Every outcome is the final heap of an interleaving of the plain machine, by fuel enough, whose
/// threads are all done.
pub fn outcomes_are_final()
    ensures { OutcomesAreFinal }
{}

/// Every interleaving of the plain machine, by the script's fuel, whose threads are all done ends with
/// an outcome.
pub fn finals_are_outcomes()
    ensures { FinalsAreOutcomes }
{}
