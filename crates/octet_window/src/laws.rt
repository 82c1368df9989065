//! Laws of fronts, each the contract of a function that does nothing.
ghost use Rattle.octet_window.specs.Fronts.{RestIsHistory};
ghost use Rattle.octet_window.specs.Windows.{RestIsNotRefused};

/// What is left of one history after a front that some play comes to has one history too, from the values at the
/// front on: it makes the same accesses with the same values, and leaves the same last values.
pub fn rest_is_history()
    ensures { RestIsHistory }
{}

/// All that the threads of a recorded run make after a front is never refused for want of a history, where it is noted
/// by the shifted marks and the values are those at the front.
pub fn rest_is_not_refused()
    ensures { RestIsNotRefused }
{}
