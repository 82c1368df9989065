//! The laws of what a thread demands. Each is the contract of a function that does
//! nothing.
ghost use Rattle.octet_interp.specs.Laws.{DemandsAreThoseOfTheThread, DemandsFollowFromWhereItSettles, DemandsTakeFuel, JournalsKeepUp, JournalsTakeMarks, MarksCountNoRegion, RegionsAreCounted};

/// With safe points and pauses left out, the demands that `Config::next` answers are those of the
/// thread, and after `Ended` each further one is the same.
pub fn demands_are_those_of_the_thread()
    ensures { DemandsAreThoseOfTheThread }
{}

/// Each demand takes fuel but the end, so a caller's loop ends.
pub fn demands_take_fuel()
    ensures { DemandsTakeFuel }
{}

/// What a thread demands, and where it is past it, follow from where it settles.
pub fn demands_follow_from_where_it_settles()
    ensures { DemandsFollowFromWhereItSettles }
{}

/// A journal that fits a thread's start and leaves it where it stands does so still with the
/// event of each demand that is answered; at the end it fits the thread to its end.
pub fn journals_keep_up()
    ensures { JournalsKeepUp }
{}

/// Marks change nothing of that.
pub fn journals_take_marks()
    ensures { JournalsTakeMarks }
{}

/// Asked for an access, a thread has run as many `region` commands as it runs by its journal before
/// that access; marks change nothing of that.
pub fn regions_are_counted()
    ensures counted { RegionsAreCounted }
    ensures marks { MarksCountNoRegion }
{}
