//! The law on replaying a part, as the contract of a function that does nothing.
ghost use Rattle.octet_slice.specs.Laws.{ClosedEventsReplayAlone};

/// Where the journals of a lawful order are ordered, first events that are closed under edges are
/// made alone as they are made among all others, with the same values.
pub fn parts_replay_alone()
    ensures { ClosedEventsReplayAlone }
{}
