//! Laws of recordings, each the contract of a function that does nothing.
ghost use Rattle.octet_follow.specs.Blocks.{BlocksTell, PartsTell, ToldHasBegun, ToldHasFollowed, DigestsAgree, DivergenceIsReal};
ghost use Rattle.octet_follow.specs.Demands.{MakingKeepsDemanded, HaltingKeepsDemanded};
ghost use Rattle.octet_follow.specs.Faithful.{FaithfulIsRecording};
ghost use Rattle.octet_follow.specs.Histories.{HistoryIsRecording};

/// A faithful recording of a plan is a recording of the threads of that plan, which ends with its
/// outcome. So is one of a script, whose orders are those of its plan.
pub fn faithful_is_recording()
    ensures { FaithfulIsRecording }
{}

/// Journals of one history, which is what a recorded run of any length leaves, are with their log a
/// recording of all threads that demand what the journals have.
pub fn history_is_recording()
    ensures { HistoryIsRecording }
{}

/// A thread that has asked for what it demands, by the values that it was told, and does so now, has
/// done so after the answer too. Where no access was made, it demands the same again.
pub fn asking_keeps_demanded()
    ensures made { MakingKeepsDemanded }
    ensures halted { HaltingKeepsDemanded }
{}

/// A follower that is given the blocks of a recorded journal, one after the other, is told the marks and the
/// accesses of that journal, whether it takes a block at once or in parts. With the beginning of the journal it
/// has begun the recording, and with all of it, once it has come to its end, it has followed it.
pub fn blocks_tell()
    ensures blocks { BlocksTell }
    ensures parts { PartsTell }
    ensures begun { ToldHasBegun }
    ensures followed { ToldHasFollowed }
{}

/// A follower that has made all of its blocks, and repeats the recording, has the digest of the accesses that
/// were recorded up to there. So where its digest is another one, it has left the recording.
pub fn digests_tell()
    ensures agree { DigestsAgree }
    ensures real { DivergenceIsReal }
{}
