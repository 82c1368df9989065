//! The laws of what is handed on and received, each the contract of a function that does nothing else.
ghost use Rattle.octet_stream.specs.Followed.{FollowersBegin, FollowersRepeat};
ghost use Rattle.octet_stream.specs.Laws.{MarksJoin, FedIsTold, DivergenceIsReal};
ghost use Rattle.octet_stream.specs.Recordings.{ClosedIsRecorded};
ghost use Rattle.octet_stream.specs.Rights.{RightStands, ReadyHoldsRight};

/// The marks that are handed on block by block are those of the whole journal, with its gaps.
pub fn marks_join()
    ensures { MarksJoin }
{}

/// A thread that was fed the blocks of a journal was told that journal. So what `octet_follow` says of one that was told a
/// recording holds of it.
pub fn fed_is_told()
    ensures { FedIsTold }
{}

/// A divergence that a digest tells is real.
pub fn divergence_is_real()
    ensures { DivergenceIsReal }
{
    octet_follow::laws::digests_tell();
}

/// After an access the right of its thread to the object stands until that thread takes a step, whatever the others do.
pub fn right_stands()
    ensures access { RightStands }
    ensures poll { ReadyHoldsRight }
{}

/// Whatever seats a heap closes, of markers or of workers, their journals are recorded.
pub fn closed_is_recorded()
    ensures { ClosedIsRecorded }
{}

/// A run that was recorded here, followed by the marks of its log: threads that demand what they did then have the
/// recorded journals, with every value, and leave the final values. While they go on they have first events of them.
pub fn followers_repeat()
    ensures ends { FollowersRepeat }
    ensures begins { FollowersBegin }
{}
