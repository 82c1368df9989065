//! The laws of digests, each the contract of a function that does nothing.
ghost use Rattle.octet_digest.specs.Laws.{JournalsJoin, StepTellsDigest, StepTellsWord, OneChangeShows, BeginningsAgree};

/// The digest of a journal goes on from that of its beginning.
pub fn journals_join()
    ensures { JournalsJoin }
{}

/// Of the digest before, the word of an access and the digest after, any two tell the third.
pub fn steps_tell()
    ensures digest { StepTellsDigest }
    ensures word { StepTellsWord }
{}

/// Two journals that are equal but for one access have different digests, where these two accesses differ in
/// one thing: the object, or the kind, or one value.
pub fn one_change_shows()
    ensures { OneChangeShows }
{}

/// Two beginnings of one journal with equally many accesses have one digest. So where the digests differ, one
/// of the two is no beginning of it.
pub fn beginnings_agree()
    ensures { BeginningsAgree }
{}
