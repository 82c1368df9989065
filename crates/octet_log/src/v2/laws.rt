//! Laws of version 2 of the format. Their functions have no parameters and do nothing: each contract
//! is the law.
ghost use Rattle.octet_log.specs.v2.Refusals.{NoThreadIsBadPiece, NoMarkIsBadPiece, MarksAreTooMany, NoMarkIsBad, NoShortIsBad, ShortIsCut, TailHasTooMany, GapsPassAccesses};
ghost use Rattle.octet_log.specs.v2.Laws.{ShortHasOneSpelling, ShortIsReadAgain};

/// The bytes of a short number are its one spelling, and give it back.
pub fn short_number_has_one_spelling()
    ensures one { ShortHasOneSpelling }
    ensures again { ShortIsReadAgain }
{}

/// After a good head and good pieces, a piece of no thread or of no mark is refused, at its first
/// byte, and more marks than the limit are too many.
pub fn bad_piece_is_refused()
    ensures thread { NoThreadIsBadPiece }
    ensures mark { NoMarkIsBadPiece }
    ensures marks { MarksAreTooMany }
{}

/// Within a good piece, what begins no mark of its thread is refused as a bad mark, at its first
/// byte, as soon as a field tells.
pub fn bad_mark_of_a_piece_is_refused()
    ensures { NoMarkIsBad }
{}

/// Where a short number is read, bytes that spell none are refused, at their first byte; and cut,
/// where they end too early.
pub fn bad_short_number_is_refused()
    ensures bad { NoShortIsBad }
    ensures cut { ShortIsCut }
{}

/// Within a good tail, accesses that pass the limit with those before are too many, and accesses
/// below the gaps of their thread are refused by that thread.
pub fn bad_tail_is_refused()
    ensures sum { TailHasTooMany }
    ensures gaps { GapsPassAccesses }
{}
