//! Laws of version 1 of the format. Their functions have no parameters and do nothing: each contract
//! is the law.
ghost use Rattle.std.specs.Prelude.{◌^◌};
ghost use Rattle.std.specs.Int.{w32, w64};
ghost use Rattle.octet_log.specs.v1.Refusals.{LacksMagic, OtherVersionIsBad, ThreadsAreBad, HeadIsCut, AccessesAreCut, CountIsCut, MarkIsCut, MarkIsBad, AccessesAreTooMany};
ghost use Rattle.octet_log.specs.v1.Laws.{NumberIsReadAgain, NumberHasOneSpelling, DecodesLogs, BytesSpellOneLog, NoLogIsAPrefix, FrontIsCut, ByteAfterIsTrailing};

/// The bytes of a field are the one spelling of their number, and give it back.
pub fn field_has_one_spelling()
    ensures four_bytes { NumberHasOneSpelling w32 }
    ensures eight_bytes { NumberHasOneSpelling w64 }
    ensures four_bytes_again { NumberIsReadAgain w32 (2 ^ 32) }
    ensures eight_bytes_again { NumberIsReadAgain w64 (2 ^ 64) }
{}

/// Bytes are judged to be a log exactly where they are the spelling of that valid log.
pub fn decoding_accepts_spellings_alone()
    ensures { DecodesLogs }
{}

/// Two logs of one spelling are equal.
pub fn bytes_spell_one_log()
    ensures { BytesSpellOneLog }
{}

/// No log's spelling is a proper prefix of another's.
pub fn no_log_is_a_prefix()
    ensures { NoLogIsAPrefix }
{}

/// A log's spelling without some of its last bytes is refused as cut, where it ends; below four
/// bytes it has no magic.
pub fn front_of_log_is_cut()
    ensures { FrontIsCut }
{}

/// A log's spelling with more bytes is refused for the first of these, at its place.
pub fn byte_after_log_is_trailing()
    ensures { ByteAfterIsTrailing }
{}

/// An input is refused for its first four bytes, its version or its number of threads alone,
/// whatever stands after these.
pub fn bad_head_is_refused()
    ensures magic { LacksMagic }
    ensures version { OtherVersionIsBad }
    ensures threads { ThreadsAreBad }
{}

/// An input that is good as far as it goes and ends within the head, a field or a mark is cut
/// short where it ends.
pub fn cut_input_is_refused()
    ensures head { HeadIsCut }
    ensures accesses { AccessesAreCut }
    ensures count { CountIsCut }
    ensures mark { MarkIsCut }
{}

/// After whole and good fields and marks, a whole mark that may not stand next is refused as bad,
/// at its place.
pub fn bad_mark_is_refused()
    ensures { MarkIsBad }
{}

/// After whole and good threads, accesses that pass the limit are too many.
pub fn too_many_accesses_are_refused()
    ensures { AccessesAreTooMany }
{}
