//! Laws of both versions of the format. Their functions have no parameters and do nothing: each
//! contract is the law.
ghost use Rattle.octet_log.specs.Refusals.{BytesLackMagic, NoVersionIsBad, NoThreadsAreBad, FrontOfSpellingIsCut, ByteAfterSpellingIsTrailing};
ghost use Rattle.octet_log.specs.v2.Refusals.{DigestIsCut};
ghost use Rattle.octet_log.specs.Laws.{LoadsLogs, SpellingsSpellOneLog, NoSpellingIsAPrefix};

/// Bytes are judged to be a log with a digest, or without one, exactly where they spell that valid
/// log so, in either version.
pub fn loading_accepts_spellings_alone()
    ensures { LoadsLogs }
{}

/// No bytes spell two logs, nor two digests, in either version.
pub fn spellings_spell_one_log()
    ensures { SpellingsSpellOneLog }
{}

/// No spelling of a log, in either version, is a proper prefix of a spelling of a log.
pub fn no_spelling_is_a_prefix()
    ensures { NoSpellingIsAPrefix }
{}

/// Bytes are refused for their first four bytes, their version or their number of threads alone,
/// whatever stands after these; and those of a digest that is cut, where they end.
pub fn bad_beginning_is_refused()
    ensures magic { BytesLackMagic }
    ensures version { NoVersionIsBad }
    ensures threads { NoThreadsAreBad }
    ensures digest { DigestIsCut }
{}

/// A spelling of a log, in either version, without some of its last bytes is refused as cut, where
/// it ends; below four bytes it has no magic.
pub fn front_of_spelling_is_cut()
    ensures { FrontOfSpellingIsCut }
{}

/// A spelling of a log, in either version, with more bytes is refused for the first of these, at
/// its place.
pub fn byte_after_spelling_is_trailing()
    ensures { ByteAfterSpellingIsTrailing }
{}
