//! Laws of the format. Their functions have no parameters and do nothing: each contract is the law.
ghost use Rattle.octet_marks.specs.Counts.{ThreadsAreAsCounted, BlocksStandInOrder, EndsStandInOrder};
ghost use Rattle.octet_marks.specs.Files.{NothingIsRead, FedBytesStandBehind, NextPieceStandsBehind};
ghost use Rattle.octet_marks.specs.Laws.{PieceIsReadAgain, NothingElseIsRead, FrontOfPieceIsCut, CutFileIsReadUpToThere, BytesSpellOneFile, OtherLengthIsBad, OtherChecksumIsBad, MoreBytesChangeNothing, PieceHasBytes};

/// A piece is read exactly from its bytes, whatever stands after them, and exactly where it may stand.
pub fn piece_is_read_from_its_bytes_alone()
    ensures again { PieceIsReadAgain }
    ensures alone { NothingElseIsRead }
{}

/// A piece without some of its last bytes is cut, and a file that is cut anywhere is read up to there.
pub fn cut_file_is_read_up_to_there()
    ensures piece { FrontOfPieceIsCut }
    ensures file { CutFileIsReadUpToThere }
{}

/// No bytes spell two files.
pub fn bytes_spell_one_file()
    ensures { BytesSpellOneFile }
{}

/// In the pieces of a file each thread is as far as its blocks say, counted: a block begins, and an end stands,
/// at just as many events as the blocks of its thread before it have, and none comes after an end.
pub fn pieces_stand_in_order()
    ensures counted { ThreadsAreAsCounted }
    ensures blocks { BlocksStandInOrder }
    ensures ends { EndsStandInOrder }
{}

/// A frame whose lengths differ, or that has another checksum than its own, is refused.
pub fn changed_frame_is_refused()
    ensures length { OtherLengthIsBad }
    ensures checksum { OtherChecksumIsBad }
{}

/// However a reader is fed, what it has read and what it has not read yet are the bytes that it was fed.
pub fn reader_reads_what_it_is_fed()
    ensures first { NothingIsRead }
    ensures fed { FedBytesStandBehind }
    ensures next { NextPieceStandsBehind }
{}

/// A piece that is read has one or more of the bytes. What is read or refused by some bytes is so by more.
pub fn more_bytes_change_nothing()
    ensures more { MoreBytesChangeNothing }
    ensures some { PieceHasBytes }
{}
