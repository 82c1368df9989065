//! The laws of what is written of a run and read again, each the contract of a function that does nothing else.
ghost use Rattle.octet_blocks.specs.Laws.{BlocksBeginJournal, BlocksAreOfJournal, EndIsWritten, WriterAddsToFile, WrittenStandsBehind, FileIsRead, FileIsNeverRefused, CutFileIsRead, ReaderGivesJournal, FollowerIsToldRecording, RecordingIsFollowed};

use octet_marks::{
    cut_file_is_read_up_to_there, piece_is_read_from_its_bytes_alone, pieces_stand_in_order,
};
use octet_stream::laws::marks_join;

/// The blocks of a thread are the beginning of its journal. Those of a thread that has ended are all its journal's marks, with
/// the accesses before and after them.
pub fn blocks_are_of_journal()
    ensures begin { BlocksBeginJournal }
    ensures whole { BlocksAreOfJournal }
    ensures ended { EndIsWritten }
{
    marks_join();
}

/// What a writer gathers, once all its bytes were passed on, may be put behind a file. So a host that writes a head, and then
/// the bytes of all writers in whatever order they come, writes a file of their pieces.
pub fn writers_add_to_the_file()
    ensures { WriterAddsToFile }
{}

/// A head and, behind it, the pieces of its threads make a marks file, in any order that keeps each thread's own. A reader
/// reads just these pieces, however it is fed, and refuses none.
pub fn file_is_read()
    ensures written { WrittenStandsBehind }
    ensures read { FileIsRead }
    ensures never_refused { FileIsNeverRefused }
{
    marks_join();
    pieces_stand_in_order();
    piece_is_read_from_its_bytes_alone();
    cut_file_is_read_up_to_there();
}

/// Such a file that ends anywhere is read as its pieces that are whole.
pub fn cut_file_is_read()
    ensures { CutFileIsRead }
{
    file_is_read();
    cut_file_is_read_up_to_there();
}

/// What is read of such a file is what was recorded: each thread is given its journal, as far as the file goes, and a follower
/// that has received it was told that journal. Of a whole file it was told the whole journal of a thread that has ended.
pub fn followers_are_told_the_recording()
    ensures given { ReaderGivesJournal }
    ensures told { FollowerIsToldRecording }
    ensures followed { RecordingIsFollowed }
{
    file_is_read();
    marks_join();
}
