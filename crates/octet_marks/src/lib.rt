//! The marks file: what threads leave of a run of any length, in a file that grows while they run. A head, then
//! blocks of marks, each of one thread, and an end for each thread that ended.
#![tactic(auto)]

mod bodies;
mod cause;
mod fields;
mod frame;
mod laws;
mod limits;
mod marks;
mod piece;
mod progress;
mod reader;
mod reading;
mod source;
mod standing;
mod text;
mod writer;

pub use cause::{MarksCause, MarksFault};
pub use laws::{
    bytes_spell_one_file, changed_frame_is_refused, cut_file_is_read_up_to_there,
    more_bytes_change_nothing, piece_is_read_from_its_bytes_alone, pieces_stand_in_order,
    reader_reads_what_it_is_fed,
};
pub use limits::{MAX_BLOCK_MARKS, MAX_BODY, MAX_OBJECTS_OF_FILE};
pub use piece::{Block, End, Head, Piece};
pub use progress::Progress;
pub use reader::{Ending, Reader};
pub use text::{push_ending_text, push_piece_text, refusal_line};
pub use writer::{block, end, head};
