//! Logs as bytes, in either of two versions, and as text: a log's bytes, the log that bytes spell,
//! or the first cause to refuse them with its place.
#![tactic(auto)]

mod cause;
mod field;
mod hashing;
mod laws;
mod limits;
mod loader;
mod text;
mod v1;
mod v2;

pub use cause::{LogCause, LogFault};
pub use hashing::digest;
pub use laws::{
    bad_beginning_is_refused, byte_after_spelling_is_trailing, front_of_spelling_is_cut,
    loading_accepts_spellings_alone, no_spelling_is_a_prefix, spellings_spell_one_log,
};
pub use limits::MAX_MARKS;
pub use loader::{Digest, Loaded, decode};
pub use text::{push_mark, refusal_line, show};
pub use v1::{
    bad_head_is_refused, bad_mark_is_refused, byte_after_log_is_trailing, bytes_spell_one_log,
    cut_input_is_refused, decoding_accepts_spellings_alone, encode_v1, field_has_one_spelling,
    front_of_log_is_cut, no_log_is_a_prefix, too_many_accesses_are_refused,
};
pub use v2::{
    bad_mark_of_a_piece_is_refused, bad_piece_is_refused, bad_short_number_is_refused,
    bad_tail_is_refused, encode_v2, head, piece, short_number_has_one_spelling, tail,
};
