//! Version 2 of the format: a head with the script's digest, pieces of marks as they come, and a tail.
mod decoder;
mod encoder;
mod laws;
mod marks;
mod short;

pub(crate) use decoder::read_log;
pub use encoder::{encode_v2, head, piece, tail};
pub use laws::{
    bad_mark_of_a_piece_is_refused, bad_piece_is_refused, bad_short_number_is_refused,
    bad_tail_is_refused, short_number_has_one_spelling,
};
