//! Version 1 of the format: a log's one spelling, field by field.
mod decoder;
mod encoder;
mod laws;

pub(crate) use decoder::read_log;
pub use encoder::encode_v1;
pub use laws::{
    bad_head_is_refused, bad_mark_is_refused, byte_after_log_is_trailing, bytes_spell_one_log,
    cut_input_is_refused, decoding_accepts_spellings_alone, field_has_one_spelling,
    front_of_log_is_cut, no_log_is_a_prefix, too_many_accesses_are_refused,
};
