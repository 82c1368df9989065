//! The limit of the words.

/// Objects of a heap: sixteen bits name one. A script declares at most `octet_model::MAX_OBJECTS`.
pub const MAX_OBJECTS_OF_HEAP: usize = 65_535;
