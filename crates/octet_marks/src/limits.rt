//! The limits of the format.

/// Bytes of the body of a head, a block or an end.
pub const MAX_BODY: u32 = 1_048_576;

/// Marks of a block that is written. Its body is then within its limit, whatever the marks are.
pub const MAX_BLOCK_MARKS: usize = 40_000;

/// Objects of a file.
pub const MAX_OBJECTS_OF_FILE: usize = 65_535;
