//! How long a drainer waits, and how much it does at a time. No answer depends on these numbers, only the
//! time that a run takes. All of them are reasoned guesses.

/// How long a drainer rests that took what there was, in microseconds, unless a thread ends: long
/// enough that it wakes seldom. What a ring has no room for meanwhile waits with its thread.
pub(crate) const DRAINER_REST: u32 = 2_000;

/// Rests of a drainer before any thread has begun that tell that no thread could be made: a second.
pub(crate) const RESTS_BEFORE_START: u32 = 500;

/// Pieces of one thread that are added in a row: as many as its ring has room for.
pub(crate) const PIECES_IN_A_ROW: u32 = 16;
