//! The limit of a run.

/// Accesses of one thread in a run: with fifteen marks before each its positions fit into a status
/// word, and the draws of all threads into a state word.
/// Proofs of this crate and of octet_rule have it, and sixteen times as many, as numbers.
pub const MAX_ACCESSES_OF_THREAD: u64 = 4_398_046_511_104;
