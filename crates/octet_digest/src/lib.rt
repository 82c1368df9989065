//! The digest of a thread's accesses: 64 bits that a thread keeps while it is recorded, and again while it
//! follows, so that a divergence shows. It tells which objects were accessed, how, and with which values.
#![tactic(auto)]

mod digest;
pub mod laws;

pub use digest::Digest;
