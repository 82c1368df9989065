//! One thread that is run again.

use octet_parallel::Player;

/// One thread that is run again, as far as it has come in its recording.
#[derive(Drop)]
pub struct Follower {
    pub(crate) player: Player,
    pub(crate) thread: u8,
    // How many events it has made, and how many of them are accesses.
    pub(crate) made: u32,
    pub(crate) accesses: u32,
}
