//! What a step of a player comes to.

/// What a step of a player comes to.
#[derive(Clone, Copy, Debug, PartialEq, Eq)]
pub enum Played {
    /// The player made its next event.
    Made,
    /// The next event needs so many events of another player, which shows fewer.
    Waits { whom: u8, needs: u64, found: u64 },
    /// The log has nothing left for the player, and its thread demands its end.
    Through,
    /// The log has an access where the thread demands its end, or nothing where it demands an
    /// access.
    Amiss,
    /// The other player is amiss or stopped.
    Stopped { whom: u8 },
}
