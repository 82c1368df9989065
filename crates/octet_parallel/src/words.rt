//! The words, and the seats of the players.
ghost use Rattle.std.specs.Prelude.{◌≡◌, ◌+◌, ◌*◌, ◌<◌, ◌≤◌, true, [], length};
ghost use Rattle.octet_model.specs.declared.limits.TheConstants.{MAX_THREADS};

mod close;
mod kinds;
mod new;
mod steps;

use crate::view::{Key, Sound, View};
use atomic_table::Table;
use std::alloc::Global;

/// What a progress word says of a player that is amiss or stopped.
pub(crate) const STOP_NUMBER: u64 = u64::MAX;

/// The words that players share, under the rule.
#[derive(Drop)]
pub(crate) struct Words {
    pub(crate) table: Table<(), View, Key, Sound, Global>,
    pub(crate) players: u8,
    pub(crate) objects: u16,
    ghost wide: { table.shared.table_id.words ≡ 8 * (players + objects) },
    ghost bare: { table.shared.table_id.slots ≡ 0 },
    ghost numbered: { length table.shared.key.log.value.threads ≡ players },
    ghost sized: { length table.shared.key.script.value.objects ≡ objects },
    ghost few: { (0 < players) × (players ≤ MAX_THREADS) },
}

/// One player's token.
#[derive(Drop)]
pub(crate) struct Seat {
    pub(crate) inner: atomic_table::Seat<(), View>,
    ghost bare: { inner.me.1 ≡ [] },
    ghost live: { inner.me.0.is_live ≡ true },
}

impl Words {
    // Where the cell of an object lies.
    pub(crate) fn cell_place(&self, object: u16) -> usize
        ensures { result ≡ 8 * (self.now.players + object) }
    {
        8 * (self.players as usize + object as usize)
    }
}

// Where the progress word of a player lies.
pub(crate) fn progress_place(player: u8) -> usize
    ensures { result ≡ 8 * player }
{
    8 * player as usize
}
