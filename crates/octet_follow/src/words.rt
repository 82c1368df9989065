//! The words, and the seats of the followers.
ghost use Rattle.std.specs.Prelude.{◌≡◌, suc, ◌+◌, ◌*◌, ◌<◌, true, [], length};

mod accesses;
mod close;
mod kinds;
mod marks;
mod new;
mod steps;

use crate::view::{Key, Sound, View};
use atomic_table::Table;
use octet_model::Mark;
use std::alloc::Global;

/// The words that followers share, under the rule.
#[derive(Drop)]
pub(crate) struct Words {
    pub(crate) table: Table<Mark, View, Key, Sound, Global>,
    pub(crate) followers: u8,
    pub(crate) objects: u16,
    ghost wide: { table.shared.table_id.words ≡ 8 * (followers + suc objects) },
    ghost bare: { table.shared.table_id.slots ≡ 0 },
    ghost numbered: { table.shared.key.followers ≡ followers },
    ghost sized: { length table.shared.key.starts.value ≡ objects },
    ghost few: { 0 < followers },
}

/// One follower's token.
#[derive(Drop)]
pub(crate) struct Seat {
    pub(crate) inner: atomic_table::Seat<Mark, View>,
    ghost bare: { inner.me.1 ≡ [] },
    ghost live: { inner.me.0.is_live ≡ true },
}

impl Words {
    // Where the cell of an object lies.
    #[inline(always)]
    pub(crate) fn cell_place(&self, object: u16) -> usize
        ensures { result ≡ 8 * (self.now.followers + suc object) }
    {
        8 * (self.followers as usize + object as usize + 1)
    }

    // Where the number of draws lies.
    pub(crate) fn draws_place(&self) -> usize
        ensures { result ≡ 8 * self.now.followers }
    {
        8 * self.followers as usize
    }
}

// Where the progress word of a follower lies.
#[inline(always)]
pub(crate) fn progress_place(follower: u8) -> usize
    ensures { result ≡ 8 * follower }
{
    8 * follower as usize
}
