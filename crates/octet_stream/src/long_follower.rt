//! One thread of a long run that is made again.
ghost use Rattle.std.specs.Prelude.{◌≡◌};
ghost use Rattle.octet_model.specs.Journals.{access_count, mark_count};
ghost use Rattle.octet_follow.specs.Calls.{journal_in, IsUpTo};

use crate::item::Item;
use crate::quiet::Watch;
use octet_follow::Follower;
use octet_model::Gapped;
use octet_recorder::Access;
use rtrb::Consumer;

/// One thread of a long run that is made again, with the end of the ring from which it is fed.
#[derive(Drop)]
pub struct LongFollower {
    pub(crate) follower: Follower,
    pub(crate) feed: Consumer<Item>,
    // The marks of its next block that have come so far.
    pub(crate) marks: Vec<Gapped>,
    // The digest that it has to have where it has made its block, if that block is whole.
    pub(crate) expected: Option<u64>,
    // How many accesses it had made where its digest was compared last.
    pub(crate) from: u64,
    // The access that it has asked for and that waits.
    pub(crate) begun: Option<Access>,
    pub(crate) region: bool,
    pub(crate) watch: Watch,
}

impl LongFollower {
    /// The number of its thread.
    pub fn thread(&self) -> u8
        ensures { result ≡ self.now.follower.number }
    {
        self.follower.thread()
    }

    /// How many accesses it has made.
    pub fn accesses(&self) -> u64
        requires { IsUpTo self.now.follower }
        ensures { result ≡ access_count (journal_in self.now.follower) }
    {
        self.follower.accesses()
    }

    /// How many marks it has made.
    #[tactic(auto, using(octet_model::proofs::lemmas::Splits::length_parts))]
    pub fn marks(&self) -> u64
        requires { IsUpTo self.now.follower }
        ensures { result ≡ mark_count (journal_in self.now.follower) }
    {
        self.follower.events() - self.follower.accesses()
    }
}
