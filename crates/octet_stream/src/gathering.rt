//! Items are gathered into blocks.
ghost use Rattle.std.specs.Prelude.{◌≡◌, length, vec_capacity};
ghost use Rattle.rtrb.specs.Ring.{received, consumer_capacity, SameConsumer};
ghost use Rattle.octet_stream.specs.declared.gathering.Gathered.TheVariants.{Full};
ghost use Rattle.octet_stream.specs.Fed.{Gathers};

use crate::item::Item;
use octet_model::Gapped;
use rtrb::Consumer;

/// What comes after marks that were gathered.
#[derive(Clone, Copy, Debug, PartialEq, Eq)]
pub(crate) enum Gathered {
    /// Nothing that is there.
    Nothing,
    /// There is no room for more marks.
    Full,
    /// The end of their block.
    BlockEnd { gap: u32, digest: u64 },
    ThreadEnd,
    BreaksOff,
}

/// Takes marks up to another item, or as many as there is room for, or all that are there.
pub(crate) fn gather(feed: &mut Consumer<Item>, marks: &mut Vec<Gapped>) -> Gathered
    ensures ring { SameConsumer feed.old feed.new }
    ensures room { vec_capacity marks.new ≡ vec_capacity marks.old }
    ensures gathers { Gathers result (received feed.old) marks.old.items (received feed.new) marks.new.items }
    ensures full { result ≡ Full → length marks.new.items ≡ vec_capacity marks.new }
{
    while marks.len() < marks.capacity() {
        let Ok(item) = feed.pop() else {
            return Gathered::Nothing;
        };
        match item {
            Item::Marked { mark } => marks.push_reserved(mark),
            Item::BlockEnd { gap, digest } => return Gathered::BlockEnd { gap, digest },
            Item::ThreadEnd => return Gathered::ThreadEnd,
            Item::BreaksOff => return Gathered::BreaksOff,
        }
    }
    Gathered::Full
}
