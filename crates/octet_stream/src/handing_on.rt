//! A track's marks are handed on, block by block.
ghost use Rattle.std.specs.Prelude.{◌≡◌, ◌+◌, ◌<◌, ◌≤◌, ◌++◌, ◌∷◌, [], length, map, true, false};
ghost use Rattle.rtrb.specs.Ring.{sent, known_free, SameProducer};
ghost use Rattle.octet_state.specs.declared.limits.TheConstants.{MAX_ACCESSES_OF_THREAD};
ghost use Rattle.octet_heap.specs.Builders.{accesses_of};
ghost use Rattle.octet_heap.specs.Models.{marker_model};
ghost use Rattle.octet_heap.specs.Markers.{HasRoom, HasWholeRoom};
ghost use Rattle.octet_stream.specs.declared.item.Item.TheVariants.{Marked, BlockEnd};
ghost use Rattle.octet_stream.specs.Items.{items_of_end};
ghost use Rattle.octet_stream.specs.Next.{HasHandedAllOn};
ghost use Rattle.octet_stream.specs.Tracks.{IsTrackOf, HandsOn, LacksRing};

use crate::item::Item;
use crate::long_run::LongRun;
use crate::track::Track;
use octet_model::Gapped;
use rtrb::Producer;

// Sends marks into a ring that has room for them.
fn send_marks(sender: &mut Producer<Item>, marks: &[Gapped])
    requires room { length marks.now ≤ known_free sender.old }
    ensures ring { SameProducer sender.old sender.new }
    ensures sent { sent sender.new ≡ sent sender.old ++ map (λ mark. Marked mark) marks.now }
    ensures free { known_free sender.new + length marks.now ≡ known_free sender.old }
{
    for mark in marks {
        sender.push_reserved(Item::Marked { mark: *mark });
    }
}

// Sends the end of a block, and that of its thread where it `ends`, into a ring that has room for them.
fn send_end(sender: &mut Producer<Item>, gap: u32, digest: u64, ends: bool)
    requires room { 2 ≤ known_free sender.old }
    ensures ring { SameProducer sender.old sender.new }
    ensures sent { sent sender.new ≡ sent sender.old ++ BlockEnd gap digest ∷ items_of_end ends }
{
    sender.push_reserved(Item::BlockEnd { gap, digest });
    if ends {
        sender.push_reserved(Item::ThreadEnd);
    }
}

impl Track {
    // Whether its block ends here: it has as many accesses as a block may have, or the buffer has no room for another one.
    #[inline(always)]
    pub(crate) fn is_due(&self) -> bool
        ensures { result ≡ false → HasRoom self.now.marker }
    {
        self.marker.accesses() >= self.due || !self.marker.has_room()
    }
}

impl LongRun {
    // Hands a block on, and then the thread's end, where it `ends`. Refused where the ring has no room for all of it.
    pub(crate) fn hand_on(&self, track: &mut Track, ends: bool) -> bool
        requires own { IsTrackOf self.now track.old }
        requires running { track.old.ended ≡ false }
        ensures own { IsTrackOf self.now track.new }
        ensures same { HandsOn track.old track.new }
        ensures on { result ≡ true → track.new.ended ≡ ends }
        ensures all { result ≡ true → HasHandedAllOn track.new }
        ensures room { result ≡ true → accesses_of (marker_model track.old.marker) < MAX_ACCESSES_OF_THREAD → HasWholeRoom track.new.marker }
        ensures lacks { result ≡ false → LacksRing track.new × (track.new.ended ≡ false) }
    {
        if track.sender.slots() < track.marker.marks().len() + 2 {
            return false;
        }
        send_marks(&mut track.sender, track.marker.marks());
        send_end(
            &mut track.sender,
            track.marker.gap(),
            track.digest.bits(),
            ends,
        );
        track.ended = ends;
        track.marker.clear(&self.heap);
        track.due = track
            .marker
            .accesses()
            .saturating_add(u64::from(self.every));
        true
    }
}
