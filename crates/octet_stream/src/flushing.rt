//! A track hands a block on before that is full.
ghost use Rattle.std.specs.Prelude.{◌≡◌, true, false};
ghost use Rattle.octet_stream.specs.Next.{HasHandedAllOn};
ghost use Rattle.octet_stream.specs.Tracks.{IsTrackOf, HandsOn, LacksRing};

use crate::long_run::LongRun;
use crate::track::Track;

impl LongRun {
    // Whether the track has made nothing since its last block.
    fn has_nothing_left(&self, track: &Track) -> bool
        requires { IsTrackOf self.now track.now }
        ensures { result ≡ true → HasHandedAllOn track.now }
    {
        track.marker.marks().len() == 0 && track.marker.gap() == 0
    }

    /// Hands on all that the track has made, as a block that ends here. Refused where its ring has no room.
    pub fn flush(&self, track: &mut Track) -> bool
        requires own { IsTrackOf self.now track.old }
        requires running { track.old.ended ≡ false }
        ensures own { IsTrackOf self.now track.new }
        ensures same { HandsOn track.old track.new }
        ensures running { track.new.ended ≡ false }
        ensures flushed { result ≡ true → HasHandedAllOn track.new }
        ensures lacks { result ≡ false → LacksRing track.new }
    {
        if self.has_nothing_left(track) {
            return true;
        }
        self.hand_on(track, false)
    }
}
