//! One thread of a long run.
ghost use Rattle.std.specs.Prelude.{◌≡◌};
ghost use Rattle.octet_model.specs.Journals.{access_count};
ghost use Rattle.octet_stream.specs.Tracks.{journal_of, number_of};

use crate::item::Item;
use octet_digest::Digest;
use octet_heap::Marker;
use octet_recorder::Access;
use rtrb::Producer;

/// How many polls a track lets pass before it tries again for an object that another thread has just taken. That thread
/// then makes some accesses before it has to hand the object on, and each handover takes as long as many accesses.
pub(crate) const POLLS_OF_BACKOFF: u8 = 48;

/// How far a track has come with what it was asked for.
#[derive(Clone, Copy, Debug, PartialEq, Eq)]
pub(crate) enum Stage {
    /// Nothing waits.
    Free,
    /// This access waits until a block is handed on. Its marker has begun nothing.
    Asked { wanted: Access },
    /// Its marker has begun this access.
    Begun { wanted: Access },
}

/// One thread of a long run, with the end of the ring into which its marks go.
#[derive(Drop)]
pub struct Track {
    pub(crate) marker: Marker,
    pub(crate) digest: Digest,
    pub(crate) stage: Stage,
    // Whether a region was to begin with the next access. Marks tell nothing of regions.
    pub(crate) region: bool,
    // How many accesses it has made where its block ends.
    pub(crate) due: u64,
    pub(crate) sender: Producer<Item>,
    // Whether it has handed its end on.
    pub(crate) ended: bool,
    // How many polls it lets pass before it tries again.
    pub(crate) backoff: u8,
}

impl Track {
    /// The number of its thread.
    pub fn thread(&self) -> u8
        ensures { result ≡ number_of self.now }
    {
        self.marker.thread()
    }

    /// How many accesses it has made.
    pub fn accesses(&self) -> u64
        ensures { result ≡ access_count (journal_of self.now) }
    {
        self.marker.accesses()
    }

    /// How many of them took the slow path.
    pub fn slow_accesses(&self) -> u64
        ensures { result ≡ self.now.marker.slow }
    {
        self.marker.slow_accesses()
    }
}
