//! What a track tells of its thread. None of it is a step.
ghost use Rattle.std.specs.Prelude.{◌≡◌, ◌+◌};
ghost use Rattle.octet_model.specs.Journals.{access_count, gapped_marks};
ghost use Rattle.octet_heap.specs.Workers.{seat_of};
ghost use Rattle.octet_recorder.specs.Tracks.{lines_in, lines_noted, number_of, IsTrackOf};

use crate::access::Access;
use crate::recorder::Recorder;
use crate::track::Track;
use octet_model::{Command, Gapped};

impl Recorder {
    /// How many more lines may be noted of a track. An access needs `LINES_OF_ACCESS` at most.
    pub fn lines_left(&self, track: &Track) -> u32
        requires own { IsTrackOf self.now track.now }
        ensures { lines_noted track.now + result ≡ lines_in self.now }
    {
        self.opening.fuel - track.commands.len() as u32
    }
}

impl Track {
    /// The number of its thread.
    pub fn thread(&self) -> u8
        ensures { result ≡ number_of self.now }
    {
        self.worker.thread()
    }

    /// The access that it has begun, if any.
    pub fn begun(&self) -> Option<Access>
        ensures { result ≡ self.now.begun }
    {
        self.begun
    }

    /// How many accesses its thread has made.
    pub fn accesses(&self) -> u32
        ensures { result ≡ access_count (seat_of self.now.worker).journal }
    {
        self.worker.accesses()
    }

    /// Its marks, each with the accesses since the mark before it.
    pub fn marks(&self) -> &[Gapped]
        ensures { result.now ≡ gapped_marks 0 (seat_of self.now.worker).journal }
    {
        self.worker.marks()
    }

    /// The program so far.
    pub fn commands(&self) -> &[Command]
        ensures { result.now ≡ self.now.commands.items }
    {
        self.commands.as_slice()
    }
}
