//! The events that were recorded of a thread are made.
ghost use Rattle.std.specs.Prelude.{◌≡◌, ◌++◌, ◌∷◌, [], Some, IfOk, IfErr, IfSome, IsNone};
ghost use Rattle.octet_model.specs.Journals.{access_count};
ghost use Rattle.octet_rerun.specs.Reruns.{made_by, next_recorded, IsFollowerOf, Holds, MakesMarks, IsNoMark};

use crate::follower::Follower;
use crate::halt::Hold;
use crate::rerun::Rerun;
use octet_model::Event;
use octet_parallel::Played;

// How many accesses an event is.
#[tactic(auto, using(octet_model::proofs::lemmas::Splits::one_event))]
fn accesses_in(event: Event) -> u32
    ensures { result ≡ access_count (event ∷ []) }
{
    if event.is_access() { 1 } else { 0 }
}

impl Rerun {
    // The event that was recorded of the thread after those that it has made.
    fn next(&self, follower: &Follower) -> Option<Event>
        requires own { IsFollowerOf self.now follower.now }
        ensures { result ≡ next_recorded self.now follower.now }
    {
        self.recorded
            .as_slice()
            .get(follower.thread as usize)?
            .get(follower.made as usize)
            .copied()
    }

    /// Makes the event that was recorded next, or tells why not.
    pub(crate) fn make(&self, follower: &mut Follower, event: Event) -> Option<Hold>
        requires own { IsFollowerOf self.now follower.old }
        requires next { next_recorded self.now follower.old ≡ Some event }
        ensures own { IsFollowerOf self.now follower.new }
        ensures thread { follower.new.thread ≡ follower.old.thread }
        ensures made { IsNone result → made_by follower.new ≡ made_by follower.old ++ event ∷ [] }
        ensures stays { IfSome result (λ _. made_by follower.new ≡ made_by follower.old) }
        ensures holds { IfSome result (Holds self.now follower.new) }
    {
        match self.field.step(&mut follower.player) {
            Played::Made => {
                follower.made += 1;
                follower.accesses += accesses_in(event);
                None
            }
            Played::Waits { whom, needs, found } => Some(Hold::Waits { whom, needs, found }),
            Played::Through => Some(Hold::Amiss),
            Played::Amiss => Some(Hold::Amiss),
            Played::Stopped { .. } => Some(Hold::Amiss),
        }
    }

    /// Makes the marks that are next. Answers the access that was recorded after them, if one was.
    pub(crate) fn make_marks(&self, follower: &mut Follower) -> Result<Option<Event>, Hold>
        requires own { IsFollowerOf self.now follower.old }
        ensures own { IsFollowerOf self.now follower.new }
        ensures thread { follower.new.thread ≡ follower.old.thread }
        ensures marks { MakesMarks follower.old follower.new }
        ensures ok { IfOk result (λ next. (next ≡ next_recorded self.now follower.new) × IsNoMark next) }
        ensures err { IfErr result (Holds self.now follower.new) }
    {
        loop {
            let next = self.next(follower);
            let Some(Event::Marked { mark }) = next else {
                return Ok(next);
            };
            if let Some(hold) = self.make(follower, Event::Marked { mark }) {
                return Err(hold);
            }
        }
    }
}
