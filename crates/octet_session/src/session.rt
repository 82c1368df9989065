//! What the threads of a run share.
ghost use Rattle.std.specs.Prelude.{◌≡◌, ◌≢◌, ℕ, ◌<◌, List, Option, Err, Some, None, IfErr, OnOk};
ghost use Rattle.octet_model.specs.declared.event.Event.{Event};
ghost use Rattle.octet_recorder.specs.declared.access.Access.{Access};
ghost use Rattle.octet_recorder.specs.declared.access.Access.TheVariants as want;
ghost use Rattle.octet_session.specs.declared.not_made.NotMade.{NotMade};
ghost use Rattle.octet_session.specs.declared.not_made.NotMade.TheVariants.{NoRoom};
ghost use Rattle.octet_session.specs.Standing.{Standing, Keeps, BeginsRegion, GainsMarks, Follows};
ghost use Rattle.octet_session.specs.Asking.{object_of, MayAsk, Asks};

use crate::not_made::NotMade;
use octet_recorder::{Access, Change};

/// What the threads of a run share, whether the run is recorded or made again. No call takes memory, and none waits.
pub trait Session: Sync {
    /// What is kept of one thread.
    type Thread: Send;

    /// Why a thread goes on no more.
    type Halt: Copy;

    ghost IsThreadOf: { Self → Self.Thread → Type 0 };

    ghost standing: { Self → Self.Thread → Standing };

    ghost objects: { Self → ℕ };

    ghost recorded: { Self → Self.Thread → Option (List Event) };

    ghost Runs: { Self.Thread → Type 0 };

    ghost Rests: { Self.Thread → Type 0 };

    ghost HasEnded: { Self → Self.Thread → Type 0 };

    // Why a call, from one state of the thread to the next, has not made this access: or has not ended the thread, where no
    // access is wanted.
    ghost IsReason: { Self → Option Access → Self.Thread → Self.Thread → NotMade Self.Halt → Type 0 };

    // How this access was made, from one state of the thread to the next.
    ghost HasMade: { Self → Access → Self.Thread → Self.Thread → Type 0 };

    /// Asks for an access. Answers the value that a read or an update found, or that a write wrote: in a second run the
    /// one that was recorded. After `Waits` the same call goes on with it; after any other error the thread ends.
    fn ask(&self, thread: &mut Self::Thread, wanted: Access) -> Result<u64, NotMade<Self::Halt>>
        requires own { IsThreadOf self.now thread.old }
        requires runs { Runs thread.old }
        requires may { MayAsk wanted (standing self.now thread.old).begun }
        requires object { object_of wanted < objects self.now }
        ensures own { IsThreadOf self.now thread.new }
        ensures runs { Runs thread.new }
        ensures asks { Asks wanted (standing self.now thread.old) result (standing self.now thread.new) }
        ensures reason { IfErr result (IsReason self.now (Some wanted) thread.old thread.new) }
        ensures made { OnOk result (HasMade self.now wanted thread.old thread.new) }
        ensures follows { Follows (recorded self.now thread.new) (standing self.now thread.new).journal };

    /// Begins a region with the next access.
    fn region(&self, thread: &mut Self::Thread)
        requires own { IsThreadOf self.now thread.old }
        requires runs { Runs thread.old }
        requires idle { (standing self.now thread.old).begun ≡ None }
        ensures own { IsThreadOf self.now thread.new }
        ensures runs { Runs thread.new }
        ensures region { BeginsRegion (standing self.now thread.old) (standing self.now thread.new) };

    /// Answers the threads that have asked this one.
    fn safe_point(&self, thread: &mut Self::Thread)
        requires own { IsThreadOf self.now thread.old }
        requires runs { Runs thread.old }
        requires idle { (standing self.now thread.old).begun ≡ None }
        ensures own { IsThreadOf self.now thread.new }
        ensures runs { Runs thread.new }
        ensures keeps { Keeps (standing self.now thread.old) (standing self.now thread.new) };

    /// Marks the thread as blocked, so that no other thread has to wait for it.
    fn block(&self, thread: &mut Self::Thread)
        requires own { IsThreadOf self.now thread.old }
        requires runs { Runs thread.old }
        requires idle { (standing self.now thread.old).begun ≡ None }
        ensures own { IsThreadOf self.now thread.new }
        ensures rests { Rests thread.new }
        ensures keeps { Keeps (standing self.now thread.old) (standing self.now thread.new) };

    /// Marks the thread as running. The first one starts it.
    fn unblock(&self, thread: &mut Self::Thread)
        requires own { IsThreadOf self.now thread.old }
        requires rests { Rests thread.old }
        requires idle { (standing self.now thread.old).begun ≡ None }
        ensures own { IsThreadOf self.now thread.new }
        ensures runs { Runs thread.new }
        ensures keeps { Keeps (standing self.now thread.old) (standing self.now thread.new) };

    /// Ends the thread: it is blocked, and in a second run the marks are made that are left. Refused there while one of them
    /// waits, or where an access is left.
    fn finish(&self, thread: &mut Self::Thread) -> Result<(), NotMade<Self::Halt>>
        requires own { IsThreadOf self.now thread.old }
        requires runs { Runs thread.old }
        requires idle { (standing self.now thread.old).begun ≡ None }
        ensures own { IsThreadOf self.now thread.new }
        ensures number { (standing self.now thread.new).number ≡ (standing self.now thread.old).number }
        ensures marks { GainsMarks (standing self.now thread.old).journal (standing self.now thread.new).journal }
        ensures ended { OnOk result (HasEnded self.now thread.new) }
        ensures again { IfErr result (λ _. Runs thread.new × ((standing self.now thread.new).begun ≡ None)) }
        ensures reason { IfErr result (IsReason self.now None thread.old thread.new) }
        ensures no_room { result ≢ Err NoRoom }
        ensures follows { Follows (recorded self.now thread.new) (standing self.now thread.new).journal };

    /// Reads an object.
    final fn read(&self, thread: &mut Self::Thread, object: u16) -> Result<u64, NotMade<Self::Halt>>
        requires own { IsThreadOf self.now thread.old }
        requires runs { Runs thread.old }
        requires may { MayAsk (want.Read object) (standing self.now thread.old).begun }
        requires object { object < objects self.now }
        ensures own { IsThreadOf self.now thread.new }
        ensures runs { Runs thread.new }
        ensures asks { Asks (want.Read object) (standing self.now thread.old) result (standing self.now thread.new) }
        ensures reason { IfErr result (IsReason self.now (Some (want.Read object)) thread.old thread.new) }
        ensures made { OnOk result (HasMade self.now (want.Read object) thread.old thread.new) }
        ensures follows { Follows (recorded self.now thread.new) (standing self.now thread.new).journal }
    {
        self.ask(thread, Access::Read { object })
    }

    /// Writes a value to an object.
    final fn write(
        &self,
        thread: &mut Self::Thread,
        object: u16,
        value: u64,
    ) -> Result<u64, NotMade<Self::Halt>>
        requires own { IsThreadOf self.now thread.old }
        requires runs { Runs thread.old }
        requires may { MayAsk (want.Write object value) (standing self.now thread.old).begun }
        requires object { object < objects self.now }
        ensures own { IsThreadOf self.now thread.new }
        ensures runs { Runs thread.new }
        ensures asks { Asks (want.Write object value) (standing self.now thread.old) result (standing self.now thread.new) }
        ensures reason { IfErr result (IsReason self.now (Some (want.Write object value)) thread.old thread.new) }
        ensures made { OnOk result (HasMade self.now (want.Write object value) thread.old thread.new) }
        ensures follows { Follows (recorded self.now thread.new) (standing self.now thread.new).journal }
    {
        self.ask(thread, Access::Write { object, value })
    }

    /// Updates an object by a change of the value that it finds, as one access.
    final fn update(
        &self,
        thread: &mut Self::Thread,
        object: u16,
        change: Change,
    ) -> Result<u64, NotMade<Self::Halt>>
        requires own { IsThreadOf self.now thread.old }
        requires runs { Runs thread.old }
        requires may { MayAsk (want.Update object change) (standing self.now thread.old).begun }
        requires object { object < objects self.now }
        ensures own { IsThreadOf self.now thread.new }
        ensures runs { Runs thread.new }
        ensures asks { Asks (want.Update object change) (standing self.now thread.old) result (standing self.now thread.new) }
        ensures reason { IfErr result (IsReason self.now (Some (want.Update object change)) thread.old thread.new) }
        ensures made { OnOk result (HasMade self.now (want.Update object change) thread.old thread.new) }
        ensures follows { Follows (recorded self.now thread.new) (standing self.now thread.new).journal }
    {
        self.ask(thread, Access::Update { object, change })
    }
}
