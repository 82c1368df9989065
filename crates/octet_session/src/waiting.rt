//! The calls of a session that may wait, repeated until they do not.
ghost use Rattle.std.specs.Prelude.{◌≡◌, ◌≢◌, ◌<◌, Err, Some, None, IfErr, OnOk};
ghost use Rattle.octet_session.specs.declared.not_made.NotMade.TheVariants.{Waits, NoRoom};
ghost use Rattle.octet_session.specs.Standing.{GainsMarks, Follows};
ghost use Rattle.octet_session.specs.Asking.{object_of, MayAsk, Asks};

use crate::not_made::NotMade;
use crate::session::Session;
use crossbeam_utils::Backoff;
use octet_recorder::Access;
use std::sync::Wait;

/// Asks for an access until it is made, or the thread ends.
pub fn make<R: Wait, S: Session>(
    rt: &R,
    session: &S,
    thread: &mut S::Thread,
    wanted: Access,
) -> Result<u64, NotMade<S::Halt>>
    requires own { S.IsThreadOf session.now thread.old }
    requires runs { S.Runs thread.old }
    requires may { MayAsk wanted (S.standing session.now thread.old).begun }
    requires object { object_of wanted < S.objects session.now }
    ensures own { S.IsThreadOf session.now thread.new }
    ensures runs { S.Runs thread.new }
    ensures asks { Asks wanted (S.standing session.now thread.old) result (S.standing session.now thread.new) }
    ensures reason { IfErr result (λ why. (before : S.Thread) × S.IsReason session.now (Some wanted) before thread.new why) }
    ensures follows { Follows (S.recorded session.now thread.new) (S.standing session.now thread.new).journal }
    ensures idle { (S.standing session.now thread.new).begun ≡ None }
    ensures made { result ≢ Err Waits }
{
    let backoff = Backoff::new();
    for _ in rt.forever() {
        match session.ask(thread, wanted) {
            Ok(value) => return Ok(value),
            Err(NotMade::Waits) => backoff.snooze(),
            Err(why) => return Err(why),
        }
    }
    unreachable!()
}

/// Ends the thread, as `Session::finish` does, once no mark waits that is left.
pub fn end<R: Wait, S: Session>(
    rt: &R,
    session: &S,
    thread: &mut S::Thread,
) -> Result<(), NotMade<S::Halt>>
    requires own { S.IsThreadOf session.now thread.old }
    requires runs { S.Runs thread.old }
    requires idle { (S.standing session.now thread.old).begun ≡ None }
    ensures own { S.IsThreadOf session.now thread.new }
    ensures number { (S.standing session.now thread.new).number ≡ (S.standing session.now thread.old).number }
    ensures marks { GainsMarks (S.standing session.now thread.old).journal (S.standing session.now thread.new).journal }
    ensures ended { OnOk result (S.HasEnded session.now thread.new) }
    ensures reason { IfErr result (λ why. (before : S.Thread) × S.IsReason session.now None before thread.new why) }
    ensures no_room { result ≢ Err NoRoom }
    ensures follows { Follows (S.recorded session.now thread.new) (S.standing session.now thread.new).journal }
    ensures made { result ≢ Err Waits }
{
    let backoff = Backoff::new();
    for _ in rt.forever() {
        match session.finish(thread) {
            Ok(()) => return Ok(()),
            Err(NotMade::Waits) => backoff.snooze(),
            Err(why) => return Err(why),
        }
    }
    unreachable!()
}
