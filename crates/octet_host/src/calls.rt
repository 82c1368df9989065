//! What a thread does, whether it is recorded or run again. What a session asks of its callers is tested.
ghost use Rattle.std.specs.Prelude.{◌≡◌, ◌<◌, Err, OnOk};
ghost use Rattle.octet_recorder.specs.declared.access.Access.{Access as Wanted};
ghost use Rattle.octet_session.specs.Asking.{object_of, MayAsk};
ghost use Rattle.octet_host.specs.Calls.{Does, Goes, BeginsNext, IsNoRest, IsNotIdle, made_of, stage_asked, IsOfAsking, AsksOn, Accesses, GoesOn, Ends};
ghost use Rattle.octet_host.specs.Stages.{StandsAt};
ghost use Rattle.octet_host.specs.declared.stage.Stage.TheVariants as at;

use crate::answer::Answer;
use crate::misuse::Misuse;
use crate::stage::Stage;
use octet_session::{Access, NotMade, Session};

/// Marks the thread as running.
pub fn start<S: Session>(
    session: &S,
    thread: &mut S::Thread,
    stage: &mut Stage,
) -> Result<(), Misuse>
    requires own { S.IsThreadOf session.now thread.old }
    requires stands { StandsAt (S.Runs thread.old) (S.Rests thread.old) (S.HasEnded session.now thread.old) (S.objects session.now) stage.old (S.standing session.now thread.old) }
    ensures own { S.IsThreadOf session.now thread.new }
    ensures stands { StandsAt (S.Runs thread.new) (S.Rests thread.new) (S.HasEnded session.now thread.new) (S.objects session.now) stage.new (S.standing session.now thread.new) }
    ensures does { Does (Goes at.Resting at.Idle) IsNoRest result stage.old (S.standing session.now thread.old) stage.new (S.standing session.now thread.new) }
{
    stage.resting()?;
    session.unblock(thread);
    *stage = Stage::Idle;
    Ok(())
}

/// Marks the thread as blocked.
pub fn stop<S: Session>(
    session: &S,
    thread: &mut S::Thread,
    stage: &mut Stage,
) -> Result<(), Misuse>
    requires own { S.IsThreadOf session.now thread.old }
    requires stands { StandsAt (S.Runs thread.old) (S.Rests thread.old) (S.HasEnded session.now thread.old) (S.objects session.now) stage.old (S.standing session.now thread.old) }
    ensures own { S.IsThreadOf session.now thread.new }
    ensures stands { StandsAt (S.Runs thread.new) (S.Rests thread.new) (S.HasEnded session.now thread.new) (S.objects session.now) stage.new (S.standing session.now thread.new) }
    ensures does { Does (Goes at.Idle at.Resting) IsNotIdle result stage.old (S.standing session.now thread.old) stage.new (S.standing session.now thread.new) }
{
    stage.idle()?;
    session.block(thread);
    *stage = Stage::Resting;
    Ok(())
}

/// Begins a region with the next access.
pub fn region<S: Session>(session: &S, thread: &mut S::Thread, stage: Stage) -> Result<(), Misuse>
    requires own { S.IsThreadOf session.now thread.old }
    requires stands { StandsAt (S.Runs thread.old) (S.Rests thread.old) (S.HasEnded session.now thread.old) (S.objects session.now) stage (S.standing session.now thread.old) }
    ensures own { S.IsThreadOf session.now thread.new }
    ensures stands { StandsAt (S.Runs thread.new) (S.Rests thread.new) (S.HasEnded session.now thread.new) (S.objects session.now) stage (S.standing session.now thread.new) }
    ensures does { Does BeginsNext IsNotIdle result stage (S.standing session.now thread.old) stage (S.standing session.now thread.new) }
{
    stage.idle()?;
    session.region(thread);
    Ok(())
}

/// Answers the threads that have asked this one.
pub fn safe_point<S: Session>(
    session: &S,
    thread: &mut S::Thread,
    stage: Stage,
) -> Result<(), Misuse>
    requires own { S.IsThreadOf session.now thread.old }
    requires stands { StandsAt (S.Runs thread.old) (S.Rests thread.old) (S.HasEnded session.now thread.old) (S.objects session.now) stage (S.standing session.now thread.old) }
    ensures own { S.IsThreadOf session.now thread.new }
    ensures stands { StandsAt (S.Runs thread.new) (S.Rests thread.new) (S.HasEnded session.now thread.new) (S.objects session.now) stage (S.standing session.now thread.new) }
    ensures does { Does (Goes at.Idle at.Idle) IsNotIdle result stage (S.standing session.now thread.old) stage (S.standing session.now thread.new) }
{
    stage.idle()?;
    session.safe_point(thread);
    Ok(())
}

// Where an access leaves its thread that is not made, and what that comes to. What goes out of line is copied to memory here,
// and so stays in registers where the access is made.
#[inline(always)]
fn not_made<H: Copy>(stage: &mut Stage, wanted: Access, why: NotMade<H>) -> Answer<H>
    ensures stage { stage.new ≡ stage_asked wanted result }
    ensures only { IsOfAsking result }
    ensures is { made_of result ≡ Err why }
{
    leave_unmade(stage, wanted, why)
}

// The same, out of line.
#[inline(never)]
fn leave_unmade<H: Copy>(stage: &mut Stage, wanted: Access, why: NotMade<H>) -> Answer<H>
    ensures stage { stage.new ≡ stage_asked wanted result }
    ensures only { IsOfAsking result }
    ensures is { made_of result ≡ Err why }
{
    match why {
        NotMade::Waits => {
            *stage = Stage::Begun { wanted };
            Answer::Pending
        }
        NotMade::NoRoom => {
            *stage = Stage::Idle;
            Answer::Refused {
                misuse: Misuse::Spent,
            }
        }
        NotMade::Left { halt } => {
            *stage = Stage::Idle;
            Answer::Left { halt }
        }
    }
}

// Begins an access, or goes on with it.
fn ask<S: Session>(
    session: &S,
    thread: &mut S::Thread,
    stage: &mut Stage,
    wanted: Access,
) -> Answer<S::Halt>
    requires own { S.IsThreadOf session.now thread.old }
    requires runs { S.Runs thread.old }
    requires may { MayAsk wanted (S.standing session.now thread.old).begun }
    requires object { object_of wanted < S.objects session.now }
    ensures own { S.IsThreadOf session.now thread.new }
    ensures stands { StandsAt (S.Runs thread.new) (S.Rests thread.new) (S.HasEnded session.now thread.new) (S.objects session.now) stage.new (S.standing session.now thread.new) }
    ensures asks { AsksOn (λ asked. S.IsReason session.now asked thread.old thread.new) wanted (S.standing session.now thread.old) result stage.new (S.standing session.now thread.new) }
    ensures made { OnOk (made_of result) (S.HasMade session.now wanted thread.old thread.new) }
{
    match session.ask(thread, wanted) {
        Ok(value) => {
            *stage = Stage::Idle;
            Answer::Ready { value }
        }
        Err(why) => not_made(stage, wanted, why),
    }
}

#[inline(always)]
fn object_of(wanted: Access) -> u16
    ensures { result ≡ object_of wanted }
{
    match wanted {
        Access::Read { object } => object,
        Access::Write { object, .. } => object,
        Access::Update { object, .. } => object,
    }
}

/// Begins an access, and makes it if it can be made at once. There are so many objects.
#[inline(always)]
pub fn access<S: Session>(
    session: &S,
    thread: &mut S::Thread,
    stage: &mut Stage,
    objects: u16,
    wanted: Access,
) -> Answer<S::Halt>
    requires own { S.IsThreadOf session.now thread.old }
    requires stands { StandsAt (S.Runs thread.old) (S.Rests thread.old) (S.HasEnded session.now thread.old) (S.objects session.now) stage.old (S.standing session.now thread.old) }
    requires objects { objects ≡ S.objects session.now }
    ensures own { S.IsThreadOf session.now thread.new }
    ensures stands { StandsAt (S.Runs thread.new) (S.Rests thread.new) (S.HasEnded session.now thread.new) (S.objects session.now) stage.new (S.standing session.now thread.new) }
    ensures accesses { Accesses (λ asked. S.IsReason session.now asked thread.old thread.new) objects wanted stage.old (S.standing session.now thread.old) result stage.new (S.standing session.now thread.new) }
    ensures made { OnOk (made_of result) (S.HasMade session.now wanted thread.old thread.new) }
{
    if let Err(misuse) = stage.idle() {
        return Answer::Refused { misuse };
    }
    if object_of(wanted) >= objects {
        return Answer::Refused {
            misuse: Misuse::NoSuchObject,
        };
    }
    // An access that is made at once leaves the stage as it is.
    match session.ask(thread, wanted) {
        Ok(value) => Answer::Ready { value },
        Err(why) => not_made(stage, wanted, why),
    }
}

/// Goes on with the access that was begun.
pub fn poll<S: Session>(session: &S, thread: &mut S::Thread, stage: &mut Stage) -> Answer<S::Halt>
    requires own { S.IsThreadOf session.now thread.old }
    requires stands { StandsAt (S.Runs thread.old) (S.Rests thread.old) (S.HasEnded session.now thread.old) (S.objects session.now) stage.old (S.standing session.now thread.old) }
    ensures own { S.IsThreadOf session.now thread.new }
    ensures stands { StandsAt (S.Runs thread.new) (S.Rests thread.new) (S.HasEnded session.now thread.new) (S.objects session.now) stage.new (S.standing session.now thread.new) }
    ensures goes_on { GoesOn (λ asked. S.IsReason session.now asked thread.old thread.new) stage.old (S.standing session.now thread.old) result stage.new (S.standing session.now thread.new) }
    ensures made { (wanted : Wanted) → stage.old ≡ at.Begun wanted → OnOk (made_of result) (S.HasMade session.now wanted thread.old thread.new) }
{
    let Stage::Begun { wanted: begun } = *stage else {
        return Answer::Refused {
            misuse: Misuse::NotBegun,
        };
    };
    ask(session, thread, stage, begun)
}

/// Ends the thread: makes the marks that are left of its recording. Refused there while one of them waits, or where an
/// access is left.
pub fn end<S: Session>(session: &S, thread: &mut S::Thread, stage: &mut Stage) -> Answer<S::Halt>
    requires own { S.IsThreadOf session.now thread.old }
    requires stands { StandsAt (S.Runs thread.old) (S.Rests thread.old) (S.HasEnded session.now thread.old) (S.objects session.now) stage.old (S.standing session.now thread.old) }
    ensures own { S.IsThreadOf session.now thread.new }
    ensures stands { StandsAt (S.Runs thread.new) (S.Rests thread.new) (S.HasEnded session.now thread.new) (S.objects session.now) stage.new (S.standing session.now thread.new) }
    ensures ends { Ends (λ asked. S.IsReason session.now asked thread.old thread.new) (S.HasEnded session.now thread.new) stage.old (S.standing session.now thread.old) result stage.new (S.standing session.now thread.new) }
{
    if let Err(misuse) = stage.idle() {
        return Answer::Refused { misuse };
    }
    match session.finish(thread) {
        Ok(()) => {
            *stage = Stage::Ended;
            Answer::Ready { value: 0 }
        }
        Err(NotMade::Waits) => Answer::Pending,
        Err(NotMade::NoRoom) => Answer::Refused {
            misuse: Misuse::Spent,
        },
        Err(NotMade::Left { halt }) => Answer::Left { halt },
    }
}
