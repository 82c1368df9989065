//! What a teller does, in a run that is recorded or made again.
#![tactic(auto, using(octet_session::proofs::lemmas::Room::room_after, octet_session::proofs::lemmas::Room::room_is_there))]

ghost use Rattle.std.specs.Prelude.{◌≡◌, None, IfOk, IfErr};
ghost use Rattle.octet_session.specs.Asking.{HasRoomFor};
ghost use Rattle.octet_bank.specs.Tellers.{lines_of_payment, Pays, HasLeft};

use octet_session::{Access, NotMade, Session, end, make};
use std::sync::Wait;

/// The account, which is the only object.
pub(crate) const ACCOUNT: u16 = 0;

/// What the two tellers pay.
#[derive(Clone, Copy, Debug)]
pub(crate) struct Payments {
    pub(crate) first: u32,
    pub(crate) second: u32,
}

/// Pays into the account: reads the balance, and writes it back with the amount. Both belong together, so they are a
/// region. Where the other teller comes between, a payment is lost.
pub(crate) fn pay<R: Wait, S: Session>(
    rt: &R,
    session: &S,
    teller: &mut S::Thread,
    amount: u32,
) -> Result<(), NotMade<S::Halt>>
    requires own { S.IsThreadOf session.now teller.old }
    requires rests { S.Rests teller.old }
    requires idle { (S.standing session.now teller.old).begun ≡ None }
    requires account { S.objects session.now ≡ 1 }
    requires room { HasRoomFor lines_of_payment (S.standing session.now teller.old).left }
    ensures own { S.IsThreadOf session.now teller.new }
    ensures number { (S.standing session.now teller.new).number ≡ (S.standing session.now teller.old).number }
    ensures paid { IfOk result (λ _. Pays amount (S.standing session.now teller.old).journal (S.standing session.now teller.new).journal) }
    ensures ended { IfOk result (λ _. S.HasEnded session.now teller.new) }
    ensures left { IfErr result (HasLeft (S.IsReason session.now) teller.new) }
{
    session.unblock(teller);
    session.region(teller);
    let balance = make(rt, session, teller, Access::Read { object: ACCOUNT })?;
    let value = balance.wrapping_add(u64::from(amount));
    make(
        rt,
        session,
        teller,
        Access::Write {
            object: ACCOUNT,
            value,
        },
    )?;
    end(rt, session, teller)
}
