//! What each step on the table tells: it is the step of its kind, by the one operation of that
//! step, on its word and with its operands. The object or the thread that a step names is read
//! off the place of its word.
ghost use Rattle.std.specs.Prelude.{◌-◌, ◌+◌, ◌/◌, false};
ghost use Rattle.octet_state.specs.declared.act.Mode.TheVariants.{Read as ForRead, Write as ForWrite, Update as ForUpdate};
ghost use Rattle.octet_state.specs.Steps.{ToGlance, ToAnswer, ToBlock, ToUnblock, ToAsk, ToLook, ToLoad, ToRead, ToWrite, ToBump, ToClaim, ToSettle, ToDraw, ToFence, ToRaise, ToShare};
ghost use Rattle.octet_rule.specs.Rule.{Acts};
ghost use Rattle.octet_rule.specs.Changes.{Changes};
ghost use Rattle.octet_rule.specs.declared.change.Change.TheVariants.{Add as ByAdd, Sub as BySub, Swap as BySwap, CompareExchange as ByExchange, And as ByAnd, Or as ByOr, Xor as ByXor, Max as ByMax, Min as ByMin};
ghost use Rattle.octet_rule.specs.Views.{after_split, split_off, after_join, spent};

use crate::view::View;
use atomic_table::{Join, Play, Split};

pub(crate) struct Glance;

impl Play<(), View> for Glance {
    ghost then = { λ step me told next. Acts ToGlance step me told next };
}

pub(crate) struct Answer;

impl Play<(), View> for Answer {
    ghost then = { λ step me told next. Acts ToAnswer step me told next };
}

pub(crate) struct Block;

impl Play<(), View> for Block {
    ghost then = { λ step me told next. Acts (ToBlock false) step me told next };
}

pub(crate) struct Unblock;

impl Play<(), View> for Unblock {
    ghost then = { λ step me told next. Acts ToUnblock step me told next };
}

pub(crate) struct Ask;

impl Play<(), View> for Ask {
    ghost then = { λ step me told next. Acts (ToAsk (step.word / 8 - 1)) step me told next };
}

pub(crate) struct Look;

impl Play<(), View> for Look {
    ghost then = { λ step me told next. Acts (ToLook (step.word / 8 - 1)) step me told next };
}

/// A load tells for which access it is by its type.
pub(crate) struct LoadToRead;

impl Play<(), View> for LoadToRead {
    ghost then = { λ step me told next. Acts (ToLoad (step.word / 8 - (1 + me.0.threads)) ForRead) step me told next };
}

pub(crate) struct LoadToWrite;

impl Play<(), View> for LoadToWrite {
    ghost then = { λ step me told next. Acts (ToLoad (step.word / 8 - (1 + me.0.threads)) ForWrite) step me told next };
}

pub(crate) struct LoadToUpdate;

impl Play<(), View> for LoadToUpdate {
    ghost then = { λ step me told next. Acts (ToLoad (step.word / 8 - (1 + me.0.threads)) ForUpdate) step me told next };
}

pub(crate) struct Read;

impl Play<(), View> for Read {
    ghost then = { λ step me told next. Acts ToRead step me told next };
}

pub(crate) struct Write;

impl Play<(), View> for Write {
    ghost then = { λ step me told next. Acts (ToWrite step.first) step me told next };
}

pub(crate) struct Bump;

impl Play<(), View> for Bump {
    ghost then = { λ step me told next. Acts (ToBump step.first) step me told next };
}

/// An update by a change tells for which change it is by its type.
pub(crate) struct Adds;

impl Play<(), View> for Adds {
    ghost then = { λ step me told next. Changes (ByAdd step.first) step me told next };
}

pub(crate) struct Subtracts;

impl Play<(), View> for Subtracts {
    ghost then = { λ step me told next. Changes (BySub step.first) step me told next };
}

pub(crate) struct Swaps;

impl Play<(), View> for Swaps {
    ghost then = { λ step me told next. Changes (BySwap step.first) step me told next };
}

pub(crate) struct Exchanges;

impl Play<(), View> for Exchanges {
    ghost then = { λ step me told next. Changes (ByExchange step.first step.second) step me told next };
}

pub(crate) struct Ands;

impl Play<(), View> for Ands {
    ghost then = { λ step me told next. Changes (ByAnd step.first) step me told next };
}

pub(crate) struct Ors;

impl Play<(), View> for Ors {
    ghost then = { λ step me told next. Changes (ByOr step.first) step me told next };
}

pub(crate) struct Xors;

impl Play<(), View> for Xors {
    ghost then = { λ step me told next. Changes (ByXor step.first) step me told next };
}

pub(crate) struct Maximizes;

impl Play<(), View> for Maximizes {
    ghost then = { λ step me told next. Changes (ByMax step.first) step me told next };
}

pub(crate) struct Minimizes;

impl Play<(), View> for Minimizes {
    ghost then = { λ step me told next. Changes (ByMin step.first) step me told next };
}

pub(crate) struct Claim;

impl Play<(), View> for Claim {
    ghost then = { λ step me told next. Acts ToClaim step me told next };
}

pub(crate) struct Settle;

impl Play<(), View> for Settle {
    ghost then = { λ step me told next. Acts ToSettle step me told next };
}

pub(crate) struct Draw;

impl Play<(), View> for Draw {
    ghost then = { λ step me told next. Acts ToDraw step me told next };
}

pub(crate) struct Fence;

impl Play<(), View> for Fence {
    ghost then = { λ step me told next. Acts ToFence step me told next };
}

pub(crate) struct Raise;

impl Play<(), View> for Raise {
    ghost then = { λ step me told next. Acts ToRaise step me told next };
}

pub(crate) struct Share;

impl Play<(), View> for Share {
    ghost then = { λ step me told next. Acts ToShare step me told next };
}

/// Deals the seat of the next thread.
pub(crate) struct SplitSeat;

impl Split<View> for SplitSeat {
    ghost left = { after_split };

    ghost right = { split_off };
}

/// Takes a seat back.
pub(crate) struct JoinSeat;

impl Join<View> for JoinSeat {
    ghost both = { after_join };

    ghost spent = { spent };
}
