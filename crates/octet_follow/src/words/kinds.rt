//! What each step on the table tells: it is the step of its kind. The follower or the object that a
//! step names is read off the place of its word.
ghost use Rattle.std.specs.Prelude.{◌/◌};
ghost use Rattle.octet_rule.specs.declared.change.Change.TheVariants.{Add as ByAdd, Sub as BySub, Swap as BySwap, CompareExchange as ByExchange, And as ByAnd, Or as ByOr, Xor as ByXor, Max as ByMax, Min as ByMin};
ghost use Rattle.octet_follow.specs.Steps.{ToLook, ToLookAtDraws, ToRead, ToWrite, ToShow};
ghost use Rattle.octet_follow.specs.Rule.{Finds, Stores, Changes, Draws, Marks, object_at, spent};
ghost use Rattle.octet_follow.specs.Views.{after_split, split_off, after_join};

use crate::view::View;
use atomic_table::{Join, Play, Split};
use octet_model::Mark as MarkMade;

pub(crate) struct Look;

impl Play<MarkMade, View> for Look {
    ghost then = { λ step me told next. Finds (ToLook (step.word / 8)) me told next };
}

pub(crate) struct LookAtDraws;

impl Play<MarkMade, View> for LookAtDraws {
    ghost then = { λ step me told next. Finds ToLookAtDraws me told next };
}

pub(crate) struct Read;

impl Play<MarkMade, View> for Read {
    ghost then = { λ step me told next. Finds (ToRead (object_at me.0 step.word)) me told next };
}

pub(crate) struct Write;

impl Play<MarkMade, View> for Write {
    ghost then = { λ step me told next. Stores (ToWrite (object_at me.0 step.word) told) me next };
}

/// An update tells by its type for which change it is.
pub(crate) struct Adds;

impl Play<MarkMade, View> for Adds {
    ghost then = { λ step me told next. Changes (ByAdd step.first) (object_at me.0 step.word) me told next };
}

pub(crate) struct Subtracts;

impl Play<MarkMade, View> for Subtracts {
    ghost then = { λ step me told next. Changes (BySub step.first) (object_at me.0 step.word) me told next };
}

pub(crate) struct Swaps;

impl Play<MarkMade, View> for Swaps {
    ghost then = { λ step me told next. Changes (BySwap step.first) (object_at me.0 step.word) me told next };
}

pub(crate) struct Exchanges;

impl Play<MarkMade, View> for Exchanges {
    ghost then = { λ step me told next. Changes (ByExchange step.first step.second) (object_at me.0 step.word) me told next };
}

pub(crate) struct Ands;

impl Play<MarkMade, View> for Ands {
    ghost then = { λ step me told next. Changes (ByAnd step.first) (object_at me.0 step.word) me told next };
}

pub(crate) struct Ors;

impl Play<MarkMade, View> for Ors {
    ghost then = { λ step me told next. Changes (ByOr step.first) (object_at me.0 step.word) me told next };
}

pub(crate) struct Xors;

impl Play<MarkMade, View> for Xors {
    ghost then = { λ step me told next. Changes (ByXor step.first) (object_at me.0 step.word) me told next };
}

pub(crate) struct Maximizes;

impl Play<MarkMade, View> for Maximizes {
    ghost then = { λ step me told next. Changes (ByMax step.first) (object_at me.0 step.word) me told next };
}

pub(crate) struct Minimizes;

impl Play<MarkMade, View> for Minimizes {
    ghost then = { λ step me told next. Changes (ByMin step.first) (object_at me.0 step.word) me told next };
}

pub(crate) struct Draw;

impl Play<MarkMade, View> for Draw {
    ghost then = { λ step me told next. Draws step.first me told next };
}

pub(crate) struct Mark;

impl Play<MarkMade, View> for Mark {
    ghost then = { λ step me told next. Marks step me told next };
}

pub(crate) struct Show;

impl Play<MarkMade, View> for Show {
    ghost then = { λ step me told next. Stores ToShow me next };
}

/// Deals the next follower.
pub(crate) struct SplitSeat;

impl Split<View> for SplitSeat {
    ghost left = { after_split };

    ghost right = { split_off };
}

/// Takes a follower back.
pub(crate) struct JoinSeat;

impl Join<View> for JoinSeat {
    ghost both = { after_join };

    ghost spent = { spent };
}
