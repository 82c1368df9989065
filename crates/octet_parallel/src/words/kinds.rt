//! What each step on the table tells: it is the step of its kind, by the one operation of that
//! step, on its word. The player that a look names is read off the place of its word.
ghost use Rattle.std.specs.Prelude.{◌/◌};
ghost use Rattle.octet_parallel.specs.declared.fate.Fate.TheVariants.{Amiss as GoneAmiss, Stopped};
ghost use Rattle.octet_parallel.specs.Steps.{ToLook, ToRead, ToWrite, ToBump, ToAdvance, ToStop};
ghost use Rattle.octet_parallel.specs.Rule.{Acts, spent, stop_found};
ghost use Rattle.octet_parallel.specs.Views.{after_split, split_off, after_join};

use crate::view::View;
use atomic_table::{Join, Play, Split};

pub(crate) struct Look;

impl Play<(), View> for Look {
    ghost then = { λ step me told next. Acts (ToLook (step.word / 8)) step me told next };
}

pub(crate) struct Read;

impl Play<(), View> for Read {
    ghost then = { λ step me told next. Acts ToRead step me told next };
}

pub(crate) struct Write;

impl Play<(), View> for Write {
    ghost then = { λ step me told next. Acts ToWrite step me told next };
}

pub(crate) struct Bump;

impl Play<(), View> for Bump {
    ghost then = { λ step me told next. Acts ToBump step me told next };
}

pub(crate) struct Advance;

impl Play<(), View> for Advance {
    ghost then = { λ step me told next. Acts ToAdvance step me told next };
}

/// A player is amiss.
pub(crate) struct GoAmiss;

impl Play<(), View> for GoAmiss {
    ghost then = { λ step me told next. Acts (ToStop GoneAmiss) step me told next };
}

/// A player stops after the look that it took last.
pub(crate) struct Stop;

impl Play<(), View> for Stop {
    ghost then = { λ step me told next. Acts (ToStop (Stopped (stop_found me.0))) step me told next };
}

/// Deals the next player.
pub(crate) struct SplitSeat;

impl Split<View> for SplitSeat {
    ghost left = { after_split };

    ghost right = { split_off };
}

/// Takes a player back.
pub(crate) struct JoinSeat;

impl Join<View> for JoinSeat {
    ghost both = { after_join };

    ghost spent = { spent };
}
