//! What the rule says of the words and of every seat.
use atomic_table::TableRule;
use octet_model::List;
use std::marker::Model;
use std::snapshot::Snapshot;

/// How many threads there are, and what the cells have at first.
#[derive(Drop)]
pub(crate) struct Key {
    pub(crate) threads: u8,
    pub(crate) starts: Snapshot<List<u64>>,
}

/// What a seat knows. No value of it is made: it stands in contracts alone.
pub(crate) struct View {
    number: u64,
}

impl Model for View {
    ghost use Rattle.std.specs.Prelude.{[]};
    ghost use Rattle.octet_rule.specs.Views.{SeatView, new_view};

    ghost Value = { SeatView };

    ghost view = { λ view. new_view view.number 0 [] 0 };
}

/// That the words are those after a run of the protocol, whose steps are those that the seats know of.
pub(crate) struct Sound;

impl TableRule<(), View, Key> for Sound {
    ghost use Rattle.octet_rule.specs.Rule.{IsRuled, first_view};

    ghost holds = { λ key table. IsRuled key.threads key.starts.value table };

    ghost first = { λ key. first_view key.threads key.starts.value };
}
