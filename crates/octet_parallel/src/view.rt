//! What the rule says of the words and of every player.
use atomic_table::TableRule;
use octet_model::{Log, Script};
use std::marker::Model;
use std::snapshot::Snapshot;

/// What is replayed.
#[derive(Drop)]
pub(crate) struct Key {
    pub(crate) script: Snapshot<Script>,
    pub(crate) log: Snapshot<Log>,
}

/// What a player knows. No value of it is made: it stands in contracts alone.
pub(crate) struct View {
    number: u64,
    script: Script,
    log: Log,
}

impl Model for View {
    ghost use Rattle.octet_parallel.specs.Views.{PlayerView, new_view};

    ghost Value = { PlayerView };

    ghost view = { λ view. new_view view.number view.script view.log 0 };
}

/// That the words are those after a run of the players, whose steps are those that their views tell of.
pub(crate) struct Sound;

impl TableRule<(), View, Key> for Sound {
    ghost use Rattle.octet_parallel.specs.Rule.{IsRuled, first_view};

    ghost holds = { λ key table. IsRuled key.script.value key.log.value table };

    ghost first = { λ key. first_view key.script.value key.log.value };
}
