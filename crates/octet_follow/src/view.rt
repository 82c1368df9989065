//! What the rule says of the words and of every follower.
use atomic_table::TableRule;
use octet_model::{List, Mark};
use std::marker::Model;
use std::snapshot::Snapshot;

/// What a course begins with.
#[derive(Drop)]
pub(crate) struct Key {
    pub(crate) starts: Snapshot<List<u64>>,
    pub(crate) followers: u8,
}

/// What a follower knows. No value of it is made: it stands in contracts alone.
pub(crate) struct View {
    number: u64,
    starts: List<u64>,
    followers: u64,
}

impl Model for View {
    ghost use Rattle.octet_follow.specs.Views.{FollowerView, new_view};

    ghost Value = { FollowerView };

    ghost view = { λ view. new_view view.number view.starts view.followers 0 };
}

/// That the words and the views of all followers are one sound state.
pub(crate) struct Sound;

impl TableRule<Mark, View, Key> for Sound {
    ghost use Rattle.octet_follow.specs.Rule.{IsRuled, first_view};

    ghost holds = { λ key table. IsRuled key.starts.value key.followers table };

    ghost first = { λ key. first_view key.starts.value key.followers };
}
