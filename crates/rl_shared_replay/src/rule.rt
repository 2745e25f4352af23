//! The rule over the words and all seats.

use crate::parts::Parts;
use crate::view::View;
use atomic_table::TableRule;
use rl_tables::layout::Layout;
use std::snapshot::Snapshot;

/// What a replay starts from: the words as they open, the columns of each record, how many keys
/// each table has, and the items of all streams.
#[derive(Drop)]
pub struct Start {
    pub words: Vec<u64>,
    pub columns: Vec<u32>,
    pub layout: Layout,
    pub parts: Parts,
}

/// The rule. Its key is what the replay starts from.
pub struct Law;

impl TableRule<(), View, Snapshot<Start>> for Law {
    ghost use Rattle.rl_shared_replay.specs.Start.{plan_of};
    ghost use Rattle.rl_shared_replay.specs.Rule.{ReplayRule};
    ghost use Rattle.rl_shared_replay.specs.Views.{blank};

    ghost holds = { λ key. ReplayRule (plan_of key.value) };

    ghost first = { λ key. blank };
}
