//! The rule over the words and all passes.

use crate::view::View;
use atomic_table::TableRule;
use std::snapshot::Snapshot;

/// What a store is made of.
#[derive(Drop)]
pub struct Start {
    pub words: Vec<u64>,
    pub columns: Vec<u32>,
    pub epoch: u32,
    pub tries: u64,
}

/// The rule. Its key is what the store was made of.
pub struct Law;

impl TableRule<(), View, Snapshot<Start>> for Law {
    ghost use Rattle.rl_store.specs.Opening.{first_view, made_of, opening_of};
    ghost use Rattle.rl_store.specs.Rule.{StoreRule};

    ghost holds = { λ key. StoreRule (opening_of (made_of key.value)) };

    ghost first = { λ key. first_view key.value.tries };
}
