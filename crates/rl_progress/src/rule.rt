//! What a seat knows, and the rule over the words and all seats.

use atomic_table::TableRule;
use std::collections::LinkedList;

/// What a seat knows: it publishes the streams from `first` up to `end`, and `last` is what it published
/// last, or 0. Of each word it has what it has seen, and how often it loaded it. No value of it is made.
pub struct View {
    pub first: u64,
    pub end: u64,
    pub last: u64,
    pub seen: LinkedList<u64>,
    pub loads: LinkedList<u64>,
}

/// The rule. Its key is the number of streams.
pub struct Law;

impl TableRule<(), View, usize> for Law {
    ghost use Rattle.rl_progress.specs.Rule.{ProgressRule, dealer};

    ghost holds = { ProgressRule };

    ghost first = { λ streams. dealer streams 0 };
}
