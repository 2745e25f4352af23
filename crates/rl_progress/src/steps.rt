//! The four kinds of step, and what each tells.

use crate::rule::View;
use atomic_table::{Join, Play, Split};

/// A load of a stream's word.
pub struct Loads;

impl Play<(), View> for Loads {
    ghost use Rattle.rl_progress.specs.Steps.{Loaded};

    ghost then = { Loaded };
}

/// A store to the word of the seat's own stream.
pub struct Publishes;

impl Play<(), View> for Publishes {
    ghost use Rattle.rl_progress.specs.Steps.{Published};

    ghost then = { Published };
}

/// The first stream of the dealer goes to a seat of its own.
pub struct Deals;

impl Split<View> for Deals {
    ghost use Rattle.rl_progress.specs.Rule.{dealt, rest_of};

    ghost left = { rest_of };

    ghost right = { dealt };
}

/// Another seat has seen what this one has seen, and only reads.
pub struct Splits;

impl Split<View> for Splits {
    ghost use Rattle.rl_progress.specs.Rule.{reader};

    ghost left = { λ v. v };

    ghost right = { reader };
}

/// One seat has seen what both had seen.
pub struct Joins;

impl Join<View> for Joins {
    ghost use Rattle.rl_progress.specs.Rule.{joined, spent};

    ghost both = { joined };

    ghost spent = { spent };
}
