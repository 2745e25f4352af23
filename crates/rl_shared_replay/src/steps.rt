//! The six kinds of step.

use crate::view::View;
use atomic_table::{Join, Play, Split};

/// A load of a record's word.
pub struct Loads;

impl Play<(), View> for Loads {
    ghost use Rattle.rl_shared_replay.specs.Steps.{Load};

    ghost then = { Load };
}

/// A fetch_or of 1 on a record's word.
pub struct Locks;

impl Play<(), View> for Locks {
    ghost use Rattle.rl_shared_replay.specs.Steps.{Lock};

    ghost then = { Lock };
}

/// A store to presence or a column.
pub struct ColumnStores;

impl Play<(), View> for ColumnStores {
    ghost use Rattle.rl_shared_replay.specs.Steps.{ColumnStore};

    ghost then = { ColumnStore };
}

/// A store to the word of a record that is held.
pub struct Closes;

impl Play<(), View> for Closes {
    ghost use Rattle.rl_shared_replay.specs.Steps.{Close};

    ghost then = { Close };
}

/// A split: a new seat that has made and seen nothing.
pub struct Splits;

impl Split<View> for Splits {
    ghost use Rattle.rl_shared_replay.specs.Views.{blank};

    ghost left = { λ v. v };

    ghost right = { λ v. blank };
}

/// A join: what both have made and seen.
pub struct Joins;

impl Join<View> for Joins {
    ghost use Rattle.rl_shared_replay.specs.Views.{joined, blank};

    ghost both = { joined };

    ghost spent = { blank };
}
