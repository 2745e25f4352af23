//! What one step of a worker does.

ghost use Rattle.std.specs.Prelude.{◌≡◌, Some, None};

use rl_base::refusal::Refusal;
use rl_txn::item::Item;

/// One act. The word is the one that it found, or for `Close` the one that it stored. Column 0 is
/// presence, and column `c + 1` is the table's column `c`.
#[derive(Clone, Copy, Debug, PartialEq, Eq)]
pub enum Act {
    FirstLoad { rec: u32, word: u64 },
    ColumnLoad { rec: u32, column: u32, value: u64 },
    Confirm { rec: u32, word: u64 },
    Lock { rec: u32, word: u64 },
    Draw { seq: u64 },
    Validate { rec: u32, word: u64 },
    ColumnStore { rec: u32, column: u32, value: u64 },
    Close { rec: u32, word: u64 },
    /// At rest with no request left.
    Rest,
}

/// What one step of a worker came to.
#[derive(Debug, Drop)]
pub struct Moved {
    pub act: Act,
    /// The refusal of the attempt, if the act was one.
    pub refused: Option<Refusal>,
    /// The item of the attempt, if the step ended one that was decided.
    pub ended: Option<Item>,
}

impl Moved {
    /// An act that came to a refusal, or to none.
    pub fn by(act: Act, refused: Option<Refusal>) -> Moved
        ensures { result ≡ record { act = act; refused = refused; ended = None } }
    {
        Moved {
            act,
            refused,
            ended: None,
        }
    }
}
