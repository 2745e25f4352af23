//! What is replayed.

use rl_base::list::Seq;
use rl_txn::item::Items;

/// The items of each stream.
pub type Parts = Seq<Items>;
