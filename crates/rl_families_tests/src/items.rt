//! Items for tests.

ghost use Rattle.std.specs.Prelude.{◌≡◌};

use rl_base::list::Seq;
use rl_base::stamp::Stamp;
use rl_txn::item::Item;
use rl_txn::write::{End, Reply, Writes};
use std::alloc::Global;

/// An item of the first worker.
pub fn item(alloc: Global, stamp: Stamp, writes: Writes) -> Item
    ensures { result.stamp ≡ stamp }
{
    Item {
        stamp,
        worker: 1,
        index: 1,
        reply: Reply {
            outs: Seq::new(alloc),
            end: End::Done,
        },
        writes,
    }
}
