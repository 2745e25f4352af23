//! The first and the last stamp of a batch.

ghost use Rattle.std.specs.Prelude.{◌≡◌, map};
ghost use Rattle.rl_families.specs.Logs.{stamps_in_batch, first_stamp, last_stamp};

use rl_base::stamp::Stamp;
use rl_txn::batch::Batch;
use rl_txn::item::Item;

/// The last stamp of a batch.
pub fn last_of(batch: &Batch) -> Option<Stamp>
    ensures { result ≡ last_stamp (stamps_in_batch batch.now) }
{
    match batch {
        Batch::Items(items) => last_of_items(items.as_slice()),
        Batch::Idle(stamp) => Some(*stamp),
        Batch::Opened(stamp) => Some(*stamp),
    }
}

fn last_of_items(items: &[Item]) -> Option<Stamp>
    ensures { result ≡ last_stamp (map (λ item. item.stamp) items.now) }
{
    items.last().map(|item| item.stamp)
}

/// The first stamp of a batch.
pub fn first_of(batch: &Batch) -> Option<Stamp>
    ensures { result ≡ first_stamp (stamps_in_batch batch.now) }
{
    match batch {
        Batch::Items(items) => first_of_items(items.as_slice()),
        Batch::Idle(stamp) => Some(*stamp),
        Batch::Opened(stamp) => Some(*stamp),
    }
}

fn first_of_items(items: &[Item]) -> Option<Stamp>
    ensures { result ≡ first_stamp (map (λ item. item.stamp) items.now) }
{
    items.first().map(|item| item.stamp)
}
