//! Items that wait for their release.

ghost use Rattle.std.specs.Prelude.{◌≡◌, ◌≤◌, [], ◌∷◌, ◌++◌, OnOk, OnErr, IfErr, IfSome, IfNone, IsSome, IsNone, IsTrue, Some, slice_get, ◌↔◌};
ghost use Rattle.rl_base.specs.Stamps.{packed};
ghost use Rattle.rl_release.specs.Due.{IsDue};

use rl_base::memory::Memory;
use rl_base::stamp::Stamp;
use rl_txn::item::Item;
use std::alloc::Global;
use std::collections::VecDeque;
use std::marker::Model;

/// Items in the order of their pushes. Contracts see the list of them.
#[derive(Debug, Drop)]
pub struct Queue {
    items: VecDeque<Item>,
}

impl Model for Queue {
    ghost use Rattle.std.specs.Prelude.{List};
    ghost use Rattle.rl_txn.specs.declared.item.Item.{Item};

    ghost Value = { List Item };

    ghost view = { λ q. q.items.items };
}

impl Queue {
    /// An empty queue.
    pub fn new(alloc: Global) -> Queue
        ensures { result ≡ [] }
    {
        Queue {
            items: VecDeque::new(alloc),
        }
    }

    /// The front item, lent, or `None` where the queue is empty.
    pub fn front(&self) -> Option<&Item>
        ensures item { IfSome result (λ item. slice_get self.now 0 ≡ Some item.now) }
        ensures empty { IsNone result ↔ (self.now ≡ []) }
    {
        self.items.front()
    }

    /// Puts an item at the back. After `Memory` the queue is unchanged, and the item comes back.
    pub fn push(&mut self, item: Item) -> Result<(), (Item, Memory)>
        ensures ok { OnOk result (self.new ≡ self.old ++ item ∷ []) }
        ensures handed_back { IfErr result (λ e. e.0 ≡ item) }
        ensures unchanged { OnErr result (self.new ≡ self.old) }
    {
        match self.items.push_back(item) {
            Ok(()) => Ok(()),
            Err(failed) => Err((failed.value, Memory)),
        }
    }

    /// Takes the front item out, where its packed stamp is at most `upto`, and answers `None`
    /// exactly where the queue is empty or the front's stamp is above it.
    pub fn release(&mut self, upto: u64) -> Option<Item>
        ensures front { IfSome result (λ item. self.old ≡ item ∷ self.new) }
        ensures low { IfSome result (λ item. packed item.stamp ≤ upto) }
        ensures due { IsSome result ↔ IsDue upto self.old }
        ensures unchanged { IfNone result (self.new ≡ self.old) }
    {
        let item = self.items.front()?;
        if !is_up_to(item.stamp, upto) {
            return None;
        }
        self.items.pop_front()
    }
}

/// Whether a stamp, packed, is at most a number.
fn is_up_to(stamp: Stamp, upto: u64) -> bool
    ensures { IsTrue result ↔ (packed stamp ≤ upto) }
{
    u128::from(stamp.epoch) * (1 << 40) + u128::from(stamp.seq) <= u128::from(upto)
}
