//! All requests, one after another.

ghost use Rattle.std.specs.Prelude.{◌≡◌, ◌+◌, ◌<◌, ◌^◌, ◌∷◌, [], ◌++◌, Some, IfOk, OnOk};
ghost use Rattle.rl_txn.specs.Fits.{TxnFits, ListsFit};
ghost use Rattle.rl_txn.specs.Run.{run};
ghost use Rattle.rl_txn.specs.Serial.{after_writes, rows_after, IsListByList};

use crate::item::{Item, Items, apply};
use crate::op::{Lists, Txn};
use crate::run::run;
use rl_base::memory::Memory;
use rl_base::stamp::Stamp;
use rl_value::map::Map;
use rl_value::schema::Schema;
use std::alloc::Global;

/// Runs the requests of all lists one after another: list 1, then list 2 and so on, with the
/// stamps (1, 2), (1, 3) and so on. Answers the items, and the rows after them; at `Memory` the rows
/// are gone.
pub fn run_serially(
    alloc: Global,
    schema: &Schema,
    lists: &Lists,
    mut m: Map,
) -> Result<(Items, Map), Memory>
    requires { ListsFit schema.now lists.now }
    ensures items { IfOk result (λ ran. IsListByList schema.now lists.now m ran.0) }
    ensures rows { IfOk result (λ ran. ran.1 ≡ rows_after m ran.0) }
{
    let mut items = Items::new(alloc);
    let mut worker = 0;
    for list in lists.as_slice() {
        worker += 1;
        let mut index = 0;
        for txn in list.as_slice() {
            index += 1;
            let stamp = Stamp {
                epoch: 1,
                seq: items.len() as u64 + 2,
            };
            items.push(run_one(alloc, schema, stamp, worker, index, txn, &mut m)?)?;
        }
    }
    Ok((items, m))
}

/// Runs one request, and makes its writes.
fn run_one(
    alloc: Global,
    schema: &Schema,
    stamp: Stamp,
    worker: u32,
    index: u32,
    txn: &Txn,
    m: &mut Map,
) -> Result<Item, Memory>
    requires { TxnFits schema.now txn.now }
    ensures request { IfOk result
        (λ item. (item.stamp ≡ stamp) × (item.worker ≡ worker) × (item.index ≡ index)) }
    ensures run { IfOk result (λ item. run schema.now txn.now m.old ≡ (item.reply, item.writes)) }
    ensures rows { IfOk result (λ item. m.new ≡ after_writes m.old item.writes) }
{
    let (reply, writes) = run(alloc, schema, txn, m)?;
    let item = Item {
        stamp,
        worker,
        index,
        reply,
        writes,
    };
    apply(m, &item)?;
    Ok(item)
}
