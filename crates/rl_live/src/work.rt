//! What a worker's thread does.

ghost use Rattle.std.specs.Prelude.{◌≡◌, ◌≤◌, List, length, Some, IfOk};
ghost use Rattle.rl_base.specs.declared.limit.TheConstants.{REQUESTS};
ghost use Rattle.rl_tables.specs.Numbers.{sizes_of};
ghost use Rattle.rl_txn.specs.Fits.{TxnFits};
ghost use Rattle.rl_txn.specs.Serial.{request};
ghost use Rattle.rl_txn.specs.declared.op.Op.{Op};
ghost use Rattle.rl_occ.specs.Fits.{IsStoreOf};
ghost use Rattle.rl_store.specs.Views.{IsAtRest};
ghost use Rattle.rl_live.specs.Turns.{HasItem};
ghost use Rattle.rl_live.specs.Workers.{IsSetUp, HasDone};

use crate::attempt::decide;
use crate::gate::Gate;
use crate::line::Line;
use crate::worker::{Done, Worker};
use rl_base::list::Seq;
use rl_base::memory::Memory;
use rl_base::stamp::Stamp;
use rl_occ::outcome::Decided;
use rl_progress::progress::Progress;
use rl_release::queue::Queue;
use rl_store::pass::Pass;
use rl_store::store::Store;
use rl_tables::layout::Layout;
use rl_txn::batch::Batch;
use rl_txn::item::{Item, Items};
use rl_txn::op::{Lists, Txn};
use rl_value::schema::Schema;
use std::alloc::Global;
use std::mem;
use std::sync::Wait;

/// Does one request of a worker: attempts until one is decided, whose item it answers.
fn item_of<R: Wait, G: Gate>(
    rt: &R,
    alloc: Global,
    gate: &G,
    store: &Store,
    layout: &Layout,
    schema: &Schema,
    number: u32,
    index: u32,
    txn: &Txn,
    pass: Pass,
) -> Result<(Pass, Item), Memory>
    requires layout { layout.now ≡ sizes_of schema.now }
    requires store { IsStoreOf store.now.made schema.now }
    requires fits { TxnFits schema.now txn.now }
    requires table { pass.table ≡ store.now.table }
    requires rest { IsAtRest pass.view }
    ensures table { IfOk result (λ after. after.0.table ≡ store.now.table) }
    ensures item { IfOk result (λ after. (lists : List (List (List Op))) → request lists number index ≡ Some txn.now
        → HasItem schema.now lists store.now.made.epoch number index pass.view after.0.view after.1) }
{
    let (pass, decided) = decide(rt, alloc, gate, store, layout, schema, number, txn, pass)?;
    let Decided {
        stamp,
        reply,
        writes,
    } = decided;
    let item = Item {
        stamp,
        worker: number,
        index,
        reply,
        writes,
    };
    Ok((pass, item))
}

/// Does all requests of a worker's list, and sends each item to all nodes.
pub(crate) fn work<R: Wait, G: Gate>(
    rt: &R,
    alloc: Global,
    gate: &G,
    store: &Store,
    layout: &Layout,
    schema: &Schema,
    progress: &Progress,
    worker: Worker,
) -> Result<Done, Memory>
    requires layout { layout.now ≡ sizes_of schema.now }
    requires set_up { IsSetUp schema.now store.now progress.now worker }
    ensures { IfOk result (HasDone schema.now store.now worker.entry) }
{
    let Worker {
        number,
        lists,
        batch,
        mut pass,
        stream,
        acceptors,
        seat,
        link,
    } = worker;
    let epoch = store.epoch();
    let list = lists.get(number as usize - 1);
    let mut line = Line::new(alloc, number, stream, acceptors, seat, link);
    let mut pending = Items::new(alloc);
    for k in 0..list.len() {
        let (after, item) = item_of(
            rt,
            alloc,
            gate,
            store,
            layout,
            schema,
            number,
            k as u32 + 1,
            list.get(k),
            pass,
        )?;
        pass = after;
        pending.push(item)?;
        if pending.len() == batch as usize || k + 1 == list.len() {
            let items = mem::replace(&mut pending, Items::new(alloc));
            line.send_items(rt, alloc, gate, progress, items)?;
        }
    }
    line.finish(rt, alloc, gate, progress, epoch)?;
    Ok(Done {
        pass,
        acceptors: line.into_acceptors(),
    })
}
