//! The requests of a report's items, run again.

ghost use Rattle.std.specs.Prelude.{◌≡◌, ◌≢◌, ◌+◌, ◌-◌, ◌<◌, ◌≤◌, ◌^◌, ◌++◌, ◌∷◌, [], ℕ, List, IfOk, IfSome, IfNone, OnOk, length, slice_set};
ghost use Rattle.std.specs.Bool.{OnTrue, OnFalse};
ghost use Rattle.rl_base.specs.Stamps.{packed};
ghost use Rattle.rl_value.specs.Rows.{Rows};
ghost use Rattle.rl_txn.specs.Serial.{after_writes, IsInLists, IsWhole};
ghost use Rattle.rl_txn.specs.declared.item.Item.{Item};
ghost use Rattle.rl_txn.specs.declared.op.Op.{Op};
ghost use Rattle.rl_script.specs.Fits.{ScriptFits};
ghost use Rattle.rl_check.specs.Counts.{CountsItems};
ghost use Rattle.rl_check.specs.Reruns.{HasRun, HasTaken, IsNextIn, with_rows};

use crate::stamps::may_follow;
use crate::verdict::Why;
use rl_base::memory::Memory;
use rl_base::stamp::pack;
use rl_report::line::ItemLine;
use rl_script::script::Script;
use rl_txn::item::{Item, apply};
use rl_txn::op::{Lists, Txn};
use rl_txn::run::run;
use rl_txn::write::Reply;
use rl_value::map::Map;
use std::alloc::Global;

/// The requests of the items so far, run again in their order.
#[derive(Drop)]
pub struct Rerun {
    /// The rows after them.
    pub rows: Map,
    /// The last stamp as a number, or 0 where there is no item.
    pub last: u64,
    /// How many items each list has.
    pub counts: Vec<u32>,
}

impl Rerun {
    /// No request was run on these opening rows.
    pub fn begin(alloc: Global, script: &Script, rows: Map) -> Result<Rerun, Memory>
        ensures { IfOk result (λ rerun. HasRun (with_rows script.now rows) [] rerun) }
    {
        Ok(Rerun {
            rows,
            last: 0,
            counts: vec![in alloc; 0; script.lists.len()]?,
        })
    }

    /// Runs the request of one more item again, or answers why its line is wrong. The opening rows are
    /// those that it began with.
    pub fn take(
        &mut self,
        alloc: Global,
        script: &Script,
        line: &ItemLine,
    ) -> Result<Option<Why>, Memory>
        requires fits { (opening : Rows) × ScriptFits (with_rows script.now opening) }
        requires ran { (opening : Rows) × (items : List Item) × HasRun (with_rows script.now opening) items self.old }
        ensures { (opening : Rows) (items : List Item) → HasRun (with_rows script.now opening) items self.old
            → IfOk result (λ wrong. HasTaken (with_rows script.now opening) items line.now self.new wrong) }
    {
        if !may_follow(&script.stops, self.last, line.stamp) {
            return Ok(Some(Why::Stamp));
        }
        let Some(txn) = next_request(&script.lists, self.counts.as_slice(), line) else {
            return Ok(Some(Why::Request));
        };
        let (reply, writes) = run(alloc, &script.schema, txn, &self.rows)?;
        if !is_same_reply(&reply, &line.reply) {
            return Ok(Some(Why::Reply));
        }
        let item = Item {
            stamp: line.stamp,
            worker: line.worker,
            index: line.index,
            reply,
            writes,
        };
        self.join(&item)?;
        Ok(None)
    }

    /// An item joins those that were run again.
    fn join(&mut self, item: &Item) -> Result<(), Memory>
        requires epoch { item.now.stamp.epoch < 2 ^ 20 }
        requires seq { item.now.stamp.seq < 2 ^ 40 }
        requires some_worker { 1 ≤ item.now.worker }
        requires few_workers { item.now.worker ≤ length self.old.counts.items }
        ensures rows { OnOk result (self.new.rows ≡ after_writes self.old.rows item.now.writes) }
        ensures last { OnOk result (self.new.last ≡ packed item.now.stamp) }
        ensures counts { OnOk result (self.new.counts.items
            ≡ slice_set self.old.counts.items (item.now.worker - 1) item.now.index) }
    {
        apply(&mut self.rows, item)?;
        self.last = pack(item.stamp);
        self.counts[item.worker as usize - 1] = item.index;
        Ok(())
    }
}

/// The next request of the list of an item's line, if the line is of it.
fn next_request<'a>(lists: &'a Lists, counts: &[u32], line: &ItemLine) -> Option<&'a Txn>
    requires { length counts.now ≡ length lists.now }
    ensures some { IfSome result (λ txn. IsNextIn lists.now counts.now line.now txn.now) }
    ensures none { IfNone result ((txn : List Op) → IsNextIn lists.now counts.now line.now txn → ⊥) }
{
    let worker = (line.worker as usize).checked_sub(1)?;
    if worker >= lists.len() {
        return None;
    }
    let list = lists.get(worker);
    let done = counts[worker] as usize;
    if line.index as usize != done + 1 {
        return None;
    }
    if done >= list.len() {
        return None;
    }
    Some(list.get(done))
}

/// Whether two replies are the same.
fn is_same_reply(reply: &Reply, other: &Reply) -> bool
    ensures yes { OnTrue result (reply.now ≡ other.now) }
    ensures no { OnFalse result (reply.now ≢ other.now) }
{
    reply.end == other.end && reply.outs.as_slice() == other.outs.as_slice()
}

/// Whether each list has as many items as requests.
pub fn are_whole(lists: &Lists, counts: &[u32]) -> bool
    requires { length counts.now ≡ length lists.now }
    ensures yes { (items : List Item) → IsInLists items → CountsItems (length lists.now) items counts.now
        → OnTrue result (IsWhole lists.now items) }
    ensures no { (items : List Item) → CountsItems (length lists.now) items counts.now
        → OnFalse result (IsWhole lists.now items → ⊥) }
{
    for worker in 0..lists.len() {
        if lists.get(worker).len() != counts[worker] as usize {
            return false;
        }
    }
    true
}
