//! Families of items for tests and benches.

ghost use Rattle.std.specs.Prelude.{◌≡◌, ℕ, ◌+◌, ◌*◌, ◌^◌, ◌<◌, ◌≤◌, All, length, sum_by, IfOk};
ghost use Rattle.rl_value.specs.Fits.{RowsFit};
ghost use Rattle.rl_value.specs.Tables.{columns_of, size_of};
ghost use Rattle.rl_txn.specs.Fits.{WriteFits};
ghost use Rattle.rl_replay.specs.Replay.{AreDistinct};
ghost use Rattle.rl_shared_replay.specs.Replayable.{IsReplayable};
ghost use Rattle.rl_shared_replay.specs.Start.{all_items};
ghost use Rattle.rl_threads_tests.specs.Numbered.{IsNumbered};

use rl_base::list::Seq;
use rl_base::memory::Memory;
use rl_base::stamp::Stamp;
use rl_shared_replay::parts::Parts;
use rl_txn::item::{Item, Items};
use rl_txn::write::{End, Reply, Write};
use rl_value::map::Map;
use rl_value::row::Row;
use rl_value::schema::{DeclareError, Schema};
use std::alloc::Global;

/// What an item does: in an epoch from 1 to 1000 it writes a row to a key of the first table, or
/// deletes it. Numbers past the range are taken modulo it.
#[derive(Clone, Copy)]
pub struct Step {
    pub epoch: u32,
    pub key: u32,
    pub value: Option<u64>,
}

/// A schema of one table `a`.
pub fn one_table(alloc: Global, size: u32, columns: u32) -> Result<Schema, DeclareError>
    requires size { (1 ≤ size) × (size ≤ 65536) }
    requires columns { (1 ≤ columns) × (columns ≤ 4) }
    ensures { IfOk result (λ schema. (0 < length schema) × (size_of schema 0 ≡ size)) }
{
    let mut schema = Schema::new(alloc);
    schema.declare(alloc, "a", size, columns)?;
    Ok(schema)
}

/// Opening rows for some keys of the first table.
pub fn opening_rows(alloc: Global, schema: &Schema, rows: &[(u32, u64)]) -> Result<Map, Memory>
    requires { 0 < length schema.now }
    ensures { IfOk result (λ map. RowsFit schema.now map) }
{
    let mut map = Map::new(alloc);
    for &(key, value) in rows {
        map.put(0, key % schema.size(0), row_of(schema, value))?;
    }
    Ok(map)
}

/// A row of the first table: the value in each column.
fn row_of(schema: &Schema, value: u64) -> Row
    requires { 0 < length schema.now }
    ensures { length result ≡ columns_of schema.now 0 }
{
    let cells = [value; 4];
    Row::from_slice(&cells[..schema.columns(0) as usize])
}

/// The parts of some plans, one for each. The seqs of all items rise by one from 2, part by part.
pub fn parts_of(alloc: Global, schema: &Schema, plans: &[Vec<Step>]) -> Result<Parts, Memory>
    requires schema { 0 < length schema.now }
    requires few { sum_by (λ plan. length plan.items) plans.now ≤ 2 ^ 30 }
    ensures items { IfOk result (λ parts. All (All (IsReplayable schema.now)) parts) }
    ensures stamps { IfOk result (λ parts. AreDistinct (all_items parts)) }
{
    let mut parts = Parts::new(alloc);
    let mut seq = 2;
    for plan in plans {
        let items = items_of(alloc, schema, plan.as_slice(), seq)?;
        parts.push(items)?;
        seq += plan.len() as u64;
    }
    Ok(parts)
}

/// The items of a plan, whose seqs rise by one from the first.
fn items_of(alloc: Global, schema: &Schema, plan: &[Step], first: u64) -> Result<Items, Memory>
    requires schema { 0 < length schema.now }
    requires seqs { first + length plan.now ≤ 2 ^ 40 }
    ensures items { IfOk result (λ items. All (IsReplayable schema.now) items) }
    ensures seqs { IfOk result (λ items. IsNumbered first items) }
    ensures many { IfOk result (λ items. length items ≡ length plan.now) }
{
    let mut items = Items::new(alloc);
    for k in 0..plan.len() {
        items.push(item_of(alloc, schema, plan[k], first + k as u64)?)?;
    }
    Ok(items)
}

/// The item of a step.
fn item_of(alloc: Global, schema: &Schema, step: Step, seq: u64) -> Result<Item, Memory>
    requires schema { 0 < length schema.now }
    requires seq { seq < 2 ^ 40 }
    ensures replayable { IfOk result (λ item. IsReplayable schema.now item) }
    ensures seq { IfOk result (λ item. item.stamp.seq ≡ seq) }
{
    let write = write_of(schema, step);
    let mut writes = Seq::new(alloc);
    writes.push(write)?;
    Ok(Item {
        stamp: Stamp {
            epoch: 1 + step.epoch.wrapping_sub(1) % 1000,
            seq,
        },
        worker: 1,
        index: 1,
        reply: Reply {
            outs: Seq::new(alloc),
            end: End::Done,
        },
        writes,
    })
}

/// The write of a step.
fn write_of(schema: &Schema, step: Step) -> Write
    requires { 0 < length schema.now }
    ensures { WriteFits schema.now result }
{
    Write {
        table: 0,
        key: step.key % schema.size(0),
        row: step.value.map(|value| row_of(schema, value)),
    }
}

/// Plans of a seed: so many steps in all, dealt to the plans one after another. Every eighth
/// deletes.
pub fn random_plans(
    alloc: Global,
    seed: u64,
    count: u32,
    steps: u32,
) -> Result<Vec<Vec<Step>>, Memory>
    requires { (1 ≤ count) × (count ≤ 16) × (steps ≤ 2 ^ 20) }
    ensures { IfOk result (λ plans. sum_by (λ plan. length plan.items) plans.items ≤ 2 ^ 30) }
{
    let mut plans = Vec::with_capacity(alloc, count as usize)?;
    for p in 0..count {
        plans.push(random_plan(alloc, seed, p, count, steps)?)?;
    }
    Ok(plans)
}

/// The steps of a seed whose number has this remainder.
fn random_plan(
    alloc: Global,
    seed: u64,
    rest: u32,
    count: u32,
    steps: u32,
) -> Result<Vec<Step>, Memory>
    requires { (1 ≤ count) × (steps ≤ 2 ^ 20) }
    ensures { IfOk result (λ plan. length plan.items ≤ steps) }
{
    let mut plan = Vec::new(alloc);
    let mut state = seed;
    for k in 0..steps {
        state = next(state);
        let high = state >> 32;
        let value = if k % 8 == 7 { None } else { Some(state) };
        if k % count == rest {
            plan.push(Step {
                epoch: (high % 1000) as u32 + 1,
                key: (high / 1000) as u32,
                value,
            })?;
        }
    }
    Ok(plan)
}

/// The next number of a linear congruential generator.
fn next(state: u64) -> u64 {
    state
        .wrapping_mul(6_364_136_223_846_793_005)
        .wrapping_add(1_442_695_040_888_963_407)
}
