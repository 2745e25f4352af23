//! What may be wrong with a log that a message carries.

ghost use Rattle.std.specs.Prelude.{◌≡◌, ◌||◌, ℕ, List, [], ◌∷◌, true, None, not, map, IfOk};
ghost use Rattle.std.specs.Option.{option_map_or};
ghost use Rattle.rl_base.specs.Order.{is_below};
ghost use Rattle.rl_nodes.specs.Batches.{batch_of};
ghost use Rattle.std.specs.List.{list_all, list_any};
ghost use Rattle.rl_families.specs.Logs.{stamps_in_batch};
ghost use Rattle.rl_nodes.specs.BadMessages.{is_wrong, write_fits};
ghost use Rattle.rl_node.specs.Wrong.{is_chain, last_from, is_other, is_later, is_misfit, is_wrong_batch, is_wrong_behind};

use crate::reading::batch_of;
use rl_base::list::Bytes;
use rl_base::memory::Memory;
use rl_base::stamp::{Stamp, is_below};
use rl_txn::batch::Batch;
use rl_txn::item::Item;
use rl_txn::write::Write;
use rl_value::schema::Schema;
use std::alloc::Global;

/// Where a log stands: its stream, and the greatest epoch that its batches may have.
#[derive(Clone, Copy)]
pub struct Place {
    pub stream: u32,
    pub epoch: u32,
}

/// Whether something is wrong with a log: some bytes are no batch, or a batch is another worker's, of a later epoch, out
/// of order, or does not fit the tables.
pub fn is_wrong(alloc: Global, schema: &Schema, place: Place, log: &[Bytes]) -> Result<bool, Memory>
    ensures { IfOk result (λ wrong. wrong
        ≡ is_wrong schema.now (record { stream = place.stream; epoch = place.epoch; log = log.now })) }
{
    is_wrong_behind(alloc, schema, place, log)
}

fn is_wrong_behind(
    alloc: Global,
    schema: &Schema,
    place: Place,
    log: &[Bytes],
) -> Result<bool, Memory>
    ensures { IfOk result (λ wrong. wrong ≡ is_wrong_behind schema.now place.stream place.epoch None log.now) }
{
    let mut last = None;
    for bytes in log {
        let Some(batch) = batch_of(alloc, bytes)? else {
            return Ok(true);
        };
        if is_wrong_batch(schema, place, last, &batch) {
            return Ok(true);
        }
        last = last_behind(last, &batch);
    }
    Ok(false)
}

/// Whether something is wrong with a log of one batch, or that is none.
pub fn is_wrong_alone(schema: &Schema, place: Place, batch: &Option<Batch>) -> bool
    ensures { (bytes : List ℕ) → batch.now ≡ batch_of bytes → result
        ≡ is_wrong schema.now (record { stream = place.stream; epoch = place.epoch; log = bytes ∷ [] }) }
{
    match batch {
        Some(batch) => is_wrong_batch(schema, place, None, batch),
        None => true,
    }
}

/// Whether something is wrong with a batch behind a stamp.
fn is_wrong_batch(schema: &Schema, place: Place, last: Option<Stamp>, batch: &Batch) -> bool
    ensures { result ≡ is_wrong_batch schema.now place.stream place.epoch last batch.now }
{
    match batch {
        Batch::Items(items) => are_wrong_items(schema, place, last, items.as_slice()),
        Batch::Idle(stamp) | Batch::Opened(stamp) => {
            place.epoch < stamp.epoch || !is_behind(last, *stamp)
        }
    }
}

fn are_wrong_items(schema: &Schema, place: Place, last: Option<Stamp>, items: &[Item]) -> bool
    ensures { result ≡ (list_any (is_other place.stream) items.now
        || list_any (is_later place.epoch) (map (λ x. x.stamp) items.now)
        || not (is_chain last (map (λ x. x.stamp) items.now))
        || list_any (is_misfit schema.now) items.now) }
{
    has_other(place.stream, items)
        || has_later(place.epoch, items)
        || !are_chain(last, items)
        || has_misfit(schema, items)
}

/// Whether an item is another worker's.
fn has_other(worker: u32, items: &[Item]) -> bool
    ensures { result ≡ list_any (is_other worker) items.now }
{
    items.iter().any(|x| x.worker != worker)
}

/// Whether an item is of a later epoch.
fn has_later(epoch: u32, items: &[Item]) -> bool
    ensures { result ≡ list_any (is_later epoch) (map (λ x. x.stamp) items.now) }
{
    items.iter().map(|x| x.stamp).any(|t| epoch < t.epoch)
}

/// Whether a write of an item does not fit the tables.
fn has_misfit(schema: &Schema, items: &[Item]) -> bool
    ensures { result ≡ list_any (is_misfit schema.now) items.now }
{
    items.iter().any(|x| is_misfit(schema, x))
}

/// Whether a stamp is above the last one, where there is one.
fn is_behind(last: Option<Stamp>, stamp: Stamp) -> bool
    ensures { result ≡ option_map_or (λ l. is_below l stamp) last true }
{
    match last {
        Some(last) => is_below(last, stamp),
        None => true,
    }
}

/// Whether the stamps of some items rise from the last one on.
fn are_chain(last: Option<Stamp>, items: &[Item]) -> bool
    ensures { result ≡ is_chain last (map (λ x. x.stamp) items.now) }
{
    let mut before = last;
    for item in items {
        if !is_behind(before, item.stamp) {
            return false;
        }
        before = Some(item.stamp);
    }
    true
}

/// Whether a write of this item does not fit the tables.
fn is_misfit(schema: &Schema, item: &Item) -> bool
    ensures { result ≡ is_misfit schema.now item.now }
{
    !are_fit(schema, item.writes.as_slice())
}

/// Whether all of some writes fit the tables.
fn are_fit(schema: &Schema, writes: &[Write]) -> bool
    ensures { result ≡ list_all (write_fits schema.now) writes.now }
{
    writes.iter().all(|write| is_fit(schema, write))
}

/// Whether a write is at a key that is there, with a row of its table's columns where it has one.
fn is_fit(schema: &Schema, write: &Write) -> bool
    ensures { result ≡ write_fits schema.now write.now }
{
    if schema.count() <= write.table || schema.size(write.table) <= write.key {
        return false;
    }
    match &write.row {
        Some(row) => row.columns() == schema.columns(write.table),
        None => true,
    }
}

/// The last stamp of a batch behind another.
pub fn last_behind(last: Option<Stamp>, batch: &Batch) -> Option<Stamp>
    ensures { result ≡ last_from last (stamps_in_batch batch.now) }
{
    match batch {
        Batch::Items(items) => last_of_items(last, items.as_slice()),
        Batch::Idle(stamp) | Batch::Opened(stamp) => Some(*stamp),
    }
}

fn last_of_items(last: Option<Stamp>, items: &[Item]) -> Option<Stamp>
    ensures { result ≡ last_from last (map (λ x. x.stamp) items.now) }
{
    let mut found = last;
    for item in items {
        found = Some(item.stamp);
    }
    found
}
