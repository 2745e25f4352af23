//! The items that count now.

ghost use Rattle.std.specs.Prelude.{◌≡◌, ℕ, [], ◌++◌, IfOk, OnOk, OnErr, not, length, filter, slice_index, slice_index_or, false, true};
ghost use Rattle.std.specs.List.{flat_map};
ghost use Rattle.std.specs.Option.{option_map_or};
ghost use Rattle.rl_families.specs.Logs.{stamps_in_batch, items_in_batch, stamps_along, items_along, IsRising, first_stamp, last_stamp};
ghost use Rattle.rl_families.specs.Families.{AllRise};
ghost use Rattle.rl_families.specs.Order.{in_order};
ghost use Rattle.rl_families.specs.Laws.{is_up_to_watermark};
ghost use Rattle.rl_base.specs.Lists.{IsPrefix};
ghost use Rattle.rl_cut.specs.Kept.{AreByEpoch, AreUpTo, AreSettled, counts_now, mark_of, HasGrown, Keeps};

use crate::bounds::settle;
use crate::lasts::{Lasts, last_seq, mark_of};
use crate::stamps::{first_of, last_of};
use rl_base::memory::Memory;
use rl_base::stamp::Stamp;
use rl_txn::batch::{Batch, Batches};
use rl_txn::item::{Item, Items};
use std::alloc::Global;
use std::mem;

/// Two watermarks, one after the other.
#[derive(Clone, Copy)]
pub struct Marks {
    pub before: (u32, u64),
    pub now: (u32, u64),
}

/// Counts what counts now that the logs have grown: nothing where the watermark is the same. After
/// `Memory` nothing has changed, but that bounds may stand behind those that were settled.
pub fn count(
    alloc: Global,
    logs: &[Batches],
    reached: &[Lasts],
    settled: &mut Vec<Stamp>,
    counted: &mut Vec<usize>,
    mark: &mut (u32, u64),
    history: &mut Items,
) -> Result<(), Memory>
    requires { HasGrown logs.now reached.now settled.old.items counted.old.items mark.old history.old }
    ensures kept { OnOk result (Keeps logs.now reached.now settled.new.items counted.new.items mark.new history.new) }
    ensures settled { IsPrefix settled.old.items settled.new.items }
    ensures counted { OnErr result (counted.new.items ≡ counted.old.items) }
    ensures mark { OnErr result (mark.new ≡ mark.old) }
    ensures history { OnErr result (history.new ≡ history.old) }
{
    let now = mark_of(reached);
    if now == *mark {
        return Ok(());
    }
    let marks = Marks { before: *mark, now };
    settle(reached, marks.before.0, now.0, settled)?;
    let due = in_order_due(alloc, logs, settled, counted, marks)?;
    append_items(alloc, history, due)?;
    advance(logs, counted, now);
    *mark = now;
    Ok(())
}

/// The items that count now, in order.
fn in_order_due(
    alloc: Global,
    logs: &[Batches],
    settled: &[Stamp],
    counted: &[usize],
    marks: Marks,
) -> Result<Vec<Item>, Memory>
    requires settled { AreByEpoch settled.now }
    requires rising { AllRise logs.now }
    requires places { length counted.now ≡ length logs.now }
    requires counted { (i : ℕ) → AreUpTo marks.before (slice_index_or logs.now i []) (slice_index counted.now i) }
    ensures { IfOk result (λ due. due.items
        ≡ in_order (filter (λ x. counts_now marks.before marks.now settled.now x.stamp) (flat_map items_along logs.now))) }
{
    let mut due = due(alloc, logs, settled, counted, marks)?;
    due.sort_by_key(|item| (item.stamp.epoch, item.stamp.seq))?;
    Ok(due)
}

/// The items that count now, stream by stream.
fn due(
    alloc: Global,
    logs: &[Batches],
    settled: &[Stamp],
    counted: &[usize],
    marks: Marks,
) -> Result<Vec<Item>, Memory>
    requires settled { AreByEpoch settled.now }
    requires rising { AllRise logs.now }
    requires places { length counted.now ≡ length logs.now }
    requires counted { (i : ℕ) → AreUpTo marks.before (slice_index_or logs.now i []) (slice_index counted.now i) }
    ensures { IfOk result (λ due. due.items
        ≡ filter (λ x. counts_now marks.before marks.now settled.now x.stamp) (flat_map items_along logs.now)) }
{
    let mut due = Vec::new(alloc);
    for (i, log) in logs.iter().enumerate() {
        push_waiting(alloc, log, counted[i], settled, marks, &mut due)?;
    }
    Ok(due)
}

/// The items of a log behind its first batches, which are up to the watermark before.
fn push_waiting(
    alloc: Global,
    log: &Batches,
    counted: usize,
    settled: &[Stamp],
    marks: Marks,
    due: &mut Vec<Item>,
) -> Result<(), Memory>
    requires settled { AreByEpoch settled.now }
    requires rising { IsRising (stamps_along log.now) }
    requires counted { AreUpTo marks.before log.now counted }
    ensures { OnOk result (due.new.items ≡ due.old.items
        ++ filter (λ x. counts_now marks.before marks.now settled.now x.stamp) (items_along log.now)) }
{
    push_log(alloc, &log.as_slice()[counted..], settled, marks, due)
}

fn push_log(
    alloc: Global,
    log: &[Batch],
    settled: &[Stamp],
    marks: Marks,
    due: &mut Vec<Item>,
) -> Result<(), Memory>
    requires settled { AreByEpoch settled.now }
    requires rising { IsRising (stamps_along log.now) }
    ensures { OnOk result (due.new.items ≡ due.old.items
        ++ filter (λ x. counts_now marks.before marks.now settled.now x.stamp) (items_along log.now)) }
{
    for batch in log {
        if begins_above(batch, marks.now) {
            return Ok(());
        }
        push_batch(alloc, batch, settled, marks, due)?;
    }
    Ok(())
}

fn push_batch(
    alloc: Global,
    batch: &Batch,
    settled: &[Stamp],
    marks: Marks,
    due: &mut Vec<Item>,
) -> Result<(), Memory>
    requires { AreByEpoch settled.now }
    ensures { OnOk result (due.new.items ≡ due.old.items
        ++ filter (λ x. counts_now marks.before marks.now settled.now x.stamp) (items_in_batch batch.now)) }
{
    match batch {
        Batch::Items(items) => push_items(alloc, items.as_slice(), settled, marks, due),
        Batch::Idle(_) => Ok(()),
        Batch::Opened(_) => Ok(()),
    }
}

fn push_items(
    alloc: Global,
    items: &[Item],
    settled: &[Stamp],
    marks: Marks,
    due: &mut Vec<Item>,
) -> Result<(), Memory>
    requires { AreByEpoch settled.now }
    ensures { OnOk result (due.new.items ≡ due.old.items
        ++ filter (λ x. counts_now marks.before marks.now settled.now x.stamp) items.now) }
{
    for item in items {
        if counts_now(settled, marks, item.stamp) {
            due.push(item.copy(alloc)?)?;
        }
    }
    Ok(())
}

/// Whether an item of this stamp counts now, and did not before.
fn counts_now(settled: &[Stamp], marks: Marks, stamp: Stamp) -> bool
    requires { AreByEpoch settled.now }
    ensures { result ≡ counts_now marks.before marks.now settled.now stamp }
{
    if stamp.epoch == 0 || is_up_to(marks.before, stamp) || !is_up_to(marks.now, stamp) {
        return false;
    }
    stamp.epoch == marks.now.0 || stamp.seq <= last_seq(settled, stamp.epoch)
}

/// Whether a stamp is at most a watermark.
fn is_up_to(mark: (u32, u64), stamp: Stamp) -> bool
    ensures { result ≡ is_up_to_watermark mark stamp }
{
    stamp.epoch < mark.0 || stamp.epoch == mark.0 && stamp.seq <= mark.1
}

/// Whether the first stamp of a batch is above a watermark.
fn begins_above(batch: &Batch, mark: (u32, u64)) -> bool
    ensures { result ≡ option_map_or (λ s. not (is_up_to_watermark mark s)) (first_stamp (stamps_in_batch batch.now)) false }
{
    match first_of(batch) {
        Some(first) => !is_up_to(mark, first),
        None => false,
    }
}

/// Whether the last stamp of a batch is at most a watermark.
fn ends_up_to(batch: &Batch, mark: (u32, u64)) -> bool
    ensures { result ≡ option_map_or (λ s. is_up_to_watermark mark s) (last_stamp (stamps_in_batch batch.now)) true }
{
    match last_of(batch) {
        Some(last) => is_up_to(mark, last),
        None => true,
    }
}

/// Appends items to a history. After `Memory` the history is unchanged.
fn append_items(alloc: Global, history: &mut Items, items: Vec<Item>) -> Result<(), Memory>
    ensures ok { OnOk result (history.new ≡ history.old ++ items.items) }
    ensures err { OnErr result (history.new ≡ history.old) }
{
    let mut items = items;
    let mut all = mem::replace(history, Items::new(alloc)).into_vec();
    let appended = all.append(&mut items);
    *history = Items::from_vec(all);
    appended?;
    Ok(())
}

/// Goes on in each log to its first batch that is not wholly up to a watermark.
fn advance(logs: &[Batches], counted: &mut Vec<usize>, mark: (u32, u64))
    requires rising { AllRise logs.now }
    requires places { length counted.old.items ≡ length logs.now }
    requires counted { (i : ℕ) → AreUpTo mark (slice_index_or logs.now i []) (slice_index counted.old.items i) }
    ensures places { length counted.new.items ≡ length counted.old.items }
    ensures counted { (i : ℕ) → AreUpTo mark (slice_index_or logs.now i []) (slice_index counted.new.items i) }
{
    for (i, log) in logs.iter().enumerate() {
        counted[i] = advanced(log, counted[i], mark);
    }
}

/// The count of the first batches of a log that are wholly up to a watermark, from a lower count on.
fn advanced(log: &Batches, counted: usize, mark: (u32, u64)) -> usize
    requires rising { IsRising (stamps_along log.now) }
    requires counted { AreUpTo mark log.now counted }
    ensures { AreUpTo mark log.now result }
{
    let mut count = counted;
    for batch in &log.as_slice()[counted..] {
        if !ends_up_to(batch, mark) {
            break;
        }
        count += 1;
    }
    count
}
