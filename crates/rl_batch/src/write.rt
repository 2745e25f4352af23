//! The bytes of writes.

ghost use Rattle.std.specs.Prelude.{◌≡◌, ◌<◌, ◌≤◌, ◌-◌, ◌++◌, length, All, IfOk, OnOk};
ghost use Rattle.rl_fields.specs.Answers.{IsRead, IsReadUnlessMemory};
ghost use Rattle.rl_fields.specs.Fields.{series};
ghost use Rattle.rl_batch.specs.Ranges.{WriteInRange, WriteHasWords};
ghost use Rattle.rl_batch.specs.Encoding.{write_bytes, writes_bytes};
ghost use Rattle.rl_batch.specs.Reading.{least_key, place_after, write, writes};

use crate::row::{columns_of_row, push_numbers, row_at};
use rl_base::flaw::Flaw;
use rl_base::limit::{OPS, RECORDS, TABLES};
use rl_base::list::{Bytes, Seq};
use rl_base::memory::Memory;
use rl_fields::fault::{Fault, ReadError};
use rl_fields::number::{u8_within, u32_within};
use rl_fields::writing::{push_u8, push_u32};
use rl_txn::write::{Write, Writes};
use std::alloc::Global;

/// The greatest number of a table.
const LAST_TABLE: u8 = (TABLES - 1) as u8;

/// A table and a key in it.
type Place = (u32, u32);

/// The writes of an item, at most so many, and the bytes after them.
#[tactic(auto, unfolding(crate::specs::Reading::writes))]
pub fn writes_at(alloc: Global, most: u8, bytes: &[u8]) -> Result<(Writes, &[u8]), ReadError>
    ensures { IsReadUnlessMemory (λ x. (x.0, x.1.now)) result (writes most bytes.now) }
{
    let (count, rest) = u8_within(0, most, bytes)?;
    series_at(alloc, count, rest)
}

/// So many writes, and the bytes after them.
fn series_at(alloc: Global, count: u8, bytes: &[u8]) -> Result<(Writes, &[u8]), ReadError>
    ensures { IsReadUnlessMemory (λ x. (x.0, x.1.now)) result
        (series write place_after count (0, 0) bytes.now) }
{
    let mut writes = Vec::with_capacity(alloc, usize::from(count))?;
    let mut least = (0, 0);
    let mut rest = bytes;
    for _write in 0..count {
        let (write, after) = write_at(least, rest)?;
        least = (write.table, write.key + 1);
        writes.push(write)?;
        rest = after;
    }
    Ok((Seq::from_vec(writes), rest))
}

/// A write at a place from the least on, and the bytes after it.
#[tactic(auto, unfolding(crate::specs::Reading::write, crate::specs::Reading::rising))]
fn write_at(least: Place, bytes: &[u8]) -> Result<(Write, &[u8]), Fault>
    ensures read { IsRead (λ x. (x.0, x.1.now)) result (write least bytes.now) }
    ensures key { IfOk result (λ x. x.0.key ≤ RECORDS - 1) }
{
    let (table, rest) = u8_within(0, LAST_TABLE, bytes)?;
    let table = u32::from(table);
    if table < least.0 {
        return Err(Fault::at(bytes, Flaw::Order));
    }
    let (key, rest) = u32_within(0, RECORDS - 1, rest)?;
    if key < least_key(least, table) {
        return Err(Fault::at(bytes, Flaw::Order));
    }
    let (row, rest) = row_at(rest)?;
    Ok((Write { table, key, row }, rest))
}

/// The least key that may come in a table.
fn least_key(least: Place, table: u32) -> u32
    ensures { result ≡ least_key least table }
{
    if table == least.0 { least.1 } else { 0 }
}

/// Appends how many writes there are, and each of them.
pub fn push_writes(out: &mut Bytes, writes: &[Write]) -> Result<(), Memory>
    requires few { length writes.now ≤ OPS }
    requires each { All WriteInRange writes.now }
    ensures encoded { OnOk result (out.new ≡ out.old ++ writes_bytes writes.now) }
    ensures words { OnOk result (All WriteHasWords writes.now) }
{
    push_u8(out, writes.len() as u8)?;
    for write in writes {
        push_write(out, write)?;
    }
    Ok(())
}

/// Appends a write.
fn push_write(out: &mut Bytes, write: &Write) -> Result<(), Memory>
    requires { WriteInRange write.now }
    ensures encoded { OnOk result (out.new ≡ out.old ++ write_bytes write.now) }
    ensures words { OnOk result (WriteHasWords write.now) }
{
    push_u8(out, write.table as u8)?;
    push_u32(out, write.key)?;
    push_numbers(out, columns_of_row(&write.row))
}
