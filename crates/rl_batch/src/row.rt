//! The numbers of outs and rows.

ghost use Rattle.std.specs.Prelude.{◌≡◌, ◌≤◌, ◌++◌, length, take, OnOk};
ghost use Rattle.rl_fields.specs.Answers.{IsRead, IsReadUnlessMemory};
ghost use Rattle.rl_fields.specs.Fields.{number, several};
ghost use Rattle.rl_batch.specs.Ranges.{AreWords};
ghost use Rattle.rl_batch.specs.Encoding.{numbers_bytes, columns_of_row};
ghost use Rattle.rl_batch.specs.Reading.{numbers, row, row_of_columns};

use rl_base::limit::OPS;
use rl_base::list::{Bytes, Seq};
use rl_base::memory::Memory;
use rl_fields::fault::{Fault, ReadError};
use rl_fields::number::{u8_within, u64_at};
use rl_fields::writing::{push_u8, push_u64};
use rl_txn::write::Outs;
use rl_value::row::Row;
use std::alloc::Global;

/// The outs of an item, and the bytes after them.
#[tactic(auto, unfolding(crate::specs::Reading::numbers))]
pub fn outs_at(alloc: Global, bytes: &[u8]) -> Result<(Outs, &[u8]), ReadError>
    ensures { IsReadUnlessMemory (λ x. (x.0, x.1.now)) result (numbers OPS bytes.now) }
{
    let (count, rest) = u8_within(0, OPS as u8, bytes)?;
    numbers_at(alloc, count, rest)
}

/// So many numbers, and the bytes after them.
fn numbers_at(alloc: Global, count: u8, bytes: &[u8]) -> Result<(Outs, &[u8]), ReadError>
    ensures { IsReadUnlessMemory (λ x. (x.0, x.1.now)) result (several (number 8) count bytes.now) }
{
    let mut numbers = Vec::with_capacity(alloc, usize::from(count))?;
    let mut rest = bytes;
    for _number in 0..count {
        let (number, after) = u64_at(rest)?;
        numbers.push(number)?;
        rest = after;
    }
    Ok((Seq::from_vec(numbers), rest))
}

/// The row of a write, and the bytes after it.
#[tactic(auto, unfolding(crate::specs::Reading::numbers, crate::specs::Reading::row))]
pub fn row_at(bytes: &[u8]) -> Result<(Option<Row>, &[u8]), Fault>
    ensures { IsRead (λ x. (x.0, x.1.now)) result (row bytes.now) }
{
    let (columns, rest) = u8_within(0, 4, bytes)?;
    let columns = usize::from(columns);
    let (cells, rest) = cells_at(columns, rest)?;
    Ok((row_of_columns(&cells[..columns]), rest))
}

/// The row of some columns.
fn row_of_columns(cells: &[u64]) -> Option<Row>
    requires { length cells.now ≤ 4 }
    ensures { result ≡ row_of_columns cells.now }
{
    if cells.is_empty() {
        None
    } else {
        Some(Row::from_slice(cells))
    }
}

/// So many columns in front of others, and the bytes after them.
fn cells_at(count: usize, bytes: &[u8]) -> Result<([u64; 4], &[u8]), Fault>
    requires { count ≤ 4 }
    ensures { IsRead (λ x. (take count x.0, x.1.now)) result (several (number 8) count bytes.now) }
{
    let mut cells = [0; 4];
    let mut rest = bytes;
    for i in 0..count {
        let (cell, after) = u64_at(rest)?;
        cells[i] = cell;
        rest = after;
    }
    Ok((cells, rest))
}

/// Appends how many numbers there are, and each of them.
pub fn push_numbers(out: &mut Bytes, numbers: &[u64]) -> Result<(), Memory>
    requires { length numbers.now ≤ OPS }
    ensures encoded { OnOk result (out.new ≡ out.old ++ numbers_bytes numbers.now) }
    ensures words { AreWords numbers.now }
{
    push_u8(out, numbers.len() as u8)?;
    for number in numbers {
        push_u64(out, *number)?;
    }
    Ok(())
}

/// The columns of a row, or none where it is absent.
pub fn columns_of_row(row: &Option<Row>) -> &[u64]
    ensures { result.now ≡ columns_of_row row.now }
{
    match row {
        Some(row) => row.as_slice(),
        None => &[],
    }
}
