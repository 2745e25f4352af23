//! Equal lines of a report.

ghost use Rattle.std.specs.Prelude.{◌≡◌, IfOk};

use rl_base::list::{Bytes, Seq};
use rl_base::memory::Memory;
use rl_report::block::Block;
use rl_report::line::{RowLine, RowLines, StreamLines};
use rl_report::middle::{Lines, Middle};
use std::alloc::Global;

/// Equal lines of what became of events.
pub fn copy_lines(alloc: Global, lines: &Lines) -> Result<Lines, Memory>
    ensures { IfOk result (λ copy. copy ≡ lines.now) }
{
    let mut copy = Vec::with_capacity(alloc, lines.len())?;
    for line in lines.as_slice() {
        copy.push(copy_line(alloc, line)?)?;
    }
    Ok(Seq::from_vec(copy))
}

/// An equal line.
fn copy_line(alloc: Global, line: &Middle) -> Result<Middle, Memory>
    ensures { IfOk result (λ copy. copy ≡ line.now) }
{
    Ok(match line {
        Middle::Locked {
            epoch,
            worker,
            index,
            table,
            key,
            word,
        } => Middle::Locked {
            epoch: *epoch,
            worker: *worker,
            index: *index,
            table: copy_bytes(alloc, table)?,
            key: *key,
            word: *word,
        },
        Middle::Changed {
            epoch,
            worker,
            index,
            table,
            key,
            seen,
            found,
        } => Middle::Changed {
            epoch: *epoch,
            worker: *worker,
            index: *index,
            table: copy_bytes(alloc, table)?,
            key: *key,
            seen: *seen,
            found: *found,
        },
        Middle::DeniedPromised {
            number,
            node,
            promised,
        } => Middle::DeniedPromised {
            number: *number,
            node: *node,
            promised: *promised,
        },
        Middle::DeniedBallot {
            number,
            node,
            ballot,
        } => Middle::DeniedBallot {
            number: *number,
            node: *node,
            ballot: *ballot,
        },
        Middle::DeniedOrder { number, node, len } => Middle::DeniedOrder {
            number: *number,
            node: *node,
            len: *len,
        },
        Middle::NoMessage { number } => Middle::NoMessage { number: *number },
        Middle::Opened { epoch, node, count } => Middle::Opened {
            epoch: *epoch,
            node: *node,
            count: *count,
        },
        Middle::Shown(block) => Middle::Shown(copy_block(alloc, block)?),
    })
}

/// An equal node.
fn copy_block(alloc: Global, block: &Block) -> Result<Block, Memory>
    ensures { IfOk result (λ copy. copy ≡ block.now) }
{
    Ok(Block {
        node: block.node,
        head: block.head,
        streams: copy_streams(alloc, &block.streams)?,
        rows: copy_rows(alloc, &block.rows)?,
    })
}

/// Equal streams.
fn copy_streams(alloc: Global, streams: &StreamLines) -> Result<StreamLines, Memory>
    ensures { IfOk result (λ copy. copy ≡ streams.now) }
{
    let mut copy = Vec::with_capacity(alloc, streams.len())?;
    for stream in streams.as_slice() {
        copy.push(*stream)?;
    }
    Ok(Seq::from_vec(copy))
}

/// Equal rows.
fn copy_rows(alloc: Global, rows: &RowLines) -> Result<RowLines, Memory>
    ensures { IfOk result (λ copy. copy ≡ rows.now) }
{
    let mut copy = Vec::with_capacity(alloc, rows.len())?;
    for row in rows.as_slice() {
        copy.push(copy_row(alloc, row)?)?;
    }
    Ok(Seq::from_vec(copy))
}

/// An equal row.
fn copy_row(alloc: Global, row: &RowLine) -> Result<RowLine, Memory>
    ensures { IfOk result (λ copy. copy ≡ row.now) }
{
    Ok(RowLine {
        table: copy_bytes(alloc, &row.table)?,
        key: row.key,
        row: row.row.copy(),
    })
}

/// Equal bytes.
fn copy_bytes(alloc: Global, bytes: &Bytes) -> Result<Bytes, Memory>
    ensures { IfOk result (λ copy. copy ≡ bytes.now) }
{
    Bytes::from_slice(alloc, bytes.as_slice())
}
