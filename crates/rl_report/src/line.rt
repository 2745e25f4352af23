//! The lines of items, rows and streams.

ghost use Rattle.std.specs.Prelude.{◌≡◌, IfOk, map};
ghost use Rattle.rl_report.specs.Lines.{item_line};

use rl_base::list::{Bytes, Seq};
use rl_base::memory::Memory;
use rl_base::stamp::Stamp;
use rl_txn::item::{Item, Items};
use rl_txn::write::Reply;
use rl_value::row::Row;
use std::alloc::Global;

/// An item as it is reported: its writes are not.
#[derive(Debug, Drop)]
pub struct ItemLine {
    pub stamp: Stamp,
    pub worker: u32,
    pub index: u32,
    pub reply: Reply,
}

/// A row that is present, with the name of its table.
#[derive(Debug, Drop)]
pub struct RowLine {
    pub table: Bytes,
    pub key: u32,
    pub row: Row,
}

/// A stream at a node: its ballot, how many batches its log has, and how many of them are known to
/// be chosen.
#[derive(Clone, Copy, Debug, Drop, PartialEq, Eq)]
pub struct StreamLine {
    pub stream: u32,
    pub ballot: u32,
    pub len: u32,
    pub known: u32,
}

/// The lines of items.
pub type ItemLines = Seq<ItemLine>;

/// The lines of rows.
pub type RowLines = Seq<RowLine>;

/// The lines of streams.
pub type StreamLines = Seq<StreamLine>;

impl ItemLine {
    /// The line of an item.
    pub fn of(alloc: Global, item: &Item) -> Result<ItemLine, Memory>
        ensures { IfOk result (λ line. line ≡ item_line item.now) }
    {
        Ok(ItemLine {
            stamp: item.stamp,
            worker: item.worker,
            index: item.index,
            reply: item.reply.copy(alloc)?,
        })
    }
}

/// The lines of some items.
pub fn item_lines(alloc: Global, items: &Items) -> Result<ItemLines, Memory>
    ensures { IfOk result (λ lines. lines ≡ map item_line items.now) }
{
    let mut lines = Vec::with_capacity(alloc, items.len())?;
    for item in items.as_slice() {
        lines.push(ItemLine::of(alloc, item)?)?;
    }
    Ok(Seq::from_vec(lines))
}
