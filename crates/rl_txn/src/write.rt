//! What a transaction answers and writes.

ghost use Rattle.std.specs.Prelude.{◌≡◌, IfOk};

use rl_base::list::Seq;
use rl_base::memory::Memory;
use rl_value::row::Row;
use std::alloc::Global;

/// The numbers that a transaction puts out.
pub type Outs = Seq<u64>;

/// How a transaction ended.
#[derive(Clone, Copy, Debug, PartialEq, Eq)]
pub enum End {
    /// All its ops were done.
    Done,
    /// The op of this number, counted from 1, declined it.
    Declined { op: u32 },
}

/// What a transaction answers.
#[derive(Debug, Drop)]
pub struct Reply {
    pub outs: Outs,
    pub end: End,
}

impl Reply {
    /// An equal reply.
    pub fn copy(&self, alloc: Global) -> Result<Reply, Memory>
        ensures { IfOk result (λ copy. copy ≡ self.now) }
    {
        Ok(Reply {
            outs: Seq::from_vec(Vec::from_slice(alloc, self.outs.as_slice())?),
            end: self.end,
        })
    }
}

/// A row that a transaction makes, or takes away.
#[derive(Debug, Drop)]
pub struct Write {
    pub table: u32,
    pub key: u32,
    pub row: Option<Row>,
}

impl Write {
    /// An equal write.
    pub fn copy(&self) -> Write
        ensures { result ≡ self.now }
    {
        Write {
            table: self.table,
            key: self.key,
            row: copy_row(&self.row),
        }
    }
}

/// The writes of a transaction, by rising table and key.
pub type Writes = Seq<Write>;

/// An equal row, where there is one.
pub fn copy_row(row: &Option<Row>) -> Option<Row>
    ensures { result ≡ row.now }
{
    row.as_ref().map(Row::copy)
}

/// Equal writes.
pub fn copy_writes(alloc: Global, writes: &Writes) -> Result<Writes, Memory>
    ensures { IfOk result (λ copy. copy ≡ writes.now) }
{
    let mut copy = Vec::with_capacity(alloc, writes.len())?;
    for write in writes.as_slice() {
        copy.push(write.copy())?;
    }
    Ok(Seq::from_vec(copy))
}
