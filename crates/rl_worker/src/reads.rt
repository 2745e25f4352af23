//! The reads of an attempt.

ghost use Rattle.std.specs.Prelude.{◌≡◌, ◌+◌, ◌<◌, ◌≤◌, IfOk, IfSome, [], length, nat_lt, position};
ghost use Rattle.rl_worker.specs.Phases.{with_read};

use crate::cells::Cells;
use rl_base::memory::Memory;
use smallvec::SmallVec;
use std::alloc::Global;
use std::marker::Model;

/// A read of a record: the stamp that was seen first, and the cells, which are presence and the
/// columns.
#[derive(Debug, Default, Drop)]
pub struct Read {
    pub rec: u32,
    pub seen: u64,
    pub row: Cells,
}

/// The reads that count, by rising record number, with room for more of them. Contracts see
/// them as a list, beside how many more fit with no memory.
#[derive(Drop)]
pub struct Reads {
    reads: SmallVec<Read, 4>,
}

impl Model for Reads {
    ghost use Rattle.std.specs.Prelude.{List, ℕ, ◌-◌, length};
    ghost use Rattle.rl_worker.specs.declared.reads.Read.{Read};

    ghost Value = { List Read × ℕ };

    ghost view = { λ r. (r.reads.items, r.reads.capacity - length r.reads.items) };
}

impl Reads {
    /// No reads, with room for some.
    pub fn with_room(alloc: Global, count: usize) -> Result<Reads, Memory>
        ensures none { IfOk result (λ reads. reads.0 ≡ []) }
        ensures room { IfOk result (λ reads. count ≤ reads.1) }
    {
        Ok(Reads {
            reads: SmallVec::with_capacity(alloc, count)?,
        })
    }

    /// How many reads there are.
    pub fn len(&self) -> usize
        ensures { result ≡ length self.now.0 }
    {
        self.reads.len()
    }

    /// The reads, lent.
    pub fn as_slice(&self) -> &[Read]
        ensures { result.now ≡ self.now.0 }
    {
        self.reads.as_slice()
    }

    /// One more read joins, at its place by rising record number.
    pub fn insert(&mut self, read: Read)
        requires { 0 < self.old.1 }
        ensures reads { self.new.0 ≡ with_read read self.old.0 }
        ensures room { self.old.1 ≡ self.new.1 + 1 }
    {
        let at = first_after(&self.reads, read.rec).unwrap_or(self.reads.len());
        let _room_was_made = self.reads.insert(at, read);
    }
}

/// Where the first read of a later record stands, if there is one.
fn first_after(reads: &[Read], rec: u32) -> Option<usize>
    ensures place { result ≡ position (λ y. nat_lt rec y.rec) reads.now }
    ensures inside { IfSome result (λ at. at < length reads.now) }
{
    reads.iter().position(|read| rec < read.rec)
}
