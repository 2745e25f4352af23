//! A list, as contracts see it.

ghost use Rattle.std.specs.Prelude.{◌≡◌, ◌<◌, [], ◌∷◌, ◌++◌, length, slice_get, slice_set, Some, option_to_list, OnOk, OnErr, IfOk, IsNone, IsTrue, Contains, ◌↔◌};
ghost use Rattle.rl_base.specs.Lists.{with_last};

use crate::memory::Memory;
use std::alloc::Global;
use std::marker::Model;
use std::mem;

/// A growing list of `T`.
#[derive(Debug, Drop)]
pub struct Seq<T: Drop> {
    items: Vec<T>,
}

impl<T: Drop> Model for Seq<T> {
    ghost use Rattle.std.specs.Prelude.{List};

    ghost Value = { List T };

    ghost view = { λ a. a.items.items };
}

/// Bytes.
pub type Bytes = Seq<u8>;

/// A log: one byte string for each slot.
pub type Log = Seq<Bytes>;

/// One log for each stream.
pub type Logs = Seq<Log>;

/// One ballot for each stream.
pub type Ballots = Seq<u32>;

/// Packed stamps.
pub type Stamps = Seq<u64>;

/// The numbers of the calls that fail.
pub type Fails = Seq<u64>;

impl<T: Drop> Seq<T> {
    /// The empty list.
    pub fn new(alloc: Global) -> Self
        ensures { result ≡ [] }
    {
        Seq {
            items: Vec::new(alloc),
        }
    }

    /// The list of a vector's elements.
    pub fn from_vec(items: Vec<T>) -> Self
        ensures { result ≡ items.items }
    {
        Seq { items }
    }

    /// The vector of its elements.
    pub fn into_vec(self) -> Vec<T>
        ensures { result.items ≡ self }
    {
        self.items
    }

    /// How many elements it has.
    pub fn len(&self) -> usize
        ensures { result ≡ length self.now }
    {
        self.items.len()
    }

    /// Whether it has none.
    pub fn is_empty(&self) -> bool
        ensures { IsTrue result ↔ (self.now ≡ []) }
    {
        self.items.is_empty()
    }

    /// One of its elements.
    pub fn get(&self, i: usize) -> &T
        requires { i < length self.now }
        ensures { slice_get self.now i ≡ Some result.now }
    {
        &self.items[i]
    }

    /// Appends an element. After `Memory` the list is unchanged.
    pub fn push(&mut self, x: T) -> Result<(), Memory>
        ensures ok { OnOk result (self.new ≡ self.old ++ x ∷ []) }
        ensures err { OnErr result (self.new ≡ self.old) }
    {
        self.items.push(x)?;
        Ok(())
    }

    /// Takes the last element out, or answers `None` where the list is empty.
    pub fn pop(&mut self) -> Option<T>
        ensures last { self.old ≡ self.new ++ option_to_list result }
        ensures none { IsNone result ↔ (self.old ≡ []) }
    {
        self.items.pop()
    }

    /// Replaces one of its elements, and answers the old one.
    pub fn replace(&mut self, i: usize, x: T) -> T
        requires { i < length self.old }
        ensures set { self.new ≡ slice_set self.old i x }
        ensures old { slice_get self.old i ≡ Some result }
    {
        mem::replace(&mut self.items[i], x)
    }

    /// Its elements, lent.
    pub fn as_slice(&self) -> &[T]
        ensures { result.now ≡ self.now }
    {
        self.items.as_slice()
    }
}

impl<T: Drop> Seq<Seq<T>> {
    /// Appends an element to one of the lists. After `Memory` they are unchanged.
    pub fn push_at(&mut self, i: usize, x: T) -> Result<(), Memory>
        requires { i < length self.old }
        ensures ok { OnOk result (self.new ≡ with_last self.old i x) }
        ensures err { OnErr result (self.new ≡ self.old) }
    {
        let list = &mut self.items[i];
        list.push(x)?;
        Ok(())
    }
}

impl Seq<u8> {
    /// A copy of a slice's bytes.
    pub fn from_slice(alloc: Global, x: &[u8]) -> Result<Bytes, Memory>
        ensures { IfOk result (λ bytes. bytes ≡ x.now) }
    {
        Ok(Seq {
            items: Vec::from_slice(alloc, x)?,
        })
    }

    /// Appends a slice's bytes. After `Memory` the list is unchanged.
    pub fn append(&mut self, x: &[u8]) -> Result<(), Memory>
        ensures ok { OnOk result (self.new ≡ self.old ++ x.now) }
        ensures err { OnErr result (self.new ≡ self.old) }
    {
        self.items.extend_from_slice(x)?;
        Ok(())
    }
}

impl Seq<Bytes> {
    /// An equal log.
    pub fn copy(&self, alloc: Global) -> Result<Log, Memory>
        ensures { IfOk result (λ log. log ≡ self.now) }
    {
        let mut log = Vec::with_capacity(alloc, self.len())?;
        for bytes in self.as_slice() {
            log.push(Bytes::from_slice(alloc, bytes.as_slice())?)?;
        }
        Ok(Seq { items: log })
    }
}

impl Seq<u64> {
    /// Whether a number is in the list.
    pub fn contains(&self, x: u64) -> bool
        ensures { IsTrue result ↔ Contains self.now x }
    {
        self.items.contains(&x)
    }
}
