//! What a seat knows. No value of these types is made: they are the views of the rule.

use std::collections::LinkedList;

/// A version of a record: the stamp and the row of a write.
pub struct Version {
    pub rec: u64,
    pub stamp: u64,
    pub row: Option<LinkedList<u64>>,
}

/// A stamp that was seen on a record.
pub struct Seen {
    pub rec: u64,
    pub stamp: u64,
}

/// The record whose lock is held: its stamp as it was, and the cells stored so far.
pub struct Held {
    pub rec: u64,
    pub old: u64,
    pub stored: LinkedList<u64>,
}

/// The view of a seat: the versions that it has made, the stamps that it has seen, and the record
/// that it holds.
pub struct View {
    pub made: LinkedList<Version>,
    pub seen: LinkedList<Seen>,
    pub held: Option<Held>,
}
