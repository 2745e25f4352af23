//! What a pass knows. No value of these types is made: they are the views of the rule.

use std::collections::LinkedList;

/// A read that has begun: the stamp that was seen, and the cells loaded so far.
pub struct Reading {
    pub rec: u64,
    pub seen: u64,
    pub cells: LinkedList<u64>,
}

/// A read that counts: the version of the record that was seen, and its row.
pub struct Read {
    pub rec: u64,
    pub stamp: u64,
    pub row: Option<LinkedList<u64>>,
}

/// A record whose lock is held: its word as it was, and the cells stored so far.
pub struct Held {
    pub rec: u64,
    pub old: u64,
    pub stored: LinkedList<u64>,
}

/// A record that was closed with a new row.
pub struct Write {
    pub rec: u64,
    pub row: Option<LinkedList<u64>>,
}

/// An attempt. A pass at rest has a blank one.
pub struct Attempt {
    pub reading: Option<Reading>,
    pub reads: LinkedList<Read>,
    pub held: LinkedList<Held>,
    pub drawn: Option<u64>,
    pub validated: LinkedList<u64>,
    pub closed: LinkedList<Write>,
    pub given_up: bool,
}

/// An attempt that was decided and has closed all its records.
pub struct Item {
    pub stamp: u64,
    pub reads: LinkedList<Read>,
    pub writes: LinkedList<Write>,
}

/// The last refusal: the record and the word seen, if any, and the word or seq that was found.
pub struct Refused {
    pub rec: Option<u64>,
    pub seen: Option<u64>,
    pub found: u64,
}

/// The view of a pass: tries left, draws made, finished items, how often it was refused and why last, how often it
/// was split, and its attempt.
pub struct View {
    pub tries: u64,
    pub draws: u64,
    pub items: LinkedList<Item>,
    pub refusals: u64,
    pub last: Option<Refused>,
    pub splits: u64,
    pub attempt: Attempt,
}
