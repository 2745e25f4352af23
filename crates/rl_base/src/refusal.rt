//! Why an attempt was refused.

/// Why an attempt to commit was refused: a true conflict on one record.
#[derive(Clone, Copy, Debug, PartialEq, Eq)]
pub enum Refusal {
    /// The record was locked by another; `word` was found there.
    Locked { rec: u32, word: u64 },
    /// The record was changed since it was seen: `found` is not the word `seen`.
    Changed { rec: u32, seen: u64, found: u64 },
}
