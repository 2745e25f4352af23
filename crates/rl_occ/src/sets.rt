//! What an attempt keeps of the records that it has read and locked.

/// A record that was read, and the word that was seen.
#[derive(Clone, Copy, Debug, Default, PartialEq, Eq)]
pub struct Seen {
    pub rec: u32,
    pub word: u64,
}

/// A record that is locked, and its word as it was.
#[derive(Clone, Copy, Debug, Default, PartialEq, Eq)]
pub struct Lock {
    pub rec: u32,
    pub old: u64,
}
