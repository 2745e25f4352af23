//! What is wrong with bytes that should be a batch or a message.

/// Why some bytes are no encoding.
#[derive(Clone, Copy, Debug, PartialEq, Eq)]
pub enum Flaw {
    /// The first byte stands for no kind.
    Kind,
    /// A field or a byte string ends past the bytes.
    Short,
    /// A field is out of its range.
    Range,
    /// A field does not rise above the one before.
    Order,
    /// A byte follows the end.
    Extra,
}
