//! Why no seq is drawn for an attempt.

/// The pass has no try left.
#[derive(Clone, Copy, Debug, PartialEq, Eq)]
pub struct TriesSpent;

/// Why a draw with a limit gives no seq.
#[derive(Clone, Copy, Debug, PartialEq, Eq)]
pub enum DrawStop {
    /// This seq was drawn, and is above the limit.
    Above { seq: u64 },
    /// The pass has no try left.
    TriesSpent,
}
