//! What became of the next entry of a stream.

use rl_base::stamp::Stamp;

/// What became of the next entry of a stream.
#[derive(Clone, Copy, Debug, PartialEq, Eq)]
pub enum Played {
    /// It is an item, and was applied.
    Applied { stamp: Stamp },
    /// It is a mark, or an item that never counts, and was skipped.
    Passed { stamp: Stamp },
    /// It is an item above the watermark's seq or of a later epoch, and still to come.
    Above { next: Stamp, watermark: u64 },
    /// There is none: the known prefix is played out.
    Empty,
}
