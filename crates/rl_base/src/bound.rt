//! How far the items of an epoch count.

/// Which items of an epoch a family of logs decides.
#[derive(Clone, Copy, Debug, PartialEq, Eq)]
pub enum Bound {
    /// Those up to `seq`, for good.
    Final { seq: u64 },
    /// Those up to `seq`, which may still rise.
    Rising { seq: u64 },
    /// None yet: the epoch lies beyond.
    Beyond,
}
