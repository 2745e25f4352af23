//! A node as it is shown.

use rl_base::list::Seq;

/// Whether a node is up, down, or lost for good.
#[derive(Clone, Copy, Debug, PartialEq, Eq)]
pub enum State {
    Up,
    Down,
    Lost,
}

/// What a node is to its epoch. One that is not up is a follower.
#[derive(Clone, Copy, Debug, PartialEq, Eq)]
pub enum Role {
    Follower,
    /// It stands for an epoch, with so many of the promises that it needs.
    Candidate { epoch: u32, have: u32, need: u32 },
    /// It leads an epoch that has not opened yet.
    Opening { epoch: u32 },
    /// It leads an epoch that has opened.
    Leading { epoch: u32 },
}

/// A stream at a node: its ballot, the length of its log, and how much of it is known to be chosen.
#[derive(Clone, Copy, Debug, PartialEq, Eq)]
pub struct StreamView {
    pub ballot: u32,
    pub len: u32,
    pub known: u32,
}

/// The streams of a node, in their order.
pub type StreamViews = Seq<StreamView>;

/// A node: the epoch that it promised, its role, the watermark of its known prefixes, whether its replica has applied
/// exactly their history, and its streams. The watermark is (0, 0) where the node is not up. A lost node shows nothing.
#[derive(Debug, Drop)]
pub struct NodeView {
    pub state: State,
    pub promised: u32,
    pub role: Role,
    pub watermark: (u32, u64),
    pub at: bool,
    pub streams: StreamViews,
}
