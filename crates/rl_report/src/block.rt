//! What a report says of a node.

use crate::line::{RowLines, StreamLines};
use rl_base::list::Seq;

/// A node's role.
#[derive(Clone, Copy, Debug, PartialEq, Eq)]
pub enum RoleLine {
    Follower,
    /// A candidate of an epoch, with so many promises of those that it needs.
    Candidate { epoch: u32, have: u32, need: u32 },
    /// A leader of an epoch that has not opened.
    Opening { epoch: u32 },
    /// A leader of an epoch that has opened.
    Leading { epoch: u32 },
}

/// The state of a node.
#[derive(Clone, Copy, Debug, PartialEq, Eq)]
pub enum Head {
    /// It is up. `watermark` is that of its known prefixes, and `at` says whether its replica has
    /// come to it.
    Up {
        promised: u32,
        role: RoleLine,
        watermark: (u32, u64),
        at: bool,
    },
    /// It is down.
    Down {
        promised: u32,
    },
    /// It is lost.
    Lost,
    /// Nothing is said of its state.
    Plain,
}

/// A node: its state, its streams, and the rows of its replica.
#[derive(Debug, Drop)]
pub struct Block {
    pub node: u32,
    pub head: Head,
    pub streams: StreamLines,
    pub rows: RowLines,
}

/// Nodes.
pub type Blocks = Seq<Block>;
