//! Why a node refuses a call.

use rl_base::memory::Memory;

/// Why a node refused a call. After `BadMessage` and `NoEpoch` it is unchanged; after `StreamFull` and `Memory` it
/// answers the same to each later call until it crashes.
#[derive(Clone, Copy, Debug, PartialEq, Eq)]
pub enum NodeError {
    /// The bytes are no message, or the message has something that none has that a node of a run sends to
    /// this one.
    BadMessage,
    /// A stream has no free slot for the batch that is due.
    StreamFull { slots: u32 },
    /// The node has no epoch left above the promised one.
    NoEpoch { promised: u32 },
    /// There was no memory left.
    Memory,
}

impl From<Memory> for NodeError {
    ghost use Rattle.std.specs.Prelude.{◌≡◌};
    ghost use Rattle.rl_nodes.specs.declared.node_error.NodeError.TheVariants.{Memory};

    ghost from_gives = { λ _ e. e ≡ Memory };

    fn from(_e: Memory) -> NodeError {
        NodeError::Memory
    }
}
