//! What a report says of events.

use crate::block::Block;
use rl_base::list::{Bytes, Seq};

/// What became of an event.
#[derive(Debug, Drop)]
pub enum Middle {
    /// An attempt was refused: `word`, which was found at the record, is locked.
    Locked {
        epoch: u32,
        worker: u32,
        index: u32,
        table: Bytes,
        key: u32,
        word: u64,
    },
    /// An attempt was refused: `found` is not the word that it had seen at the record.
    Changed {
        epoch: u32,
        worker: u32,
        index: u32,
        table: Bytes,
        key: u32,
        seen: u64,
        found: u64,
    },
    /// A message was refused at a node that has promised a later epoch.
    DeniedPromised {
        number: u64,
        node: u32,
        promised: u32,
    },
    /// A message was refused at a node that keeps its stream at another ballot.
    DeniedBallot {
        number: u64,
        node: u32,
        ballot: u32,
    },
    /// A message was refused at a node whose log is shorter than its slot.
    DeniedOrder {
        number: u64,
        node: u32,
        len: u32,
    },
    /// No message of this number was sent.
    NoMessage {
        number: u64,
    },
    /// The leader of an epoch opened with so many items.
    Opened {
        epoch: u32,
        node: u32,
        count: u32,
    },
    /// A node was shown.
    Shown(Block),
}

/// What became of events, in their order.
pub type Lines = Seq<Middle>;
