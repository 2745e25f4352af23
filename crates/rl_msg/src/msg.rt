//! What nodes send to one another.

use rl_base::list::{Ballots, Bytes, Log, Logs};

/// A message of one node to another, `from` and `to`, at an epoch. Streams are numbered from 1, slots from 0.
#[derive(Debug, Drop)]
pub enum Msg {
    /// Asks for a promise.
    Prepare {
        from: u32,
        to: u32,
        epoch: u32,
    },
    /// The promise, with the ballot and the log of each stream.
    Promise {
        from: u32,
        to: u32,
        epoch: u32,
        ballots: Ballots,
        logs: Logs,
    },
    /// A log to adopt.
    Sync {
        from: u32,
        to: u32,
        epoch: u32,
        stream: u32,
        log: Log,
    },
    /// The bytes of a batch for one slot.
    Accept {
        from: u32,
        to: u32,
        epoch: u32,
        stream: u32,
        slot: u32,
        batch: Bytes,
    },
    /// How many batches the sender keeps of the log.
    Ack {
        from: u32,
        to: u32,
        epoch: u32,
        stream: u32,
        len: u32,
    },
    /// How many batches of the log are chosen.
    Known {
        from: u32,
        to: u32,
        epoch: u32,
        stream: u32,
        len: u32,
    },
}
