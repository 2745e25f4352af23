//! A message of the network.

use rl_base::list::Bytes;

/// A message as it was sent, and what became of it since.
#[derive(Debug, Drop)]
pub struct Message {
    pub to: u32,
    pub bytes: Bytes,
    pub delivered: bool,
    pub dropped: bool,
}
