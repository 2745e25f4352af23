//! What one worker's thread is given, and what it hands back.

use crate::run::Acceptors;
use rl_net::link::Link;
use rl_progress::seat::Seat;
use rl_store::pass::Pass;
use rl_stream::leader_stream::LeaderStream;
use rl_txn::op::Lists;

/// A worker, before it has done anything.
#[derive(Drop)]
pub struct Worker<'a> {
    /// Its number, from 1 to the number of lists: its stream has the same.
    pub number: u32,
    /// The requests of all workers: the list of its number is its own.
    pub lists: &'a Lists,
    /// How many items go into a batch, 1 to 64.
    pub batch: u32,
    /// Its part in the store.
    pub pass: Pass,
    /// Its stream at the leader.
    pub stream: LeaderStream,
    /// The acceptor of its stream at each node.
    pub acceptors: Acceptors,
    /// Its part in the progress.
    pub seat: Seat,
    /// What decides which of its messages are lost.
    pub link: Link,
}

/// A worker that has done its whole list.
#[derive(Drop)]
pub struct Done {
    /// Its pass, at rest, with its items.
    pub pass: Pass,
    /// The acceptor of its stream at each node.
    pub acceptors: Acceptors,
}
