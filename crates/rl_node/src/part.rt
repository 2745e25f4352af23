//! What a node is to its epoch.

use rl_cut::family::Family;
use rl_election::candidate::Candidate;
use rl_stream::leader_stream::LeaderStream;
use rl_tables::layout::Layout;
use rl_txn::item::Items;
use rl_worker::words::Words;
use rl_worker::worker::Worker;

/// A node follows, stands for an epoch, or leads one.
#[derive(Drop)]
pub enum Part {
    Follows,
    Stands(Candidate),
    Leads(Lead),
}

/// A leader: its epoch and streams, what a second quorum has acked of each, its workers once it has opened, and by worker
/// the items that are not proposed yet.
#[derive(Drop)]
pub struct Lead {
    pub epoch: u32,
    pub streams: Vec<LeaderStream>,
    pub acknowledged: Family,
    pub works: Option<Works>,
    pub pending: Vec<Items>,
}

/// The records of an open leader, and its workers.
#[derive(Drop)]
pub struct Works {
    pub layout: Layout,
    pub words: Words,
    pub workers: Vec<Worker>,
}
