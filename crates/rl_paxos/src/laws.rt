//! Laws of the definitions: the contract of each function is the law.

ghost use Rattle.rl_paxos.specs.Laws.{TheBestIsRecovered, QuorumsShareANode, OneIsAcknowledged, TheGreatestIsAcknowledged};

/// What is recovered is the longest of the logs of the highest ballot, and of equally long ones the least node's.
pub fn recovers()
    ensures { TheBestIsRecovered }
{}

/// A first and a second quorum whose sizes sum above the number of nodes share a node.
pub fn quorums_intersect()
    ensures { QuorumsShareANode }
{}

/// A quorum has acknowledged one length.
pub fn one_acknowledged_length()
    ensures { OneIsAcknowledged }
{}

/// The acknowledged length, as it is computed, is the greatest that a quorum of some of the nodes has acked.
pub fn acknowledges()
    ensures { TheGreatestIsAcknowledged }
{}
