//! Laws of the definitions: the contract of each function is the law.

ghost use Rattle.rl_nodes.specs.Laws.{RunsGoOn, EventsOnlyAdd, RunsOnlyAdd, NodesTakeAsStreams, NodesChangeAsStreams, LeadersProposeAsStreams, RunsAreStreams, RunsHaveChosen, TestsTell};

/// A run goes on from where its first events came to.
pub fn runs_go_on()
    ensures { RunsGoOn }
{}

/// What was sent, released and told, and what leaders have had, is only added to.
pub fn only_adds()
    ensures event { EventsOnlyAdd }
    ensures run { RunsOnlyAdd }
{}

/// The tests of the rule of bad messages, and of a replica at its watermark, tell what they are named for.
pub fn tests_tell()
    ensures { TestsTell }
{}

/// A node that takes a message between streams does what the same node of the streams does at its delivery.
pub fn nodes_are_streams()
    ensures { NodesTakeAsStreams }
{}

/// What a node does by itself, an election, a crash, a return, a loss or a proposal, is what the same node of the
/// streams does.
pub fn changes_are_streams()
    ensures alone { NodesChangeAsStreams }
    ensures proposes { LeadersProposeAsStreams }
{}

/// Of each run some events of the streams make the same nodes, terms and messages, so that what is true of all streams
/// is true of all runs.
pub fn runs_are_streams()
    ensures same { RunsAreStreams }
    ensures chosen { RunsHaveChosen }
{}
