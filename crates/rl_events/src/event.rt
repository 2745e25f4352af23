//! Events, in which the nodes of a world move.

ghost use Rattle.std.specs.Prelude.{◌≡◌};
ghost use Rattle.rl_events.specs.Fits.{count_of, elections_of};

use rl_base::list::Seq;

/// One event. Nodes, workers and streams are counted from 1.
#[derive(Clone, Copy, Debug, PartialEq, Eq)]
pub enum Event {
    /// Some steps of a worker at a node, 1 to 100,000.
    Step { node: u32, worker: u32, count: u32 },
    /// A worker proposes what it has pending.
    Flush { node: u32, worker: u32 },
    /// A worker that rests proposes an idle mark.
    Idle { node: u32, worker: u32 },
    /// A message is delivered, counted from 1.
    Dlv { number: u64 },
    /// A message is passed over from now on: the line `drop`. Any number.
    Discard { number: u64 },
    /// Each message that was sent before and never delivered nor passed over is delivered.
    All,
    /// A node stands for its next epoch.
    Elect { node: u32 },
    /// A node sends again what is not acknowledged.
    Tick { node: u32 },
    /// A node goes down, and keeps its logs.
    Crash { node: u32 },
    /// A node that is down comes back.
    Back { node: u32 },
    /// A node is lost for good.
    Lose { node: u32 },
    /// A node's replica plays a stream.
    Play { node: u32, stream: u32 },
    /// A node's replica plays all streams.
    PlayAll { node: u32 },
    /// What a node holds is reported.
    Show { node: u32 },
    /// Some events that a seed draws, 1 to 100,000.
    Random { seed: u64, count: u32 },
}

/// The events of a script.
pub type Events = Seq<Event>;

impl Event {
    /// How many events it counts as.
    pub fn count(&self) -> u32
        ensures { result ≡ count_of self.now }
    {
        match self {
            Event::Step { count, .. } | Event::Random { count, .. } => *count,
            _ => 1,
        }
    }

    /// How many elections it is.
    pub fn elections(&self) -> u32
        ensures { result ≡ elections_of self.now }
    {
        match self {
            Event::Elect { .. } => 1,
            _ => 0,
        }
    }
}
