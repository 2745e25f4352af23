//! The nodes of a run with their messages: the events of a script happen.

use crate::group::{Call, Group};
use rl_base::limit::SCRIPT;
use rl_base::list::{Bytes, Seq};
use rl_base::memory::Memory;
use rl_events::event::{Event, Events};
use rl_net::net::Net;
use rl_net::net_error::NetError;
use rl_node::NodeError;
use rl_node::answer::{Opened, Out};
use rl_paxos::refused::Refused;
use rl_script::fault::ParseError;
use rl_script::script::parse;
use rl_txn::item::{Item, Items};
use std::alloc::Global;
use thiserror::Error;

/// Why an event stops.
#[derive(Clone, Copy, Debug, PartialEq, Eq, Error)]
pub enum Stop {
    /// A text is no script.
    #[error("no script")]
    Script,
    /// A node refused a call.
    #[error("a node refused")]
    Node(NodeError),
    /// The network refused a message.
    #[error("the network refused")]
    Net(NetError),
    /// There was no memory left.
    #[error("memory")]
    Memory,
}

impl From<Memory> for Stop {
    fn from(_e: Memory) -> Stop {
        Stop::Memory
    }
}

/// The nodes of the script that a text is, before its events, and these. `Script` where it is none.
pub fn cluster_of(alloc: Global, text: &[u8]) -> Result<(Cluster, Events), Stop> {
    if text.len() > SCRIPT as usize {
        return Err(Stop::Script);
    }
    match parse(alloc, text) {
        Ok(script) => {
            let (group, events) = Group::new(alloc, script)?;
            Ok((Cluster::new(alloc, group), events))
        }
        Err(ParseError::Memory) => Err(Stop::Memory),
        Err(_) => Err(Stop::Script),
    }
}

/// The nodes of a script after all its events.
pub fn played(alloc: Global, text: &[u8]) -> Result<Cluster, Stop> {
    let (mut cluster, events) = cluster_of(alloc, text)?;
    for event in events.as_slice() {
        cluster.happen(alloc, *event)?;
    }
    Ok(cluster)
}

/// The nodes of a run, the messages and how many there are, and what was told: the released items, the openings and the
/// refusals of messages.
#[derive(Drop)]
pub struct Cluster {
    pub group: Group,
    pub net: Net,
    pub sent: u64,
    pub released: Items,
    pub opened: Seq<Opened>,
    pub denied: Seq<Refused>,
}

impl Cluster {
    /// Nodes to which nothing was sent.
    pub fn new(alloc: Global, group: Group) -> Cluster {
        Cluster {
            group,
            net: Net::new(alloc),
            sent: 0,
            released: Items::new(alloc),
            opened: Seq::new(alloc),
            denied: Seq::new(alloc),
        }
    }

    /// Calls a node, and takes what it hands out.
    pub fn call(&mut self, alloc: Global, a: u32, call: Call) -> Result<(), Stop> {
        match self.group.call(alloc, a, call) {
            Ok(out) => self.take(out),
            Err(e) => Err(Stop::Node(e)),
        }
    }

    /// Takes what a node hands out. Of the items that it releases those are new that are above the last one.
    pub fn take(&mut self, out: Out) -> Result<(), Stop> {
        for message in out.sends.into_vec() {
            match self.net.send(message.to, message.bytes) {
                Ok(number) => self.sent = number,
                Err(e) => return Err(Stop::Net(e)),
            }
        }
        if let Some(opened) = out.opened {
            self.opened.push(opened)?;
        }
        if let Some(denied) = out.denied {
            self.denied.push(denied)?;
        }
        for item in out.released.into_vec() {
            if is_above(&item, self.released.as_slice().last()) {
                self.released.push(item)?;
            }
        }
        Ok(())
    }

    /// The receiver and the bytes of a message, which count as delivered.
    pub fn message(&mut self, alloc: Global, number: u64) -> Result<Option<(u32, Bytes)>, Stop> {
        match self.net.deliver(number) {
            Ok((to, bytes)) => Ok(Some((to, Bytes::from_slice(alloc, bytes.as_slice())?))),
            Err(_) => Ok(None),
        }
    }

    /// Delivers a message, where it was sent.
    pub fn deliver(&mut self, alloc: Global, number: u64) -> Result<(), Stop> {
        match self.message(alloc, number)? {
            Some((to, bytes)) => self.call(alloc, to, Call::Handle(bytes.as_slice())),
            None => Ok(()),
        }
    }

    /// Delivers each message that is pending, and none that is sent meanwhile.
    pub fn deliver_all(&mut self, alloc: Global) -> Result<(), Stop> {
        let upto = self.sent;
        let mut after = 0;
        for _message in 0..upto {
            let Some(number) = self.net.next_pending(after, upto) else {
                return Ok(());
            };
            self.deliver(alloc, number)?;
            after = number;
        }
        Ok(())
    }

    /// The replica of a node plays a stream.
    fn play(&mut self, alloc: Global, a: u32, stream: u32) -> Result<(), Stop> {
        match self.group.play(alloc, a, stream) {
            Ok(_) => Ok(()),
            Err(e) => Err(Stop::Node(e)),
        }
    }

    /// An event happens. Nothing is shown, and what is random does nothing.
    pub fn happen(&mut self, alloc: Global, event: Event) -> Result<(), Stop> {
        match event {
            Event::Step {
                node,
                worker,
                count,
            } => {
                for _step in 0..count {
                    self.call(alloc, node, Call::Step(worker))?;
                }
                Ok(())
            }
            Event::Flush { node, worker } => self.call(alloc, node, Call::Flush(worker)),
            Event::Idle { node, worker } => self.call(alloc, node, Call::Idle(worker)),
            Event::Dlv { number } => self.deliver(alloc, number),
            Event::All => self.deliver_all(alloc),
            Event::Elect { node } => self.call(alloc, node, Call::Elect),
            Event::Tick { node } => self.call(alloc, node, Call::Tick),
            Event::Back { node } => Ok(self.group.back(alloc, node)?),
            Event::Play { node, stream } => self.play(alloc, node, stream),
            Event::PlayAll { node } => {
                for before in 0..self.group.workers() {
                    self.play(alloc, node, before + 1)?;
                }
                Ok(())
            }
            other => {
                self.end(other);
                Ok(())
            }
        }
    }

    /// A message is dropped, or a node crashes or is lost.
    fn end(&mut self, event: Event) {
        match event {
            Event::Discard { number } => {
                let _ = self.net.discard(number);
            }
            Event::Crash { node } => self.group.crash(node),
            Event::Lose { node } => self.group.lose(node),
            _ => {}
        }
    }
}

/// Whether an item is above the last one, if there is one.
fn is_above(item: &Item, last: Option<&Item>) -> bool {
    match last {
        Some(last) => { (last.stamp.epoch, last.stamp.seq) < (item.stamp.epoch, item.stamp.seq) }
        None => true,
    }
}
