//! What a node hands out.

ghost use Rattle.std.specs.Prelude.{◌≡◌, ℕ, ◌≤◌, List, [], ◌∷◌, map, None, Some, IfOk, OnOk};
ghost use Rattle.std.specs.List.{range_with_len};
ghost use Rattle.rl_msg.specs.Parts.{head_of};
ghost use Rattle.rl_msg.specs.Ranges.{MsgInRange};
ghost use Rattle.rl_node.specs.Addressed.{addressed};
ghost use Rattle.rl_node.specs.Outs.{Adds, IsSending};

use rl_base::list::{Bytes, Seq};
use rl_base::memory::Memory;
use rl_msg::encode::encode_msg;
use rl_msg::msg::Msg;
use rl_paxos::refused::Refused;
use rl_txn::item::Items;
use rl_worker::act::Moved;
use std::alloc::Global;

/// A message as it is sent: to whom, and its bytes.
#[derive(Debug, Drop)]
pub struct Sent {
    pub to: u32,
    pub bytes: Bytes,
}

/// Messages, in the order in which they are sent.
pub type Sends = Seq<Sent>;

/// A leader has opened: its epoch, and how many items its opening list has.
#[derive(Clone, Copy, Debug, PartialEq, Eq)]
pub struct Opened {
    pub epoch: u32,
    pub count: u32,
}

/// What an event makes a node send and tell: that it opened as the leader, why it refused a message, and the items
/// that it releases. Those are its opening list where it opens, and after that what its history gains.
#[derive(Debug, Drop)]
pub struct Out {
    pub sends: Sends,
    pub opened: Option<Opened>,
    pub denied: Option<Refused>,
    pub released: Items,
}

/// What a step of a worker came to: what it did, the epoch that the node leads and the request that the worker was at, and
/// what the node hands out. Where the node is no open leader no step was made, and both numbers are 0.
#[derive(Debug, Drop)]
pub struct Stepped {
    pub moved: Option<Moved>,
    pub epoch: u32,
    pub index: u32,
    pub out: Out,
}

/// It sends some messages and tells nothing.
pub fn sending(alloc: Global, sends: Sends) -> Out
    ensures { (messages : List Msg) → Adds [] sends messages → IsSending messages result }
{
    Out {
        sends,
        opened: None,
        denied: None,
        released: Items::new(alloc),
    }
}

/// It sends one message and tells nothing.
pub fn answering(alloc: Global, m: &Msg) -> Result<Out, Memory>
    requires { MsgInRange m.now }
    ensures { IfOk result (IsSending (m.now ∷ [])) }
{
    let mut sends = Sends::new(alloc);
    send(alloc, &mut sends, m)?;
    Ok(sending(alloc, sends))
}

/// It sends some messages, and releases some items.
pub fn releasing(sends: Sends, released: Items) -> Out
    ensures { result ≡ record { sends = sends; opened = None; denied = None; released = released } }
{
    Out {
        sends,
        opened: None,
        denied: None,
        released,
    }
}

/// It refuses a message.
pub fn denying(alloc: Global, refused: Refused) -> Out
    ensures { result ≡ record { sends = []; opened = None; denied = Some refused; released = [] } }
{
    Out {
        sends: Sends::new(alloc),
        opened: None,
        denied: Some(refused),
        released: Items::new(alloc),
    }
}

/// The receiver of a message.
pub fn receiver(m: &Msg) -> u32
    ensures { result ≡ (head_of m.now).to }
{
    match m {
        Msg::Prepare { to, .. }
        | Msg::Promise { to, .. }
        | Msg::Sync { to, .. }
        | Msg::Accept { to, .. }
        | Msg::Ack { to, .. }
        | Msg::Known { to, .. } => *to,
    }
}

/// A message with another receiver.
fn addressed(m: Msg, to: u32) -> Msg
    ensures { result ≡ addressed m to }
{
    match m {
        Msg::Prepare { from, epoch, .. } => Msg::Prepare { from, to, epoch },
        Msg::Promise {
            from,
            epoch,
            ballots,
            logs,
            ..
        } => Msg::Promise {
            from,
            to,
            epoch,
            ballots,
            logs,
        },
        Msg::Sync {
            from,
            epoch,
            stream,
            log,
            ..
        } => Msg::Sync {
            from,
            to,
            epoch,
            stream,
            log,
        },
        Msg::Accept {
            from,
            epoch,
            stream,
            slot,
            batch,
            ..
        } => Msg::Accept {
            from,
            to,
            epoch,
            stream,
            slot,
            batch,
        },
        Msg::Ack {
            from,
            epoch,
            stream,
            len,
            ..
        } => Msg::Ack {
            from,
            to,
            epoch,
            stream,
            len,
        },
        Msg::Known {
            from,
            epoch,
            stream,
            len,
            ..
        } => Msg::Known {
            from,
            to,
            epoch,
            stream,
            len,
        },
    }
}

/// Sends a message.
pub fn send(alloc: Global, sends: &mut Sends, m: &Msg) -> Result<(), Memory>
    requires { MsgInRange m.now }
    ensures { OnOk result (Adds sends.old sends.new (m.now ∷ [])) }
{
    let bytes = encode_msg(alloc, m)?;
    sends.push(Sent {
        to: receiver(m),
        bytes,
    })
}

/// Sends a message to each of nodes 1 to `nodes`.
pub fn send_each(alloc: Global, sends: &mut Sends, m: Msg, nodes: u32) -> Result<(), Memory>
    requires { (to : ℕ) → 1 ≤ to → to ≤ nodes → MsgInRange (addressed m to) }
    ensures { OnOk result (Adds sends.old sends.new (map (addressed m) (range_with_len 1 nodes))) }
{
    let mut m = m;
    for before in 0..nodes {
        m = addressed(m, before + 1);
        send(alloc, sends, &m)?;
    }
    Ok(())
}
