//! What a leader sends of one stream.

ghost use Rattle.std.specs.Prelude.{◌≡◌, ◌≤◌, [], ◌∷◌, take, length, IfOk, OnOk};
ghost use Rattle.rl_msg.specs.Ranges.{HeadInRange, LogInRange, StreamInRange};
ghost use Rattle.rl_node.specs.Outs.{Adds};
ghost use Rattle.rl_node.specs.Sending.{accepts_of, resends_of, known_of, knowns_of};
ghost use Rattle.rl_base.specs.declared.limit.TheConstants.{NODES};

use crate::answer::{Sends, send, send_each};
use rl_base::list::{Bytes, Log};
use rl_base::memory::Memory;
use rl_msg::msg::Msg;
use rl_stream::leader_stream::{LeaderStream, Resend};
use std::alloc::Global;

/// What a leader sends by: its number, its epoch, and a stream.
#[derive(Clone, Copy)]
pub struct From {
    pub node: u32,
    pub epoch: u32,
    pub stream: u32,
}

/// The first batches of a log.
pub fn front(alloc: Global, log: &Log, len: usize) -> Result<Log, Memory>
    requires { len ≤ length log.now }
    ensures { IfOk result (λ front. front ≡ take len log.now) }
{
    let mut front = Vec::with_capacity(alloc, len)?;
    for batch in &log.as_slice()[..len] {
        front.push(Bytes::from_slice(alloc, batch.as_slice())?)?;
    }
    Ok(Log::from_vec(front))
}

/// Sends what a node has not acked.
pub fn send_again(
    alloc: Global,
    sends: &mut Sends,
    from: From,
    stream: &LeaderStream,
    to: u32,
) -> Result<(), Memory>
    requires head { HeadInRange from.node to from.epoch }
    requires stream { StreamInRange from.stream }
    requires log { LogInRange stream.now.log }
    ensures { OnOk result (Adds sends.old sends.new (resends_of from.node from.epoch from.stream stream.now to)) }
{
    match stream.resend(to) {
        Resend::Sync => send_initial(alloc, sends, from, stream, to),
        Resend::From { slot } => send_accepts(alloc, sends, from, stream, slot, to),
        Resend::Nothing => Ok(()),
    }
}

/// Sends the initial log of a stream.
fn send_initial(
    alloc: Global,
    sends: &mut Sends,
    from: From,
    stream: &LeaderStream,
    to: u32,
) -> Result<(), Memory>
    requires head { HeadInRange from.node to from.epoch }
    requires stream { StreamInRange from.stream }
    requires log { LogInRange stream.now.log }
    ensures { OnOk result (Adds sends.old sends.new
        (Msg.Sync from.node to from.epoch from.stream (take stream.now.initial_len stream.now.log) ∷ [])) }
{
    let log = front(alloc, stream.log(), stream.initial_len() as usize)?;
    let sync = Msg::Sync {
        from: from.node,
        to,
        epoch: from.epoch,
        stream: from.stream,
        log,
    };
    send(alloc, sends, &sync)
}

/// Sends each batch from a slot on.
fn send_accepts(
    alloc: Global,
    sends: &mut Sends,
    from: From,
    stream: &LeaderStream,
    slot: u32,
    to: u32,
) -> Result<(), Memory>
    requires head { HeadInRange from.node to from.epoch }
    requires stream { StreamInRange from.stream }
    requires log { LogInRange stream.now.log }
    requires slot { slot ≤ length stream.now.log }
    ensures { OnOk result (Adds sends.old sends.new
        (accepts_of from.node from.epoch from.stream stream.now slot to)) }
{
    let log = stream.log();
    for i in slot as usize..log.len() {
        let accept = Msg::Accept {
            from: from.node,
            to,
            epoch: from.epoch,
            stream: from.stream,
            slot: i as u32,
            batch: Bytes::from_slice(alloc, log.get(i).as_slice())?,
        };
        send(alloc, sends, &accept)?;
    }
    Ok(())
}

/// Tells each node how much of a stream a second quorum has acked.
pub fn send_known(
    alloc: Global,
    sends: &mut Sends,
    from: From,
    stream: &LeaderStream,
    nodes: u32,
) -> Result<(), Memory>
    requires head { HeadInRange from.node 1 from.epoch }
    requires nodes { nodes ≤ NODES }
    requires stream { StreamInRange from.stream }
    ensures { OnOk result (Adds sends.old sends.new
        (known_of from.node from.epoch from.stream stream.now nodes)) }
{
    let known = Msg::Known {
        from: from.node,
        to: 1,
        epoch: from.epoch,
        stream: from.stream,
        len: stream.chosen_len(),
    };
    send_each(alloc, sends, known, nodes)
}

/// Tells each node again how much of a stream a second quorum has acked, where it has acked some.
pub fn send_known_again(
    alloc: Global,
    sends: &mut Sends,
    from: From,
    stream: &LeaderStream,
    nodes: u32,
) -> Result<(), Memory>
    requires head { HeadInRange from.node 1 from.epoch }
    requires nodes { nodes ≤ NODES }
    requires stream { StreamInRange from.stream }
    ensures { OnOk result (Adds sends.old sends.new
        (knowns_of from.node from.epoch from.stream stream.now nodes)) }
{
    if stream.chosen_len() == 0 {
        return Ok(());
    }
    send_known(alloc, sends, from, stream, nodes)
}
