//! A network from its first message to its last byte, and links.

ghost use Rattle.std.specs.Prelude.{◌≡◌};
ghost use Rattle.rl_net.specs.Messages.{delivered_at};

use crate::link::Link;
use crate::net::Net;
use crate::net_error::{NetError, NoMessage};
use rl_base::limit::BYTES;
use rl_base::list::Bytes;
use std::alloc::Global;
use std::test::Fail;

/// Three messages of one byte, to the nodes 1, 2 and 3.
fn three_messages(alloc: Global) -> Result<Net, Fail> {
    let mut net = Net::new(alloc);
    for to in 1..4u8 {
        net.send(u32::from(to), Bytes::from_slice(alloc, &[to + 10])?)?;
    }
    Ok(net)
}

/// Delivers a message: the node that it goes to and its first byte, where it has one.
fn deliver(net: &mut Net, number: u64) -> Result<(u32, Option<u8>), NoMessage>
    ensures { net.new ≡ delivered_at net.old number }
{
    let (to, bytes) = net.deliver(number)?;
    Ok((to, bytes.as_slice().first().copied()))
}

#[test]
fn what_was_not_sent(rt: HostRuntime) -> Result<(), Fail> {
    let mut net = Net::new(rt.alloc());
    for number in [0, 1, u64::MAX] {
        assert_eq!(rt; deliver(&mut net, number), Err(NoMessage { number }));
        assert_eq!(rt; net.discard(number), Err(NoMessage { number }));
    }
    assert_eq!(rt; net.next_pending(0, u64::MAX), None);
    Ok(())
}

#[test]
fn what_is_delivered(rt: HostRuntime) -> Result<(), Fail> {
    let mut net = three_messages(rt.alloc())?;
    for (number, to, byte) in [(2, 2, 12), (2, 2, 12), (1, 1, 11), (3, 3, 13)] {
        assert_eq!(rt; deliver(&mut net, number), Ok((to, Some(byte))));
    }
    Ok(())
}

/// What becomes of a message.
#[derive(Clone, Copy)]
enum Mark {
    Deliver,
    Discard,
}

/// Delivers or discards a message, and answers which one is pending next, of all.
fn next_after(net: &mut Net, mark: Mark, number: u64) -> Result<Option<u64>, NoMessage> {
    match mark {
        Mark::Deliver => {
            net.deliver(number)?;
        }
        Mark::Discard => net.discard(number)?,
    }
    Ok(net.next_pending(0, u64::MAX))
}

#[test]
fn what_is_pending(rt: HostRuntime) -> Result<(), Fail> {
    let mut net = three_messages(rt.alloc())?;
    assert_eq!(rt; net.next_pending(1, 1), None);
    let marks = [
        (Mark::Deliver, 2, Some(1)),
        (Mark::Deliver, 2, Some(1)),
        (Mark::Discard, 1, Some(3)),
        (Mark::Discard, 1, Some(3)),
        (Mark::Deliver, 1, Some(3)),
        (Mark::Deliver, 3, None),
    ];
    for (mark, number, next) in marks {
        assert_eq!(rt; next_after(&mut net, mark, number), Ok(next));
    }
    Ok(())
}

#[test]
fn as_many_bytes_as_the_limit(rt: HostRuntime) -> Result<(), Fail> {
    let alloc = rt.alloc();
    let mut net = Net::new(alloc);
    let most = vec![in alloc; 0u8; BYTES as usize]?;
    assert_eq!(rt; net.send(1, Bytes::from_vec(most)), Ok(1));
    let one = Bytes::from_slice(alloc, &[7])?;
    assert_eq!(rt;
        net.send(1, one),
        Err(NetError::NetFull { limit: 268435456 })
    );
    assert_eq!(rt; net.send(1, Bytes::new(alloc)), Ok(2));
    assert_eq!(rt; net.next_pending(1, 2), Some(2));
    Ok(())
}

/// The most losses in a row among the first 10,000 messages of a link.
fn most_losses(loss: u32) -> u64 {
    let mut link = Link::new(7, loss);
    let mut in_row = 0u64;
    let mut most = 0;
    for _ in 0..10000 {
        in_row = if link.lost() {
            in_row.saturating_add(1)
        } else {
            0
        };
        most = most.max(in_row);
    }
    most
}

#[test]
fn losses_in_a_row(rt: HostRuntime) -> Result<(), Fail> {
    assert_eq!(rt; most_losses(0), 0);
    assert_eq!(rt; most_losses(999), 15);
    Ok(())
}
