//! A stream at its leader.

ghost use Rattle.std.specs.Prelude.{◌≡◌, length, IfOk};

use rl_base::list::{Bytes, Log};
use rl_base::memory::Memory;
use rl_stream::leader_stream::{LeaderStream, Resend, SLOTS};
use rl_stream::propose_error::ProposeError;
use std::alloc::Global;
use std::test::Fail;

/// Acks of a log of 3 slots by nodes, and how many slots are chosen then.
const ACKS: [(u32, u32, u32); 5] = [(1, 3, 0), (3, 1, 1), (2, 2, 2), (2, 1, 2), (4, 3, 2)];

/// What is sent again to a node that has acked so many slots of 2.
const SENT_AGAIN: [(u32, Resend); 3] = [
    (0, Resend::Sync),
    (1, Resend::From { slot: 1 }),
    (2, Resend::Nothing),
];

/// A log of so many empty batches.
fn empty_batches(alloc: Global, count: u32) -> Result<Log, Memory>
    ensures { IfOk result (λ log. length log ≡ count) }
{
    let mut log = Log::new(alloc);
    for _slot in 0..count {
        log.push(Bytes::new(alloc))?;
    }
    Ok(log)
}

#[test]
fn the_slots_end(rt: HostRuntime) -> Result<(), Fail> {
    let alloc = rt.alloc();
    let mut stream = LeaderStream::new(alloc, 1, 3, 2, empty_batches(alloc, SLOTS)?)?;
    let full = ProposeError::StreamFull { slots: 4096 };
    assert_eq!(rt; stream.propose(Bytes::new(alloc)), Err(full));
    Ok(())
}

#[test]
fn acks_of_three_nodes(rt: HostRuntime) -> Result<(), Fail> {
    let alloc = rt.alloc();
    let mut stream = LeaderStream::new(alloc, 1, 3, 2, empty_batches(alloc, 3)?)?;
    for (node, len, chosen) in ACKS {
        assert!(rt; len as usize <= stream.log().len());
        assert_eq!(rt; stream.ack(node, len), chosen);
        assert_eq!(rt; stream.chosen_len(), chosen);
    }
    assert_eq!(rt; stream.acked(1), 3);
    assert_eq!(rt; stream.acked(0), 0);
    Ok(())
}

#[test]
fn what_is_sent_again(rt: HostRuntime) -> Result<(), Fail> {
    let alloc = rt.alloc();
    let mut stream = LeaderStream::new(alloc, 1, 3, 2, empty_batches(alloc, 1)?)?;
    assert_eq!(rt; stream.propose(Bytes::new(alloc)), Ok(1));
    assert_eq!(rt; stream.initial_len(), 1);
    for (len, expected) in SENT_AGAIN {
        assert!(rt; len as usize <= stream.log().len());
        let _ = stream.ack(2, len);
        assert_eq!(rt; stream.resend(2), expected);
    }
    Ok(())
}
