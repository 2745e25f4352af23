//! What the workers of a leader do, step by step.

use crate::leader::{opened, steps};
use rl_base::stamp::Stamp;
use rl_txn::item::Item;
use rl_worker::act::Moved;
use rl_worker::worker::Worker;
use std::alloc::Global;
use std::process::Abort;
use std::test::Fail;

/// What the last of some steps of the first worker comes to.
fn first_moves(rt: &impl Abort, alloc: Global, count: u32) -> Result<Moved, Fail> {
    let (leader, mut words) = opened(alloc, 0)?;
    let mut worker = Worker::new(1, 1, 1);
    Ok(steps(rt, alloc, &leader, &mut words, &mut worker, count)?)
}

/// The item that some steps end with.
fn item_after(rt: &impl Abort, alloc: Global, count: u32) -> Result<Item, Fail> {
    match first_moves(rt, alloc, count)?.ended {
        Some(item) => Ok(item),
        None => Err("no item".into()),
    }
}

#[test]
fn a_record_opens_with_its_stamp(rt: HostRuntime) -> Result<(), Fail> {
    let (_, words) = opened(rt.alloc(), 9)?;
    assert_eq!(rt; words.next, 2);
    for record in words.records.as_slice() {
        assert_eq!(rt; record.stamp, 9);
        assert_eq!(rt; record.cells.len(), 2);
    }
    Ok(())
}

#[test]
fn the_tenth_act_ends_an_item(rt: HostRuntime) -> Result<(), Fail> {
    let item = item_after(&rt, rt.alloc(), 10)?;
    assert_eq!(rt; item.stamp, Stamp { epoch: 1, seq: 2 });
    assert_eq!(rt; item.reply.outs.as_slice(), [1].as_slice());
    Ok(())
}
