//! What a family decides, computed from all that its streams got: what it keeps is compared with
//! that.

use crate::ones::{One, last_of, stamp_of};
use rl_base::bound::Bound;
use rl_base::memory::Memory;
use rl_base::stamp::Stamp;
use rl_cut::family::Family;
use rl_txn::item::Items;
use std::alloc::Global;
use std::process::Abort;

/// The greatest seq of an epoch that a stream got, or 0.
fn last_seq(ones: &[(u32, One)], stream: u32, epoch: u32) -> u64 {
    let mut last = 0;
    for &(owner, one) in ones {
        let stamp = stamp_of(one);
        if owner == stream && stamp.epoch == epoch {
            last = stamp.seq.max(last);
        }
    }
    last
}

/// The least epoch that the streams have come to.
fn least_top(ones: &[(u32, One)], streams: u32) -> u32 {
    let mut least = u32::MAX;
    for before in 0..streams {
        least = least.min(last_of(ones, before + 1).epoch);
    }
    least
}

/// The least of their last seqs of an epoch.
fn least_seq(ones: &[(u32, One)], streams: u32, epoch: u32) -> u64 {
    let mut least = u64::MAX;
    for before in 0..streams {
        least = least.min(last_seq(ones, before + 1, epoch));
    }
    least
}

/// The bound of an epoch.
fn bound_of(ones: &[(u32, One)], streams: u32, epoch: u32) -> Bound {
    let top = least_top(ones, streams);
    let seq = least_seq(ones, streams, epoch);
    if epoch > top {
        Bound::Beyond
    } else if epoch == top {
        Bound::Rising { seq }
    } else {
        Bound::Final { seq }
    }
}

/// Whether one is an item that counts.
fn counts(ones: &[(u32, One)], streams: u32, one: One) -> bool {
    match one {
        One::Item(epoch, seq) => {
            epoch <= least_top(ones, streams) && seq <= least_seq(ones, streams, epoch)
        }
        _ => false,
    }
}

/// The stream and the stamp of each item that counts, by stamp, and those of one stamp by stream.
fn counted(alloc: Global, ones: &[(u32, One)], streams: u32) -> Result<Vec<(u32, Stamp)>, Memory> {
    let mut counted = Vec::new(alloc);
    for before in 0..streams {
        push_counted(ones, streams, before + 1, &mut counted)?;
    }
    counted.sort_by_key(|entry| (entry.1.epoch, entry.1.seq))?;
    Ok(counted)
}

fn push_counted(
    ones: &[(u32, One)],
    streams: u32,
    stream: u32,
    counted: &mut Vec<(u32, Stamp)>,
) -> Result<(), Memory> {
    for &(owner, one) in ones {
        if owner == stream && counts(ones, streams, one) {
            counted.push((stream, stamp_of(one)))?;
        }
    }
    Ok(())
}

/// Compares what a family answers with what its streams decide, which got these batches.
pub fn compare(
    rt: &impl Abort,
    alloc: Global,
    family: &Family,
    ones: &[(u32, One)],
    streams: u32,
) -> Result<(), Memory> {
    compare_bounds(rt, family, ones, streams);
    let want = counted(alloc, ones, streams)?;
    compare_items(rt, &want, family.kept_history());
    let copy = family.history(alloc)?;
    compare_items(rt, &want, &copy);
    Ok(())
}

fn compare_bounds(rt: &impl Abort, family: &Family, ones: &[(u32, One)], streams: u32) {
    let top = least_top(ones, streams);
    let watermark = (top, least_seq(ones, streams, top));
    assert_eq!(rt; family.watermark(), watermark);
    for epoch in 0..6 {
        assert_eq!(rt; family.bound(epoch), bound_of(ones, streams, epoch));
    }
}

fn compare_items(rt: &impl Abort, want: &[(u32, Stamp)], items: &Items) {
    assert_eq!(rt; items.len(), want.len());
    for (item, &wanted) in items.as_slice().iter().zip(want) {
        assert_eq!(rt; (item.worker, item.stamp), wanted);
    }
}
