//! What the logs of some streams decide together.

ghost use Rattle.std.specs.Prelude.{◌≡◌, length};

use crate::arrivals::drawn_after;
use crate::ones::{One, extend, last_of};
use crate::yardstick::compare;
use rl_base::bound::Bound;
use rl_base::memory::Memory;
use rl_base::stamp::Stamp;
use rl_cut::family::{ExtendError, Family};
use rl_txn::item::Items;
use std::alloc::Global;
use std::process::Abort;
use std::test::Fail;

/// What two streams get, with the watermark, the bound of epoch 1 and the stamps along the history: a stream that is
/// ahead, one that is silent, one that is idle, what is cut where an epoch ends, and a stream that is ahead by an epoch.
const FAMILIES: [(&[(u32, One)], (u32, u64), Bound, &[(u32, u64)]); 5] = [
    (
        &[
            (1, One::Opened(1)),
            (1, One::Item(1, 10)),
            (2, One::Opened(1)),
            (2, One::Item(1, 7)),
            (2, One::Opened(2)),
        ],
        (1, 7),
        Bound::Rising { seq: 7 },
        &[(1, 7)],
    ),
    (
        &[
            (1, One::Opened(1)),
            (1, One::Item(1, 2)),
            (2, One::Opened(1)),
        ],
        (1, 1),
        Bound::Rising { seq: 1 },
        &[],
    ),
    (
        &[
            (1, One::Opened(1)),
            (1, One::Item(1, 2)),
            (2, One::Opened(1)),
            (2, One::Idle(1, 2)),
        ],
        (1, 2),
        Bound::Rising { seq: 2 },
        &[(1, 2)],
    ),
    (
        &[
            (1, One::Opened(1)),
            (1, One::Item(1, 2)),
            (1, One::Item(1, 4)),
            (1, One::Opened(2)),
            (2, One::Opened(1)),
            (2, One::Item(1, 3)),
            (2, One::Opened(2)),
        ],
        (2, 1),
        Bound::Final { seq: 3 },
        &[(1, 2), (1, 3)],
    ),
    (
        &[
            (1, One::Opened(1)),
            (1, One::Item(1, 10)),
            (2, One::Opened(1)),
            (2, One::Item(1, 7)),
            (2, One::Opened(2)),
            (1, One::Opened(2)),
        ],
        (2, 1),
        Bound::Final { seq: 7 },
        &[(1, 7)],
    ),
];

/// Two streams get some batches, and what the family keeps is compared after each.
fn grown(rt: &impl Abort, alloc: Global, ones: &[(u32, One)]) -> Result<Family, ExtendError> {
    let mut family = Family::new(alloc, 2)?;
    for (before, &(stream, one)) in ones.iter().enumerate() {
        assert!(rt; stream == 1 || stream == 2);
        extend(alloc, &mut family, stream, one)?;
        compare(rt, alloc, &family, &ones[..before + 1], 2)?;
    }
    Ok(family)
}

/// Some items have these stamps.
fn have(rt: &impl Abort, items: &Items, stamps: &[(u32, u64)]) {
    assert_eq!(rt; items.len(), stamps.len());
    for (item, &(epoch, seq)) in items.as_slice().iter().zip(stamps) {
        assert_eq!(rt; item.stamp, Stamp { epoch, seq });
    }
}

#[test]
fn what_counts(rt: HostRuntime) -> Result<(), Fail> {
    for (ones, watermark, bound, stamps) in FAMILIES {
        let family = grown(&rt, rt.alloc(), ones)?;
        assert_eq!(rt; (family.watermark(), family.bound(1)), (watermark, bound));
        have(&rt, family.kept_history(), stamps);
    }
    Ok(())
}

#[test]
fn stamps_have_to_rise(rt: HostRuntime) -> Result<(), Fail> {
    let mut family = Family::new(rt.alloc(), 1)?;
    extend(rt.alloc(), &mut family, 1, One::Opened(2))?;
    let late = extend(rt.alloc(), &mut family, 1, One::Item(1, 12));
    let last = Stamp { epoch: 2, seq: 1 };
    let got = Stamp { epoch: 1, seq: 12 };
    assert_eq!(rt; late, Err(ExtendError::Order { last, got }));
    Ok(())
}

/// What a stream gets behind a stamp: an open mark of the next epoch, an idle mark, or an item.
fn drawn(last: Stamp, draw: u64) -> One {
    let kind = draw / 65536 % 8;
    if last.epoch == 0 || kind == 0 {
        return One::Opened(last.epoch.saturating_add(1));
    }
    let seq = last.seq.saturating_add(1 + draw / 1048576 % 4);
    if kind == 1 {
        One::Idle(last.epoch, seq)
    } else {
        One::Item(last.epoch, seq)
    }
}

fn push(ones: &mut Vec<(u32, One)>, stream: u32, one: One) -> Result<(), Memory> {
    ones.push((stream, one))?;
    Ok(())
}

/// Three streams get what a seed draws, the third the least, and what the family keeps is compared
/// after each.
fn follow(rt: &impl Abort, alloc: Global, seed: u64) -> Result<(), ExtendError> {
    let mut family = Family::new(alloc, 3)?;
    let mut ones = Vec::new(alloc);
    let mut draw = seed;
    for _step in 0..60 {
        draw = drawn_after(draw);
        let stream = (draw / 256 % 5 / 2) as u32 + 1;
        let one = drawn(last_of(&ones, stream), draw);
        push(&mut ones, stream, one)?;
        extend(alloc, &mut family, stream, one)?;
        compare(rt, alloc, &family, &ones, 3)?;
    }
    Ok(())
}

#[test]
fn kept_numbers_are_those_of_the_logs(rt: HostRuntime) -> Result<(), Fail> {
    for seed in 1..9 {
        follow(&rt, rt.alloc(), seed)?;
    }
    Ok(())
}
