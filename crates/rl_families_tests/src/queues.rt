//! Replies leave the queue in the order of their pushes, up to a stamp.

use crate::items::item;
use rl_base::list::Seq;
use rl_base::stamp::Stamp;
use rl_release::queue::Queue;

/// Up to which seq a reply is released, and the seq of the one that is.
const RELEASES: [(u64, Option<u64>); 6] = [
    (1, None),
    (3, Some(2)),
    (3, None),
    (4, Some(4)),
    (4, Some(3)),
    (9, None),
];

fn released(queue: &mut Queue, seq: u64) -> Option<u64> {
    let item = queue.release((1 << 40) + seq % 1000)?;
    Some(item.stamp.seq)
}

#[test]
fn in_order_up_to_a_stamp(rt: HostRuntime) {
    let alloc = rt.alloc();
    let mut queue = Queue::new(alloc);
    assert_eq!(rt; released(&mut queue, 9), None);
    for seq in [2, 4, 3] {
        let stamp = Stamp { epoch: 1, seq };
        assert!(rt; queue.push(item(alloc, stamp, Seq::new(alloc))).is_ok());
    }
    for (upto, want) in RELEASES {
        assert_eq!(rt; released(&mut queue, upto), want);
    }
}
