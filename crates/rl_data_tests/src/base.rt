//! Stamps, words, epochs and lists.

use rl_base::epoch::{next_epoch, owner};
use rl_base::list::{Bytes, Log};
use rl_base::stamp::{Stamp, pack, unpack};
use rl_base::word::{is_locked, locked, stamp_of, unlocked, word_of};
use std::test::Fail;

#[test]
fn lists_keep_what_is_pushed(rt: HostRuntime) -> Result<(), Fail> {
    let mut log = Log::new(rt.alloc());
    let mut first = Bytes::from_slice(rt.alloc(), b"fir")?;
    first.append(b"st")?;
    log.push(first)?;
    log.push(Bytes::new(rt.alloc()))?;
    log.push_at(1, 7)?;
    let mut copy = log.copy(rt.alloc())?;
    assert_eq!(rt; copy.len(), 2);
    assert_eq!(rt; copy.get(0).as_slice(), b"first".as_slice());
    let last = copy.pop().ok_or("no last element")?;
    assert_eq!(rt; last.as_slice(), [7].as_slice());
    Ok(())
}

#[test]
fn words_hold_stamps(rt: HostRuntime) {
    let stamp = pack(Stamp { epoch: 1, seq: 2 });
    assert_eq!(rt; stamp, 1099511627778);
    assert_eq!(rt; unpack(stamp), Stamp { epoch: 1, seq: 2 });
    let word = word_of(stamp);
    assert_eq!(rt; word, 2199023255556);
    assert!(rt; !is_locked(word) && is_locked(locked(word)));
    assert_eq!(rt; stamp_of(locked(word)), stamp);
    assert_eq!(rt; unlocked(locked(word)), word);
}

#[test]
fn epochs_are_dealt_in_turn(rt: HostRuntime) {
    for (epoch, node) in [(1, 1), (2, 2), (3, 3), (4, 1)] {
        assert_eq!(rt; owner(epoch, 3), node);
    }
    assert_eq!(rt; next_epoch(0, 2, 3), Some(2));
    assert_eq!(rt; next_epoch(2, 2, 3), Some(5));
    assert_eq!(rt; next_epoch(1048574, 1, 1), Some(1048575));
    assert_eq!(rt; next_epoch(1048575, 1, 1), None);
}
