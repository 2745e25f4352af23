//! A replica plays the items of two streams, the newer one first, and leaves the one above the watermark.

ghost use Rattle.std.specs.Prelude.{◌≡◌, length, IfOk};
ghost use Rattle.rl_families.specs.Logs.{stamps_in_batch};
ghost use Rattle.rl_families_tests.specs.Follows.{Follows};

use crate::followers::{extend, new_pair, play_next, play_stream};
use crate::items::item;
use rl_base::list::Seq;
use rl_base::memory::Memory;
use rl_base::stamp::Stamp;
use rl_cut::family::{ExtendError, Family};
use rl_replay::played::Played;
use rl_replay::replica::Replica;
use rl_txn::batch::Batch;
use rl_txn::item::Items;
use rl_txn::write::Write;
use rl_value::row::Row;
use std::alloc::Global;
use std::test::Fail;

/// A batch of one item of epoch 1, which writes a value to one key.
fn writing(alloc: Global, seq: u64, value: u64) -> Result<Batch, Memory>
    ensures { IfOk result (λ batch. length (stamps_in_batch batch) ≡ 1) }
{
    let mut writes = Seq::new(alloc);
    writes.push(Write {
        table: 0,
        key: 0,
        row: Some(Row::from_slice(&[value])),
    })?;
    let mut items = Items::new(alloc);
    items.push(item(alloc, Stamp { epoch: 1, seq }, writes))?;
    Ok(Batch::Items(items))
}

/// The first stream writes 5 and 7, the second 6 in between; none is played.
fn two_streams(alloc: Global) -> Result<(Family, Replica), ExtendError>
    ensures two { IfOk result (λ pair. length pair.0 ≡ 2) }
    ensures follows { IfOk result (λ pair. Follows 2 pair.1 pair.0) }
{
    let (mut family, replica) = new_pair(alloc, 2, 2)?;
    extend(&mut family, &replica, 2, 1, writing(alloc, 2, 5)?)?;
    extend(&mut family, &replica, 2, 1, writing(alloc, 4, 7)?)?;
    extend(&mut family, &replica, 2, 2, writing(alloc, 3, 6)?)?;
    Ok((family, replica))
}

fn value(replica: &Replica) -> u64 {
    replica
        .map()
        .get(0, 0)
        .map_or(0, |row| row.column_or_zero(0))
}

#[test]
fn the_newer_write_stays(rt: HostRuntime) -> Result<(), Fail> {
    let alloc = rt.alloc();
    let (family, mut replica) = two_streams(alloc)?;
    assert!(rt; !replica.at_watermark(family.kept_history()));
    play_stream(alloc, &mut replica, &family, 2, 2)?;
    assert_eq!(rt; value(&replica), 6);
    play_stream(alloc, &mut replica, &family, 2, 1)?;
    assert_eq!(rt; value(&replica), 6);
    assert!(rt; replica.at_watermark(family.kept_history()));
    Ok(())
}

#[test]
fn an_item_above_the_watermark_waits(rt: HostRuntime) -> Result<(), Fail> {
    let alloc = rt.alloc();
    let (family, mut replica) = two_streams(alloc)?;
    assert_eq!(rt; family.watermark(), (1, 3));
    play_stream(alloc, &mut replica, &family, 2, 1)?;
    assert_eq!(rt; value(&replica), 5);
    let next = Stamp { epoch: 1, seq: 4 };
    let waits = play_next(alloc, &mut replica, &family, 2, 1)?;
    assert_eq!(rt; waits, Played::Above { next, watermark: 3 });
    play_stream(alloc, &mut replica, &family, 2, 2)?;
    assert_eq!(rt; value(&replica), 6);
    assert_eq!(rt;
        play_next(alloc, &mut replica, &family, 2, 2)?,
        Played::Empty
    );
    Ok(())
}
