//! Replays by threads, compared with what one thread does.

ghost use Rattle.std.specs.Prelude.{◌≡◌, ◌<◌, ◌≤◌, length, sum_by, IfOk};

use crate::family::{Step, one_table, opening_rows, parts_of, random_plans};
use crate::sequential::replay_in_order;
use rl_base::list::Seq;
use rl_base::memory::Memory;
use rl_shared_replay::replay::replay;
use rl_value::map::Map;
use rl_value::row::Row;
use rl_value::schema::Schema;
use std::alloc::Global;
use std::sync::Wait;
use std::test::Fail;
use std::thread::Threads;

type Rows = Seq<((u32, u32), Row)>;

/// The rows of a replay by threads, and of one in order.
fn both<R: Threads + Wait + Sync>(
    rt: &R,
    alloc: Global,
    schema: &Schema,
    rows: &[(u32, u64)],
    plans: &[Vec<Step>],
) -> Result<(Rows, Rows), Memory>
    requires schema { 0 < length schema.now }
    requires few { sum_by (λ plan. length plan.items) plans.now ≤ 1073741824 }
{
    let opening = opening_rows(alloc, schema, rows)?;
    let parts = parts_of(alloc, schema, plans)?;
    let expected = replay_in_order(alloc, &opening, &parts)?;
    let found = replay(rt, alloc, schema, &opening, parts)?;
    Ok((found.into_list(alloc)?, expected.into_list(alloc)?))
}

/// Whether two lists of rows are equal.
fn are_equal(xs: &Rows, ys: &Rows) -> bool {
    if xs.len() != ys.len() {
        return false;
    }
    for i in 0..xs.len() {
        let (x, y) = (xs.get(i), ys.get(i));
        if x.0 != y.0 || x.1.as_slice() != y.1.as_slice() {
            return false;
        }
    }
    true
}

fn step(epoch: u32, key: u32, value: Option<u64>) -> Step {
    Step { epoch, key, value }
}

/// A plan of some steps.
fn plan(alloc: Global, steps: &[Step]) -> Result<Vec<Step>, Memory>
    ensures { IfOk result (λ plan. length plan.items ≡ length steps.now) }
{
    Ok(Vec::from_slice(alloc, steps)?)
}

#[test]
fn newer_stamp_wins(rt: HostRuntime) -> Result<(), Fail> {
    let alloc = rt.alloc();
    let schema = one_table(alloc, 2, 1)?;
    let plans = [
        plan(alloc, &[step(1, 0, Some(5))])?,
        plan(alloc, &[step(1, 0, Some(6))])?,
    ];
    let opening = opening_rows(alloc, &schema, &[])?;
    let parts = parts_of(alloc, &schema, &plans)?;
    let map = replay(&rt, alloc, &schema, &opening, parts)?;
    assert_eq!(rt; map.get(0, 0).map(|row| row.column_or_zero(0)), Some(6));
    assert!(rt; map.get(0, 1).is_none());
    Ok(())
}

#[test]
fn deletes_empty_parts_and_one_key_in_all(rt: HostRuntime) -> Result<(), Fail> {
    let alloc = rt.alloc();
    let schema = one_table(alloc, 4, 2)?;
    let plans = [
        plan(alloc, &[step(3, 0, Some(7)), step(1, 3, Some(4))])?,
        plan(alloc, &[])?,
        plan(alloc, &[step(2, 0, None), step(5, 1, None)])?,
    ];
    let rows = [(1, 9), (2, 8)];
    let opening = opening_rows(alloc, &schema, &rows)?;
    let parts = parts_of(alloc, &schema, &plans)?;
    let map = replay(&rt, alloc, &schema, &opening, parts)?;
    assert_eq!(rt; map.get(0, 0).map(|row| row.column_or_zero(1)), Some(7));
    assert!(rt; map.get(0, 1).is_none());
    assert_eq!(rt; map.get(0, 2).map(|row| row.column_or_zero(1)), Some(8));
    assert_eq!(rt; map.get(0, 3).map(|row| row.column_or_zero(0)), Some(4));
    Ok(())
}

#[test]
fn random_items_as_in_one_thread(rt: HostRuntime) -> Result<(), Fail> {
    let alloc = rt.alloc();
    let schema = one_table(alloc, 128, 4)?;
    for count in [1, 2, 4, 8] {
        let plans = random_plans(alloc, 17, count, 2000)?;
        let (found, expected) = both(&rt, alloc, &schema, &[(5, 1), (200, 2)], plans.as_slice())?;
        assert!(rt; found.len() > 64);
        assert!(rt; are_equal(&found, &expected));
    }
    Ok(())
}
