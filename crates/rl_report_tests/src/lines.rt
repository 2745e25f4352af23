//! The lines of items and rows.

use rl_base::stamp::Stamp;
use rl_report::line::{RowLine, item_lines};
use rl_report::rows::row_lines;
use rl_txn::item::{Item, Items};
use rl_txn::write::{End, Outs, Reply, Writes};
use rl_value::map::Map;
use rl_value::row::Row;
use rl_value::schema::Schema;
use std::process::Abort;
use std::test::Fail;

#[test]
fn items_are_told_without_their_writes(rt: HostRuntime) -> Result<(), Fail> {
    let alloc = rt.alloc();
    let mut outs = Outs::new(alloc);
    outs.push(9)?;
    let mut items = Items::new(alloc);
    items.push(Item {
        stamp: Stamp { epoch: 1, seq: 2 },
        worker: 3,
        index: 4,
        reply: Reply {
            outs,
            end: End::Declined { op: 5 },
        },
        writes: Writes::new(alloc),
    })?;
    let lines = item_lines(alloc, &items)?;
    assert_eq!(rt; lines.len(), 1);
    for line in lines.as_slice() {
        assert_eq!(rt; line.stamp, Stamp { epoch: 1, seq: 2 });
        assert_eq!(rt; (line.worker, line.index), (3, 4));
        assert_eq!(rt; line.reply.outs.as_slice(), [9].as_slice());
        assert_eq!(rt; line.reply.end, End::Declined { op: 5 });
    }
    Ok(())
}

#[test]
fn rows_are_told_by_table_and_key(rt: HostRuntime) -> Result<(), Fail> {
    let alloc = rt.alloc();
    let mut schema = Schema::new(alloc);
    schema.declare(alloc, "b", 3, 1)?;
    schema.declare(alloc, "a", 1, 2)?;
    let mut rows = Map::new(alloc);
    rows.put(1, 0, Row::from_slice(&[7, 8]))?;
    rows.put(0, 2, Row::from_slice(&[6]))?;
    rows.put(0, 0, Row::from_slice(&[5]))?;
    let lines = row_lines(alloc, &schema, &rows)?;
    assert_eq!(rt; lines.len(), 3);
    is_row(&rt, lines.get(0), "b", 0, &[5]);
    is_row(&rt, lines.get(1), "b", 2, &[6]);
    is_row(&rt, lines.get(2), "a", 0, &[7, 8]);
    Ok(())
}

/// A line is of a row.
fn is_row(rt: &impl Abort, line: &RowLine, table: &str, key: u32, columns: &[u64]) {
    assert_eq!(rt; line.table.as_slice(), table.as_bytes());
    assert_eq!(rt; line.key, key);
    assert_eq!(rt; line.row.as_slice(), columns);
}
