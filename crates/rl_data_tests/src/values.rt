//! Tables, and rows at their places.

use rl_value::map::Map;
use rl_value::row::Row;
use rl_value::schema::Schema;
use std::test::Fail;

/// The places of rows, and their first columns.
const ROWS: [(u32, u32, u64); 3] = [(0, 9, 5), (1, 0, 6), (2, 2, 4)];

#[test]
fn tables_are_found_by_name(rt: HostRuntime) -> Result<(), Fail> {
    let mut schema = Schema::new(rt.alloc());
    schema.declare(rt.alloc(), "a", 3, 2)?;
    schema.declare(rt.alloc(), "b", 4, 2)?;
    assert_eq!(rt; schema.find("b"), Some(1));
    assert_eq!(rt; schema.find("c"), None);
    assert_eq!(rt; schema.records(), 7);
    Ok(())
}

#[test]
fn rows_are_kept_by_table_and_key(rt: HostRuntime) -> Result<(), Fail> {
    let mut map = Map::new(rt.alloc());
    map.put(1, 0, Row::from_slice(&[7, 8]))?;
    map.put(0, 9, Row::from_slice(&[5]))?;
    map.put(1, 0, Row::from_slice(&[6, 8]))?;
    map.put(2, 2, Row::from_slice(&[4]))?;
    let list = map.copy()?.into_list(rt.alloc())?;
    assert_eq!(rt; list.len(), 3);
    for ((place, row), wanted) in list.as_slice().iter().zip(ROWS) {
        assert_eq!(rt; (place.0, place.1, row.column_or_zero(0)), wanted);
    }
    Ok(())
}
