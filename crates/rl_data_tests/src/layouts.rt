//! Numbers of records.

use rl_tables::layout::{KeyOutOfRange, Layout, Records};
use rl_value::schema::Schema;
use std::test::Fail;

#[test]
fn numbers_table_by_table(rt: HostRuntime) -> Result<(), Fail> {
    let mut schema = Schema::new(rt.alloc());
    schema.declare(rt.alloc(), "a", 3, 1)?;
    schema.declare(rt.alloc(), "b", 300, 4)?;
    let layout = Layout::new(rt.alloc(), &schema)?;
    let last = Records {
        first: 302,
        count: 1,
    };
    assert_eq!(rt; layout.count(), 303);
    assert_eq!(rt; layout.range(1, 299, 1), Ok(last));
    assert_eq!(rt;
        layout.range(1, u64::MAX, 1),
        Err(KeyOutOfRange { size: 300 })
    );
    assert!(rt; layout.place(3) == (1, 0));
    Ok(())
}
