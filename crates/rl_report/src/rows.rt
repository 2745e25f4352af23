//! The rows of tables, as they are reported.

ghost use Rattle.std.specs.Prelude.{◌≡◌, ◌<◌, ◌++◌, length, IfOk, OnOk};
ghost use Rattle.std.specs.List.{flat_map, range_with_len};
ghost use Rattle.std.specs.Option.{option_copied};
ghost use Rattle.rl_report.specs.Lines.{row_line, row_lines_of_table, row_lines};

use crate::line::{RowLine, RowLines};
use rl_base::list::{Bytes, Seq};
use rl_base::memory::Memory;
use rl_value::map::Map;
use rl_value::row::Row;
use rl_value::schema::Schema;
use std::alloc::Global;

/// Appends the line of a row, where it is present. After `Memory` the lines are as before.
fn push_row(
    alloc: Global,
    lines: &mut RowLines,
    name: &str,
    key: u32,
    row: Option<&Row>,
) -> Result<(), Memory>
    ensures { OnOk result (lines.new ≡ lines.old ++ row_line name.now key (option_copied row.entry)) }
{
    let Some(row) = row else {
        return Ok(());
    };
    lines.push(RowLine {
        table: Bytes::from_slice(alloc, name.as_bytes())?,
        key,
        row: row.copy(),
    })
}

/// Appends the lines of the rows of a table, by key.
fn push_rows_of(
    alloc: Global,
    lines: &mut RowLines,
    schema: &Schema,
    rows: &Map,
    t: u32,
) -> Result<(), Memory>
    requires { t < length schema.now }
    ensures { OnOk result (lines.new ≡ lines.old ++ row_lines_of_table schema.now rows.now t) }
{
    for key in 0..schema.size(t) {
        push_row(alloc, lines, schema.name(t), key, rows.get(t, key))?;
    }
    Ok(())
}

/// The lines of all rows that are present, by table and key.
pub fn row_lines(alloc: Global, schema: &Schema, rows: &Map) -> Result<RowLines, Memory>
    ensures { IfOk result (λ lines. lines ≡ row_lines schema.now rows.now) }
{
    let mut lines = Seq::new(alloc);
    for t in 0..schema.count() {
        push_rows_of(alloc, &mut lines, schema, rows, t)?;
    }
    Ok(lines)
}
