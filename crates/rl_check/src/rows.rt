//! The rows of a node beside those that it is to have, one by one.

ghost use Rattle.std.specs.Prelude.{◌≡◌, ◌<◌, ◌≤◌, ◌++◌, length, MatchResult, IfOk, IfSome, IfNone};
ghost use Rattle.std.specs.Bool.{OnTrue, OnFalse};
ghost use Rattle.std.specs.Option.{option_copied};
ghost use Rattle.rl_report.specs.Lines.{row_line, row_lines_of_table, row_lines};
ghost use Rattle.rl_check.specs.Differences.{Differ};
ghost use Rattle.rl_check.specs.Reruns.{IsRowLine};
ghost use Rattle.rl_check.specs.Verdicts.{DifferAt};

use rl_base::memory::Memory;
use rl_report::lent::LentRows;
use rl_report::line::RowLine;
use rl_value::map::Map;
use rl_value::row::Row;
use rl_value::schema::Schema;
use std::alloc::Global;

/// Whether a line is that of a row.
fn is_of_row(line: &RowLine, name: &str, key: u32, row: &Row) -> bool
    ensures yes { OnTrue result (IsRowLine name.now key row.now line.now) }
    ensures no { OnFalse result (IsRowLine name.now key row.now line.now → ⊥) }
{
    line.key == key
        && line.table.as_slice() == name.as_bytes()
        && line.row.as_slice() == row.as_slice()
}

/// The lines behind that of a row, where it is present; or all of them, where the first is another.
fn behind_row<'a>(
    alloc: Global,
    lines: LentRows<'a>,
    name: &str,
    key: u32,
    row: Option<&Row>,
) -> Result<Result<LentRows<'a>, LentRows<'a>>, Memory>
    ensures { IfOk result (λ found. MatchResult found
        (λ left. lines.entry ≡ row_line name.now key (option_copied row.entry) ++ left)
        (λ left. Differ (row_line name.now key (option_copied row.entry)) lines.entry left)) }
{
    let Some(row) = row else {
        return Ok(Ok(lines));
    };
    match lines.first(alloc) {
        Ok(None) => Ok(Err(lines)),
        Ok(Some((first, left))) => {
            if is_of_row(&first, name, key, row) {
                Ok(Ok(left))
            } else {
                Ok(Err(lines))
            }
        }
        Err(e) => Err(e),
    }
}

/// The lines behind those of the rows of a table, by key; or those from the first other one on.
fn behind_table<'a>(
    alloc: Global,
    lines: LentRows<'a>,
    schema: &Schema,
    rows: &Map,
    t: u32,
) -> Result<Result<LentRows<'a>, LentRows<'a>>, Memory>
    requires { t < length schema.now }
    ensures { IfOk result (λ found. MatchResult found
        (λ left. lines.entry ≡ row_lines_of_table schema.now rows.now t ++ left)
        (λ left. Differ (row_lines_of_table schema.now rows.now t) lines.entry left)) }
{
    let mut left = lines;
    for key in 0..schema.size(t) {
        match behind_row(alloc, left, schema.name(t), key, rows.get(t, key))? {
            Ok(behind) => left = behind,
            Err(other) => return Ok(Err(other)),
        }
    }
    Ok(Ok(left))
}

/// The lines behind those of all rows, by table and key; or those from the first other one on.
fn behind_rows<'a>(
    alloc: Global,
    lines: LentRows<'a>,
    schema: &Schema,
    rows: &Map,
) -> Result<Result<LentRows<'a>, LentRows<'a>>, Memory>
    ensures { IfOk result (λ found. MatchResult found
        (λ left. lines.entry ≡ row_lines schema.now rows.now ++ left)
        (λ left. Differ (row_lines schema.now rows.now) lines.entry left)) }
{
    let mut left = lines;
    for t in 0..schema.count() {
        match behind_table(alloc, left, schema, rows, t)? {
            Ok(behind) => left = behind,
            Err(other) => return Ok(Err(other)),
        }
    }
    Ok(Ok(left))
}

/// The index at which lines are other than those of all rows, by table and key, if they are.
pub fn first_other(
    alloc: Global,
    lines: &LentRows,
    schema: &Schema,
    rows: &Map,
) -> Result<Option<usize>, Memory>
    ensures same { IfOk result (λ other. IfNone other (lines.now ≡ row_lines schema.now rows.now)) }
    ensures other { IfOk result (λ other. IfSome other (λ i. DifferAt (row_lines schema.now rows.now) lines.now i)) }
    ensures inside { IfOk result (λ other. IfSome other (λ i. i ≤ length lines.now)) }
{
    let left = match behind_rows(alloc, lines.again(), schema, rows)? {
        Ok(left) => left,
        Err(other) => return Ok(Some(lines.len() - other.len())),
    };
    if left.len() == 0 {
        return Ok(None);
    }
    Ok(Some(lines.len() - left.len()))
}
