//! The report of a run of requests.

ghost use Rattle.std.specs.Prelude.{◌≡◌, IfOk};
ghost use Rattle.rl_report.specs.Forms.{IsReport};
ghost use Rattle.rl_report.specs.Printed.{printed};
ghost use Rattle.rl_app.specs.Reports.{run_report};

use rl_base::list::Bytes;
use rl_base::memory::Memory;
use rl_report::block::Blocks;
use rl_report::line::item_lines;
use rl_report::middle::Lines;
use rl_report::printed::print_report;
use rl_report::report::{Report, Title};
use rl_report::rows::row_lines;
use rl_txn::item::Items;
use rl_value::map::Map;
use rl_value::schema::Schema;
use std::alloc::Global;

/// The text of the attempts that were refused, the items, and the rows after them.
pub fn print_run(
    alloc: Global,
    title: Title,
    refused: Lines,
    items: &Items,
    schema: &Schema,
    rows: &Map,
) -> Result<Bytes, Memory>
    requires { IsReport (run_report title refused items.now schema.now rows.now) }
    ensures { IfOk result (λ text. text ≡ printed (run_report title refused items.now schema.now rows.now)) }
{
    let items = item_lines(alloc, items)?;
    let tables = row_lines(alloc, schema, rows)?;
    let report = Report {
        title,
        middle: refused,
        items,
        tables,
        blocks: Blocks::new(alloc),
    };
    print_report(alloc, &report)
}
