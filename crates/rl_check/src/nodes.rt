//! The nodes of a report.

ghost use Rattle.std.specs.Prelude.{◌≡◌, ◌<◌, ◌^◌, IfOk, length};
ghost use Rattle.rl_report.specs.Lent.{threads_report};
ghost use Rattle.rl_report.specs.Lines.{row_lines};
ghost use Rattle.rl_check.specs.Verdicts.{node_line};
ghost use Rattle.rl_check.specs.Reruns.{IsNodesVerdict};

use crate::rows::first_other;
use crate::verdict::{Verdict, Why};
use rl_base::memory::Memory;
use rl_report::lent::LentNodes;
use rl_report::line::ItemLines;
use rl_script::script::Script;
use rl_value::map::Map;
use std::alloc::Global;

/// The verdict on the report of a run of threads whose items are all requests, by its nodes: each has
/// these rows.
pub fn judge_nodes(
    alloc: Global,
    script: &Script,
    items: &ItemLines,
    nodes: &LentNodes,
    rows: &Map,
) -> Result<Verdict, Memory>
    requires { node_line (threads_report items.now nodes.now) (length nodes.now) < 2 ^ 32 }
    ensures { IfOk result (λ verdict. IsNodesVerdict script.now.nodes (row_lines script.now.schema rows.now)
        (threads_report items.now nodes.now) verdict) }
{
    let mut line = items.len() as u32 + 3;
    let mut node = 0;
    for block in nodes.as_slice() {
        if node == script.nodes {
            return Ok(Verdict::No {
                line,
                why: Why::Nodes,
            });
        }
        let other = first_other(alloc, block.rows(), &script.schema, rows)?;
        if let Some(row) = other {
            return Ok(Verdict::No {
                line: line + 1 + row as u32,
                why: Why::Table,
            });
        }
        line += 1 + block.rows().len() as u32;
        node += 1;
    }
    if node < script.nodes {
        return Ok(Verdict::No {
            line,
            why: Why::Nodes,
        });
    }
    Ok(Verdict::Yes {
        items: items.len() as u32,
    })
}
