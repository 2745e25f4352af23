//! Nodes, as a report shows them.

ghost use Rattle.std.specs.Prelude.{◌≡◌, ◌≤◌, ◌<◌, [], All, length, map, IfOk, IfSome};
ghost use Rattle.std.specs.Option.{option_copied, option_map_or};
ghost use Rattle.std.specs.FinMap as finite;
ghost use Rattle.rl_base.specs.declared.limit.TheConstants.{WORKERS};
ghost use Rattle.rl_value.specs.Fits.{RowsFit};
ghost use Rattle.rl_world.specs.Reported.{role_line, head_in, stream_lines_from, row_line, block_reported};

use rl_base::list::{Bytes, Seq};
use rl_base::memory::Memory;
use rl_nodes::view::{NodeView, Role, State, StreamView};
use rl_report::block::{Block, Head, RoleLine};
use rl_report::line::{RowLine, RowLines, StreamLine, StreamLines};
use rl_value::map::Map;
use rl_value::row::Row;
use rl_value::schema::Schema;
use std::alloc::Global;

/// A role.
fn role_line(role: Role) -> RoleLine
    ensures { result ≡ role_line role }
{
    match role {
        Role::Follower => RoleLine::Follower,
        Role::Candidate { epoch, have, need } => RoleLine::Candidate { epoch, have, need },
        Role::Opening { epoch } => RoleLine::Opening { epoch },
        Role::Leading { epoch } => RoleLine::Leading { epoch },
    }
}

/// The state of a node.
fn head(view: &NodeView) -> Head
    ensures { result ≡ head_in view.now view.now.state }
{
    match view.state {
        State::Up => Head::Up {
            promised: view.promised,
            role: role_line(view.role),
            watermark: view.watermark,
            at: view.at,
        },
        State::Down => Head::Down {
            promised: view.promised,
        },
        State::Lost => Head::Lost,
    }
}

/// The lines of a node's streams.
fn stream_lines(alloc: Global, views: &[StreamView]) -> Result<StreamLines, Memory>
    requires { length views.now ≤ WORKERS }
    ensures { IfOk result (λ lines. lines ≡ stream_lines_from 1 views.now) }
{
    let mut lines = Vec::with_capacity(alloc, views.len())?;
    for (i, view) in views.iter().enumerate() {
        lines.push(stream_line(i as u32 + 1, *view))?;
    }
    Ok(Seq::from_vec(lines))
}

/// The line of a stream.
fn stream_line(stream: u32, view: StreamView) -> StreamLine
    ensures { result ≡ record { stream = stream; ballot = view.ballot; len = view.len; known = view.known } }
{
    StreamLine {
        stream,
        ballot: view.ballot,
        len: view.len,
        known: view.known,
    }
}

/// A node as it is shown, with the rows of its replica where it is up.
pub fn block(
    alloc: Global,
    schema: &Schema,
    node: u32,
    view: &NodeView,
    rows: Option<&Map>,
) -> Result<Block, Memory>
    requires streams { length view.now.streams ≤ WORKERS }
    requires rows { IfSome (option_copied rows) (RowsFit schema.now) }
    ensures { IfOk result (λ block. block ≡ block_reported schema.now
        (record { node = node; view = view.now; rows = option_map_or finite.entries (option_copied rows.entry) [] })) }
{
    Ok(Block {
        node,
        head: head(view),
        streams: stream_lines(alloc, view.streams.as_slice())?,
        rows: match rows {
            Some(rows) => row_lines(alloc, schema, rows)?,
            None => RowLines::new(alloc),
        },
    })
}

/// The lines of some rows.
fn row_lines(alloc: Global, schema: &Schema, rows: &Map) -> Result<RowLines, Memory>
    requires { RowsFit schema.now rows.now }
    ensures { IfOk result (λ lines. lines ≡ map (row_line schema.now) (finite.entries rows.now)) }
{
    lines_of(alloc, schema, rows.copy()?.into_list(alloc)?)
}

/// The lines of rows with their places.
fn lines_of(
    alloc: Global,
    schema: &Schema,
    rows: Seq<((u32, u32), Row)>,
) -> Result<RowLines, Memory>
    requires { All (λ entry. entry.0.0 < length schema.now) rows }
    ensures { IfOk result (λ lines. lines ≡ map (row_line schema.now) rows) }
{
    let mut lines = Vec::with_capacity(alloc, rows.len())?;
    for entry in rows.into_vec() {
        let ((t, key), row) = entry;
        let table = Bytes::from_slice(alloc, schema.name(t).as_bytes())?;
        lines.push(RowLine { table, key, row })?;
    }
    Ok(Seq::from_vec(lines))
}
