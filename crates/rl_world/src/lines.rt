//! What events come to, as lines of a report.

ghost use Rattle.std.specs.Prelude.{◌≡◌, ◌<◌, ◌++◌, All, sum, option_to_list, OnOk, IfOk, IfSome};
ghost use Rattle.std.specs.List.{flat_map};
ghost use Rattle.rl_value.specs.Tables.{IsSchema};
ghost use Rattle.rl_tables.specs.Numbers.{sizes_of};
ghost use Rattle.rl_worker.specs.Told.{record_in, NamesRecord};
ghost use Rattle.rl_node.specs.Moves.{line_of};
ghost use Rattle.rl_report.specs.Forms.{IsEffect};
ghost use Rattle.rl_world.specs.Reported.{refused_line, denied_lines, line_reported};

use rl_base::list::Bytes;
use rl_base::memory::Memory;
use rl_base::refusal::Refusal;
use rl_node::answer::Stepped;
use rl_paxos::refused::Refused;
use rl_report::middle::{Lines, Middle};
use rl_tables::layout::Layout;
use rl_value::schema::Schema;
use std::alloc::Global;

/// Which attempt it is: its epoch, its worker and the index of its request.
#[derive(Clone, Copy)]
pub struct Attempt {
    pub epoch: u32,
    pub worker: u32,
    pub index: u32,
}

/// The line of a refused attempt, with the place of the record.
pub fn refused_line(
    alloc: Global,
    schema: &Schema,
    layout: &Layout,
    attempt: Attempt,
    refusal: Refusal,
) -> Result<Middle, Memory>
    requires schema { IsSchema schema.now }
    requires layout { layout.now ≡ sizes_of schema.now }
    requires record { record_in refusal < sum layout.now }
    ensures line { IfOk result (λ line. line
        ≡ refused_line schema.now attempt.epoch attempt.worker attempt.index refusal) }
    ensures effect { IfOk result IsEffect }
{
    let Attempt {
        epoch,
        worker,
        index,
    } = attempt;
    let (t, key) = layout.place(record_in(refusal));
    let table = Bytes::from_slice(alloc, schema.name(t).as_bytes())?;
    Ok(match refusal {
        Refusal::Locked { word, .. } => Middle::Locked {
            epoch,
            worker,
            index,
            table,
            key,
            word,
        },
        Refusal::Changed { seen, found, .. } => Middle::Changed {
            epoch,
            worker,
            index,
            table,
            key,
            seen,
            found,
        },
    })
}

/// The line of the attempt that a step of a worker tells as refused, if it tells one.
pub fn step_line(
    alloc: Global,
    schema: &Schema,
    layout: &Layout,
    worker: u32,
    stepped: &Stepped,
) -> Result<Option<Middle>, Memory>
    requires schema { IsSchema schema.now }
    requires layout { layout.now ≡ sizes_of schema.now }
    requires names { IfSome stepped.now.moved (λ moved. NamesRecord schema.now moved.refused) }
    ensures line { IfOk result (λ line. option_to_list line
        ≡ flat_map (line_reported schema.now) (option_to_list (line_of worker stepped.now))) }
    ensures effect { IfOk result (λ line. All IsEffect (option_to_list line)) }
{
    let Some(moved) = &stepped.moved else {
        return Ok(None);
    };
    let Some(refusal) = moved.refused else {
        return Ok(None);
    };
    let attempt = Attempt {
        epoch: stepped.epoch,
        worker,
        index: stepped.index,
    };
    Ok(Some(refused_line(alloc, schema, layout, attempt, refusal)?))
}

/// The record of a refusal.
fn record_in(refusal: Refusal) -> u32
    ensures { result ≡ record_in refusal }
{
    match refusal {
        Refusal::Locked { rec, .. } | Refusal::Changed { rec, .. } => rec,
    }
}

/// Appends the line of a message that a node refused. After `Memory` the lines are as before.
pub fn push_denied(
    lines: &mut Lines,
    number: u64,
    node: u32,
    refused: Refused,
) -> Result<(), Memory>
    ensures { OnOk result (lines.new ≡ lines.old ++ denied_lines number node refused) }
{
    lines.push(match refused {
        Refused::Promised { promised } => Middle::DeniedPromised {
            number,
            node,
            promised,
        },
        Refused::OtherBallot { ballot } => Middle::DeniedBallot {
            number,
            node,
            ballot,
        },
        Refused::OutOfOrder { len } => Middle::DeniedOrder { number, node, len },
        Refused::Memory => return Ok(()),
    })
}
