//! What a transaction does.

ghost use Rattle.std.specs.Prelude.{◌≡◌, IfOk};
ghost use Rattle.rl_txn.specs.Fits.{TxnFits};
ghost use Rattle.rl_txn.specs.Run.{run};

use crate::eval::{Eval, Wants};
use crate::op::Txn;
use crate::write::{Reply, Writes};
use rl_base::memory::Memory;
use rl_value::map::Map;
use rl_value::row::Row;
use rl_value::schema::Schema;
use std::alloc::Global;

/// The ops of a transaction in order on some rows: its reply and its writes.
pub fn run(alloc: Global, schema: &Schema, txn: &Txn, m: &Map) -> Result<(Reply, Writes), Memory>
    requires { TxnFits schema.now txn.now }
    ensures { IfOk result (λ done. done ≡ run schema.now txn.now m.now) }
{
    let mut eval = Eval::start(alloc, schema, txn)?;
    while let Wants::Read { table, key } = eval.advance(schema, txn) {
        eval.give(m.get(table, key).map(Row::copy));
    }
    Ok(eval.finish())
}
