//! A leader of one key and two workers.

ghost use Rattle.std.specs.Prelude.{◌≡◌, ◌≤◌, IfOk, All, length};
ghost use Rattle.rl_value.specs.Tables.{columns_of};
ghost use Rattle.rl_tables.specs.Numbers.{sizes_of};
ghost use Rattle.rl_txn.specs.Fits.{TxnFits, ListsFit};
ghost use Rattle.rl_worker.specs.Workers.{RecordsFit, WorkerFits};

use rl_base::list::Stamps;
use rl_base::memory::Memory;
use rl_tables::layout::Layout;
use rl_txn::op::{Lists, Op, Operand, Operands, Requests, Txn};
use rl_value::map::Map;
use rl_value::schema::Schema;
use rl_worker::act::{Act, Moved};
use rl_worker::words::Words;
use rl_worker::worker::Worker;
use std::alloc::Global;
use std::process::Abort;
use std::test::Fail;

/// The tables and the requests of an open leader.
#[derive(Drop)]
pub struct Leader {
    schema: Schema,
    layout: Layout,
    lists: Lists,
}

/// Adds 1 to the key's column, and puts the sum out.
fn adds_one(alloc: Global, schema: &Schema) -> Result<Txn, Memory>
    requires tables { length schema.now ≡ 1 }
    requires columns { columns_of schema.now 0 ≡ 1 }
    ensures { IfOk result (λ txn. TxnFits schema.now txn) }
{
    let (table, key) = (0, Operand::Num(0));
    let mut values = Operands::new(alloc);
    values.push(Operand::Reg(0))?;
    let mut txn = Txn::new(alloc);
    txn.push(Op::Get {
        table,
        key,
        column: 0,
        d: 0,
    })?;
    txn.push(Op::Add {
        d: 0,
        a: Operand::Reg(0),
        b: Operand::Num(1),
    })?;
    txn.push(Op::Put { table, key, values })?;
    txn.push(Op::Out { a: Operand::Reg(0) })?;
    Ok(txn)
}

/// The list of a worker with this one request.
fn list_of(alloc: Global, schema: &Schema) -> Result<Requests, Memory>
    requires tables { length schema.now ≡ 1 }
    requires columns { columns_of schema.now 0 ≡ 1 }
    ensures fits { IfOk result (λ list. All (TxnFits schema.now) list) }
    ensures one { IfOk result (λ list. length list ≡ 1) }
{
    let mut list = Requests::new(alloc);
    list.push(adds_one(alloc, schema)?)?;
    Ok(list)
}

/// One key with no row and this stamp, and two workers that each add 1 to it.
pub fn opened(alloc: Global, stamp: u64) -> Result<(Leader, Words), Fail>
    requires { stamp ≤ 9 }
    ensures layout { IfOk result (λ opened. opened.0.layout ≡ sizes_of opened.0.schema) }
    ensures lists { IfOk result (λ opened. ListsFit opened.0.schema opened.0.lists) }
    ensures two { IfOk result (λ opened. length opened.0.lists ≡ 2) }
    ensures records { IfOk result (λ opened. RecordsFit opened.0.schema opened.1.records.items) }
{
    let mut schema = Schema::new(alloc);
    schema.declare(alloc, "a", 1, 1)?;
    let layout = Layout::new(alloc, &schema)?;
    let mut stamps = Stamps::new(alloc);
    stamps.push(stamp)?;
    let map = Map::new(alloc);
    let words = Words::at(alloc, &layout, &schema, &map, &stamps)?;
    let mut lists = Lists::new(alloc);
    lists.push(list_of(alloc, &schema)?)?;
    lists.push(list_of(alloc, &schema)?)?;
    let leader = Leader {
        schema,
        layout,
        lists,
    };
    Ok((leader, words))
}

/// A worker makes some steps. Answers what the last one came to.
pub fn steps(
    rt: &impl Abort,
    alloc: Global,
    leader: &Leader,
    words: &mut Words,
    worker: &mut Worker,
    count: u32,
) -> Result<Moved, Memory>
    requires layout { leader.now.layout ≡ sizes_of leader.now.schema }
    requires lists { ListsFit leader.now.schema leader.now.lists }
    requires records { RecordsFit leader.now.schema words.old.records.items }
    requires fits { WorkerFits leader.now.schema leader.now.lists worker.old }
    ensures records { IfOk result (λ _. RecordsFit leader.now.schema words.new.records.items) }
    ensures fits { IfOk result (λ _. WorkerFits leader.now.schema leader.now.lists worker.new) }
{
    let mut last = Moved::by(Act::Rest, None);
    for _step in 0..count {
        assert!(rt; words.next < 10);
        last = worker.step(alloc, words, &leader.layout, &leader.schema, &leader.lists)?;
    }
    Ok(last)
}
