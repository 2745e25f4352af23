//! A bank: one table of accounts, a store of them, and transactions on them.

ghost use Rattle.std.specs.Prelude.{◌≡◌, ℕ, ◌+◌, ◌^◌, ◌<◌, ◌≤◌, [], None, length, slice_index_or, IfOk};
ghost use Rattle.rl_value.specs.Tables.{columns_of};
ghost use Rattle.rl_txn.specs.Fits.{OpFits, TxnFits};
ghost use Rattle.rl_store.specs.Layout.{FitsColumns};
ghost use Rattle.rl_store.specs.Views.{IsAtRest};
ghost use Rattle.rl_occ.specs.Fits.{IsStoreOf};
ghost use Rattle.rl_store_tests.specs.Banks.{IsBank};

use rl_base::memory::Memory;
use rl_store::pass::Pass;
use rl_store::store::Store;
use rl_txn::op::{Op, Operand, Operands, Rel, Txn};
use rl_value::row::Row;
use rl_value::schema::{DeclareError, Schema};
use std::alloc::Global;

/// A schema of one table of accounts, each with a balance.
pub fn accounts(alloc: Global, size: u32) -> Result<Schema, DeclareError>
    requires { (1 ≤ size) × (size ≤ 65536) }
    ensures bank { IfOk result (λ schema. IsBank size schema) }
    ensures tables { IfOk result (λ schema. length schema ≡ 1) }
    ensures columns { IfOk result (λ schema. columns_of schema 0 ≡ 1) }
{
    let mut schema = Schema::new(alloc);
    schema.declare(alloc, "a", size, 1)?;
    Ok(schema)
}

/// A store of these accounts in epoch 1, each with this balance under stamp 0.
pub fn opened(
    alloc: Global,
    schema: &Schema,
    size: u32,
    balance: u64,
    tries: u64,
) -> Result<(Store, Pass), Memory>
    requires bank { IsBank size schema.now }
    requires size { size ≤ 65536 }
    requires tries { tries + 3 ≤ 2 ^ 40 }
    ensures store { IfOk result (λ made. IsStoreOf made.0.made schema.now) }
    ensures many { IfOk result (λ made. length made.0.made.columns ≡ size) }
    ensures table { IfOk result (λ made. made.1.table ≡ made.0.table) }
    ensures tries { IfOk result (λ made. made.1.view.tries ≡ tries) }
    ensures rest { IfOk result (λ made. IsAtRest made.1.view) }
{
    let count = size as usize;
    let columns = vec![in alloc; 1u32; count]?;
    let stamps = vec![in alloc; 0u64; count]?;
    let rows = balances(alloc, count, balance)?;
    Store::make(
        alloc,
        columns.as_slice(),
        stamps.as_slice(),
        rows.as_slice(),
        1,
        tries,
    )
}

/// So many rows with this balance.
fn balances(alloc: Global, count: usize, balance: u64) -> Result<Vec<Option<Row>>, Memory>
    ensures many { IfOk result (λ rows. length rows.items ≡ count) }
    ensures fit { IfOk result (λ rows. (r : ℕ) → FitsColumns 1 (slice_index_or rows.items r None)) }
{
    let mut rows = Vec::with_capacity(alloc, count)?;
    for _account in 0..count {
        rows.push(Some(Row::from_slice(&[balance])))?;
    }
    Ok(rows)
}

/// Moves an amount from one account to another, and puts out what the first one is left with. It
/// declines where the balance is too low.
pub fn transfer(
    alloc: Global,
    schema: &Schema,
    from: u32,
    to: u32,
    amount: u64,
) -> Result<Txn, Memory>
    requires tables { length schema.now ≡ 1 }
    requires columns { columns_of schema.now 0 ≡ 1 }
    ensures { IfOk result (λ txn. TxnFits schema.now txn) }
{
    let b = Operand::Num(amount);
    let mut txn = no_ops(alloc, schema);
    add(schema, &mut txn, get(schema, from, 0))?;
    add(schema, &mut txn, need(schema, 0, Rel::Ge, amount))?;
    add(
        schema,
        &mut txn,
        Op::Sub {
            d: 0,
            a: Operand::Reg(0),
            b,
        },
    )?;
    add(schema, &mut txn, put(alloc, schema, from, 0)?)?;
    add(schema, &mut txn, get(schema, to, 1))?;
    add(
        schema,
        &mut txn,
        Op::Add {
            d: 1,
            a: Operand::Reg(1),
            b,
        },
    )?;
    add(schema, &mut txn, put(alloc, schema, to, 1)?)?;
    add(schema, &mut txn, out(schema, 0))?;
    Ok(txn)
}

/// Puts out the sum of four balances, and makes it that of an account. It declines where there are not four accounts
/// from the first on.
pub fn scan(alloc: Global, schema: &Schema, from: u32, to: u32) -> Result<Txn, Memory>
    requires tables { length schema.now ≡ 1 }
    requires columns { columns_of schema.now 0 ≡ 1 }
    ensures { IfOk result (λ txn. TxnFits schema.now txn) }
{
    let mut txn = no_ops(alloc, schema);
    add(schema, &mut txn, sum_of_four(schema, from, 2))?;
    add(schema, &mut txn, out(schema, 2))?;
    add(schema, &mut txn, put(alloc, schema, to, 2)?)?;
    Ok(txn)
}

/// Closes an account, and puts out its last balance.
pub fn close_account(alloc: Global, schema: &Schema, key: u32) -> Result<Txn, Memory>
    requires tables { length schema.now ≡ 1 }
    requires columns { columns_of schema.now 0 ≡ 1 }
    ensures { IfOk result (λ txn. TxnFits schema.now txn) }
{
    let mut txn = no_ops(alloc, schema);
    add(schema, &mut txn, get(schema, key, 0))?;
    add(
        schema,
        &mut txn,
        Op::Del {
            table: 0,
            key: Operand::Num(key.into()),
        },
    )?;
    add(schema, &mut txn, out(schema, 0))?;
    Ok(txn)
}

/// Opens an account that is closed with a balance of 50, and declines at one that is open.
pub fn open_account(alloc: Global, schema: &Schema, key: u32) -> Result<Txn, Memory>
    requires tables { length schema.now ≡ 1 }
    requires columns { columns_of schema.now 0 ≡ 1 }
    ensures { IfOk result (λ txn. TxnFits schema.now txn) }
{
    let mut txn = no_ops(alloc, schema);
    add(
        schema,
        &mut txn,
        Op::Has {
            table: 0,
            key: Operand::Num(key.into()),
            d: 3,
        },
    )?;
    add(schema, &mut txn, need(schema, 3, Rel::Eq, 0))?;
    add(
        schema,
        &mut txn,
        Op::Set {
            d: 3,
            a: Operand::Num(50),
        },
    )?;
    add(schema, &mut txn, put(alloc, schema, key, 3)?)?;
    Ok(txn)
}

/// A transaction of no ops.
fn no_ops(alloc: Global, schema: &Schema) -> Txn
    ensures fits { TxnFits schema.now result }
    ensures empty { result ≡ [] }
{
    Txn::new(alloc)
}

/// One more op, that fits.
fn add(schema: &Schema, txn: &mut Txn, op: Op) -> Result<(), Memory>
    requires fits { TxnFits schema.now txn.old }
    requires op { OpFits schema.now op }
    requires room { length txn.old < 64 }
    ensures fits { IfOk result (λ _. TxnFits schema.now txn.new) }
    ensures more { IfOk result (λ _. length txn.new ≡ length txn.old + 1) }
{
    txn.push(op)
}

/// The register becomes the balance of an account, or 0 where the account is gone.
fn get(schema: &Schema, key: u32, d: u32) -> Op
    requires tables { length schema.now ≡ 1 }
    requires columns { columns_of schema.now 0 ≡ 1 }
    requires register { d < 16 }
    ensures { OpFits schema.now result }
{
    Op::Get {
        table: 0,
        key: Operand::Num(key.into()),
        column: 0,
        d,
    }
}

/// The register becomes the sum of the balances of four accounts.
fn sum_of_four(schema: &Schema, key: u32, d: u32) -> Op
    requires tables { length schema.now ≡ 1 }
    requires columns { columns_of schema.now 0 ≡ 1 }
    requires register { d < 16 }
    ensures { OpFits schema.now result }
{
    Op::Scan {
        table: 0,
        key: Operand::Num(key.into()),
        count: 4,
        column: 0,
        d,
    }
}

/// The balance of an account becomes that of a register.
fn put(alloc: Global, schema: &Schema, key: u32, d: u32) -> Result<Op, Memory>
    requires tables { length schema.now ≡ 1 }
    requires columns { columns_of schema.now 0 ≡ 1 }
    requires register { d < 16 }
    ensures { IfOk result (λ op. OpFits schema.now op) }
{
    let mut values = Operands::new(alloc);
    values.push(Operand::Reg(d))?;
    Ok(Op::Put {
        table: 0,
        key: Operand::Num(key.into()),
        values,
    })
}

/// Declines where a register is not in the relation to a number.
fn need(schema: &Schema, r: u32, rel: Rel, number: u64) -> Op
    requires register { r < 16 }
    ensures { OpFits schema.now result }
{
    Op::Need {
        a: Operand::Reg(r),
        rel,
        b: Operand::Num(number),
    }
}

/// Puts a register out.
fn out(schema: &Schema, r: u32) -> Op
    requires register { r < 16 }
    ensures { OpFits schema.now result }
{
    Op::Out { a: Operand::Reg(r) }
}
