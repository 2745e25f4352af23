//! The lines of a transaction.

ghost use Rattle.std.specs.Prelude.{◌≡◌, ◌≢◌, ◌<◌, ◌≤◌, List, [], ◌∷◌, All, MatchResult, Ok, IfOk, length, map};
ghost use Rattle.rl_value.specs.Tables.{columns_of};
ghost use Rattle.rl_txn.specs.Fits.{OperandFits, OpFits};
ghost use Rattle.rl_script.specs.Operations.{known_table, table_for, each_word, read_op};
ghost use Rattle.rl_script.specs.Answers.{Fails};
ghost use Rattle.rl_script.specs.Problems.{as_problem};
ghost use Rattle.rl_script.specs.Words.{operand};

use crate::fault::LineError;
use crate::line::OpWord;
use crate::word::{operand, register, relation};
use rl_events::kind::Kind;
use rl_events::word::within;
use rl_txn::op::{Op, Operand, Operands};
use rl_value::schema::Schema;
use std::alloc::Global;

/// The number of a table that is declared.
fn known_table(schema: &Schema, name: &str) -> Result<u32, Kind>
    ensures known { result ≡ known_table schema.now name.now }
    ensures there { IfOk result (λ t. t < length schema.now) }
{
    schema.find(name).ok_or(Kind::UnknownTable)
}

/// The table of a line that gives a whole row of some columns.
pub fn table_for(schema: &Schema, name: &str, count: usize) -> Result<u32, Kind>
    ensures table { result ≡ table_for schema.now name.now count }
    ensures there { IfOk result (λ t. t < length schema.now) }
    ensures columns { IfOk result (λ t. count ≡ columns_of schema.now t) }
    ensures some { IfOk result (λ _. 1 ≤ count) }
    ensures few { IfOk result (λ _. count ≤ 4) }
{
    match schema.find(name) {
        Some(t) if count == schema.columns(t) as usize => Ok(t),
        None if count >= 1 && count <= 4 => Err(Kind::UnknownTable),
        _ => Err(Kind::Count),
    }
}

/// The operands that some words are.
#[tactic(auto, using(crate::proofs::Each::each))]
fn operands(alloc: Global, words: &[&str]) -> Result<Operands, LineError>
    ensures operands { MatchResult result
        (λ operands. each_word operand (map (λ w. w.now) words.now) ≡ Ok operands)
        (λ e. Fails e (as_problem (each_word operand (map (λ w. w.now) words.now)))) }
    ensures count { IfOk result (λ operands. length operands ≡ length words.now) }
    ensures fit { IfOk result (λ operands. All OperandFits operands) }
{
    let mut operands = Operands::new(alloc);
    for word in words {
        match operand(word) {
            Ok(a) => operands.push(a)?,
            Err(kind) => return Err(kind.into()),
        }
    }
    Ok(operands)
}

/// `get T K C D`
fn get(schema: &Schema, table: &str, key: &str, column: &str, d: &str) -> Result<Op, Kind>
    ensures op { result ≡ read_op schema.now OpWord.Get (table.now ∷ key.now ∷ column.now ∷ d.now ∷ []) }
    ensures fits { IfOk result (λ op. OpFits schema.now op) }
{
    let table = known_table(schema, table)?;
    let key = operand(key)?;
    let column = within(0, schema.columns(table) - 1, column)?;
    let d = register(d)?;
    Ok(Op::Get {
        table,
        key,
        column,
        d,
    })
}

/// `put T K A0` up to the last column
fn put(
    alloc: Global,
    schema: &Schema,
    table: &str,
    key: &str,
    values: &[&str],
) -> Result<Op, LineError>
    ensures op { MatchResult result
        (λ op. read_op schema.now OpWord.Put (table.now ∷ key.now ∷ map (λ w. w.now) values.now) ≡ Ok op)
        (λ e. Fails e (as_problem (read_op schema.now OpWord.Put (table.now ∷ key.now ∷ map (λ w. w.now) values.now)))) }
    ensures fits { IfOk result (λ op. OpFits schema.now op) }
{
    let table = table_for(schema, table, values.len())?;
    let key = operand(key)?;
    let values = operands(alloc, values)?;
    Ok(Op::Put { table, key, values })
}

/// `scan T K N C D`
fn scan(
    schema: &Schema,
    table: &str,
    key: &str,
    count: &str,
    column: &str,
    d: &str,
) -> Result<Op, Kind>
    ensures op { result ≡ read_op schema.now OpWord.Scan (table.now ∷ key.now ∷ count.now ∷ column.now ∷ d.now ∷ []) }
    ensures fits { IfOk result (λ op. OpFits schema.now op) }
{
    let table = known_table(schema, table)?;
    let key = operand(key)?;
    let count = within(1, 256, count)?;
    let column = within(0, schema.columns(table) - 1, column)?;
    let d = register(d)?;
    Ok(Op::Scan {
        table,
        key,
        count,
        column,
        d,
    })
}

/// The op of the line that begins with an op's word. `words` are those after it.
pub fn read_op(
    alloc: Global,
    schema: &Schema,
    word: OpWord,
    words: &[&str],
) -> Result<Op, LineError>
    ensures op { MatchResult result
        (λ op. read_op schema.now word (map (λ w. w.now) words.now) ≡ Ok op)
        (λ e. Fails e (as_problem (read_op schema.now word (map (λ w. w.now) words.now)))) }
    ensures fits { IfOk result (λ op. OpFits schema.now op) }
{
    match word {
        OpWord::Put => match words {
            [table, key, values @ ..] => put(alloc, schema, table, key, values),
            _ => Err(Kind::Count.into()),
        },
        _ => Ok(small_op(schema, word, words)?),
    }
}

/// The op of such a line, but for `put`.
fn small_op(schema: &Schema, word: OpWord, words: &[&str]) -> Result<Op, Kind>
    requires { word ≢ OpWord.Put }
    ensures op { result ≡ read_op schema.now word (map (λ w. w.now) words.now) }
    ensures fits { IfOk result (λ op. OpFits schema.now op) }
{
    match words {
        [a] => op_of_one(schema, word, a),
        [a, b] => op_of_two(schema, word, a, b),
        [a, b, c] => op_of_three(schema, word, a, b, c),
        [a, b, c, d] => op_of_four(schema, word, a, b, c, d),
        [table, key, count, column, d] if word == OpWord::Scan => {
            scan(schema, table, key, count, column, d)
        }
        _ => Err(Kind::Count),
    }
}

/// The op of an op's word and one more.
fn op_of_one(schema: &Schema, word: OpWord, a: &str) -> Result<Op, Kind>
    requires { word ≢ OpWord.Put }
    ensures op { result ≡ read_op schema.now word (a.now ∷ []) }
    ensures fits { IfOk result (λ op. OpFits schema.now op) }
{
    match word {
        OpWord::Out => Ok(Op::Out { a: operand(a)? }),
        _ => Err(Kind::Count),
    }
}

/// The op of an op's word and two more.
fn op_of_two(schema: &Schema, word: OpWord, a: &str, b: &str) -> Result<Op, Kind>
    requires { word ≢ OpWord.Put }
    ensures op { result ≡ read_op schema.now word (a.now ∷ b.now ∷ []) }
    ensures fits { IfOk result (λ op. OpFits schema.now op) }
{
    match word {
        OpWord::Set => Ok(Op::Set {
            d: register(a)?,
            a: operand(b)?,
        }),
        OpWord::Del => Ok(Op::Del {
            table: known_table(schema, a)?,
            key: operand(b)?,
        }),
        _ => Err(Kind::Count),
    }
}

/// The op of an op's word and three more.
fn op_of_three(schema: &Schema, word: OpWord, a: &str, b: &str, c: &str) -> Result<Op, Kind>
    requires { word ≢ OpWord.Put }
    ensures op { result ≡ read_op schema.now word (a.now ∷ b.now ∷ c.now ∷ []) }
    ensures fits { IfOk result (λ op. OpFits schema.now op) }
{
    match word {
        OpWord::Add => Ok(Op::Add {
            d: register(a)?,
            a: operand(b)?,
            b: operand(c)?,
        }),
        OpWord::Sub => Ok(Op::Sub {
            d: register(a)?,
            a: operand(b)?,
            b: operand(c)?,
        }),
        OpWord::Mul => Ok(Op::Mul {
            d: register(a)?,
            a: operand(b)?,
            b: operand(c)?,
        }),
        OpWord::Has => Ok(Op::Has {
            table: known_table(schema, a)?,
            key: operand(b)?,
            d: register(c)?,
        }),
        OpWord::Need => Ok(Op::Need {
            a: operand(a)?,
            rel: relation(b)?,
            b: operand(c)?,
        }),
        _ => Err(Kind::Count),
    }
}

/// The op of an op's word and four more.
fn op_of_four(schema: &Schema, word: OpWord, a: &str, b: &str, c: &str, d: &str) -> Result<Op, Kind>
    requires { word ≢ OpWord.Put }
    ensures op { result ≡ read_op schema.now word (a.now ∷ b.now ∷ c.now ∷ d.now ∷ []) }
    ensures fits { IfOk result (λ op. OpFits schema.now op) }
{
    match word {
        OpWord::Get => get(schema, a, b, c, d),
        OpWord::Skip => Ok(Op::Skip {
            a: operand(a)?,
            rel: relation(b)?,
            b: operand(c)?,
            count: within(1, 64, d)?,
        }),
        _ => Err(Kind::Count),
    }
}
