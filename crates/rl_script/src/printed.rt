//! The printed form of a script.

ghost use Rattle.std.specs.Prelude.{◌≡◌, ◌-◌, ◌^◌, ◌<◌, ◌∷◌, [], ◌++◌, All, IfOk, Ok, OnOk, codes, length, map};
ghost use Rattle.std.specs.List.{flat_map, range_with_len};
ghost use Rattle.std.specs.Option.{option_copied};
ghost use Rattle.std.specs.String.{string_bytes};
ghost use Rattle.std.specs.Fmt.{decimal};
ghost use Rattle.rl_value.specs.Tables.{columns_of, name_of, size_of};
ghost use Rattle.rl_txn.specs.Fits.{OpFits, TxnFits, ListsFit};
ghost use Rattle.rl_text.specs.Printed.{line_of, text_of};
ghost use Rattle.rl_script.specs.Fits.{ScriptFits};
ghost use Rattle.rl_script.specs.Read.{read};
ghost use Rattle.rl_script.specs.Printed.{event_lines, list_lines, op_words, operand_word, printed, register_word, relation_word, row_lines, rows_of_table, setting_lines, stop_line, table_line, txn_lines};

use crate::script::Script;
use rl_base::list::Bytes;
use rl_base::memory::Memory;
use rl_events::event::Event;
use rl_events::printed::push_event;
use rl_text::printed::push_numbers;
use rl_txn::op::{Lists, Op, Operand, Rel, Requests, Txn};
use rl_value::map::Map;
use rl_value::row::Row;
use rl_value::schema::Schema;
use std::alloc::{AllocError, Global};

/// An operand, after a space.
fn push_operand(out: &mut String, operand: Operand) -> Result<(), AllocError>
    ensures { OnOk result (string_bytes out.new ≡ string_bytes out.old ++ 32 ∷ operand_word operand) }
{
    match operand {
        Operand::Reg(r) => write!(out, " r{r}"),
        Operand::Num(n) => write!(out, " {n}"),
    }
}

/// Operands, each after a space.
fn push_operands(out: &mut String, operands: &[Operand]) -> Result<(), AllocError>
    ensures { OnOk result (string_bytes out.new ≡ string_bytes out.old ++ flat_map (λ a. 32 ∷ operand_word a) operands.now) }
{
    for operand in operands {
        push_operand(out, *operand)?;
    }
    Ok(())
}

/// A relation, after a space.
fn push_relation(out: &mut String, rel: Rel) -> Result<(), AllocError>
    ensures { OnOk result (string_bytes out.new ≡ string_bytes out.old ++ 32 ∷ relation_word rel) }
{
    out.push_str(match rel {
        Rel::Eq => " eq",
        Rel::Ne => " ne",
        Rel::Lt => " lt",
        Rel::Le => " le",
        Rel::Gt => " gt",
        Rel::Ge => " ge",
    })
}

/// `set`, a register and an operand.
fn push_set(out: &mut String, d: u32, a: Operand) -> Result<(), AllocError>
    ensures { OnOk result (string_bytes out.new ≡ string_bytes out.old ++ line_of (codes "set" ∷ register_word d ∷ operand_word a ∷ [])) }
{
    write!(out, "set r{d}")?;
    push_operand(out, a)
}

/// `out` and an operand.
fn push_out(out: &mut String, a: Operand) -> Result<(), AllocError>
    ensures { OnOk result (string_bytes out.new ≡ string_bytes out.old ++ line_of (codes "out" ∷ operand_word a ∷ [])) }
{
    out.push_str("out")?;
    push_operand(out, a)
}

/// A word, a register and two operands.
fn push_sum(out: &mut String, word: &str, d: u32, a: Operand, b: Operand) -> Result<(), AllocError>
    ensures { OnOk result (string_bytes out.new ≡ string_bytes out.old ++ line_of (word.now ∷ register_word d ∷ operand_word a ∷ operand_word b ∷ [])) }
{
    write!(out, "{word} r{d}")?;
    push_operand(out, a)?;
    push_operand(out, b)
}

/// A word, a table and a key.
fn push_key(
    out: &mut String,
    word: &str,
    schema: &Schema,
    t: u32,
    key: Operand,
) -> Result<(), AllocError>
    requires { t < length schema.now }
    ensures { OnOk result (string_bytes out.new ≡ string_bytes out.old ++ line_of (word.now ∷ name_of schema.now t ∷ operand_word key ∷ [])) }
{
    write!(out, "{word} {}", schema.name(t))?;
    push_operand(out, key)
}

/// `has`, a table, a key and a register.
fn push_has(
    out: &mut String,
    schema: &Schema,
    t: u32,
    key: Operand,
    d: u32,
) -> Result<(), AllocError>
    requires { t < length schema.now }
    ensures { OnOk result (string_bytes out.new ≡ string_bytes out.old ++ line_of (codes "has" ∷ name_of schema.now t ∷ operand_word key ∷ register_word d ∷ [])) }
{
    push_key(out, "has", schema, t, key)?;
    write!(out, " r{d}")
}

/// A word and a relation between its operands.
fn push_test(
    out: &mut String,
    word: &str,
    a: Operand,
    rel: Rel,
    b: Operand,
) -> Result<(), AllocError>
    ensures { OnOk result (string_bytes out.new ≡ string_bytes out.old ++ line_of (word.now ∷ operand_word a ∷ relation_word rel ∷ operand_word b ∷ [])) }
{
    out.push_str(word)?;
    push_operand(out, a)?;
    push_relation(out, rel)?;
    push_operand(out, b)
}

/// The line of an op, without a line end.
fn push_op(out: &mut String, schema: &Schema, op: &Op) -> Result<(), AllocError>
    requires { OpFits schema.now op.now }
    ensures { OnOk result (string_bytes out.new ≡ string_bytes out.old ++ line_of (op_words schema.now op.now)) }
{
    match op {
        Op::Set { d, a } => push_set(out, *d, *a),
        Op::Add { d, a, b } => push_sum(out, "add", *d, *a, *b),
        Op::Sub { d, a, b } => push_sum(out, "sub", *d, *a, *b),
        Op::Mul { d, a, b } => push_sum(out, "mul", *d, *a, *b),
        Op::Get {
            table,
            key,
            column,
            d,
        } => {
            push_key(out, "get", schema, *table, *key)?;
            write!(out, " {column} r{d}")
        }
        Op::Has { table, key, d } => push_has(out, schema, *table, *key, *d),
        Op::Put { table, key, values } => {
            push_key(out, "put", schema, *table, *key)?;
            push_operands(out, values.as_slice())
        }
        Op::Del { table, key } => push_key(out, "del", schema, *table, *key),
        Op::Scan {
            table,
            key,
            count,
            column,
            d,
        } => {
            push_key(out, "scan", schema, *table, *key)?;
            write!(out, " {count} {column} r{d}")
        }
        Op::Need { a, rel, b } => push_test(out, "need", *a, *rel, *b),
        Op::Skip { a, rel, b, count } => {
            push_test(out, "skip", *a, *rel, *b)?;
            write!(out, " {count}")
        }
        Op::Out { a } => push_out(out, *a),
    }
}

/// The lines of some ops.
fn push_ops(out: &mut String, schema: &Schema, txn: &Txn) -> Result<(), AllocError>
    requires { All (OpFits schema.now) txn.now }
    ensures { OnOk result (string_bytes out.new ≡ string_bytes out.old ++ text_of (map (op_words schema.now) txn.now)) }
{
    for op in txn.as_slice() {
        push_op(out, schema, op)?;
        out.push_str("\n")?;
    }
    Ok(())
}

/// A transaction of a worker.
fn push_txn(out: &mut String, schema: &Schema, worker: u32, txn: &Txn) -> Result<(), AllocError>
    requires { TxnFits schema.now txn.now }
    ensures { OnOk result (string_bytes out.new ≡ string_bytes out.old ++ text_of (txn_lines schema.now worker txn.now)) }
{
    write!(out, "txn {worker}\n")?;
    push_ops(out, schema, txn)?;
    out.push_str("end\n")
}

/// The transactions of a worker.
fn push_list(
    out: &mut String,
    schema: &Schema,
    worker: u32,
    list: &Requests,
) -> Result<(), AllocError>
    requires { All (TxnFits schema.now) list.now }
    ensures { OnOk result (string_bytes out.new ≡ string_bytes out.old ++ text_of (flat_map (txn_lines schema.now worker) list.now)) }
{
    for txn in list.as_slice() {
        push_txn(out, schema, worker, txn)?;
    }
    Ok(())
}

/// The transactions of all workers.
fn push_lists(out: &mut String, schema: &Schema, lists: &Lists) -> Result<(), AllocError>
    requires { ListsFit schema.now lists.now }
    ensures { OnOk result (string_bytes out.new ≡ string_bytes out.old ++ text_of (list_lines schema.now 1 lists.now)) }
{
    for i in 0..lists.len() {
        push_list(out, schema, i as u32 + 1, lists.get(i))?;
    }
    Ok(())
}

/// The stops.
fn push_stops(out: &mut String, stops: &[u64]) -> Result<(), AllocError>
    ensures { OnOk result (string_bytes out.new ≡ string_bytes out.old ++ text_of (map stop_line stops.now)) }
{
    for d in stops {
        write!(out, "stop {d}\n")?;
    }
    Ok(())
}

/// The settings, and the stops after them.
fn push_settings(out: &mut String, script: &Script) -> Result<(), AllocError>
    ensures { OnOk result (string_bytes out.new ≡ string_bytes out.old ++ text_of (setting_lines script.now)) }
{
    write!(out, "nodes {}\n", script.nodes)?;
    write!(out, "workers {}\n", script.workers)?;
    write!(out, "batch {}\n", script.batch)?;
    write!(out, "loss {}\n", script.loss)?;
    write!(out, "seed {}\n", script.seed)?;
    push_stops(out, script.stops.as_slice())
}

/// The line of a table.
fn push_table(out: &mut String, schema: &Schema, t: u32) -> Result<(), AllocError>
    requires { t < length schema.now }
    ensures { OnOk result (string_bytes out.new ≡ string_bytes out.old ++ text_of ((codes "table" ∷ name_of schema.now t ∷ decimal (size_of schema.now t) ∷ decimal (columns_of schema.now t) ∷ []) ∷ [])) }
{
    write!(out, "table {}", schema.name(t))?;
    write!(out, " {} {}\n", schema.size(t), schema.columns(t))
}

/// The tables.
fn push_tables(out: &mut String, schema: &Schema) -> Result<(), AllocError>
    ensures { OnOk result (string_bytes out.new ≡ string_bytes out.old ++ text_of (map table_line schema.now)) }
{
    for t in 0..schema.count() {
        push_table(out, schema, t)?;
    }
    Ok(())
}

/// The words of a row.
fn push_row_words(out: &mut String, name: &str, key: u32, row: &Row) -> Result<(), AllocError>
    ensures { OnOk result (string_bytes out.new ≡ string_bytes out.old ++ line_of (codes "row" ∷ name.now ∷ decimal key ∷ map decimal row.now)) }
{
    write!(out, "row {name} {key}")?;
    push_numbers(out, row.as_slice())
}

/// The line of a row, where it is present.
fn push_row(out: &mut String, name: &str, key: u32, row: Option<&Row>) -> Result<(), AllocError>
    ensures { OnOk result (string_bytes out.new ≡ string_bytes out.old ++ text_of (row_lines name.now key (option_copied row.entry))) }
{
    let Some(row) = row else {
        return Ok(());
    };
    push_row_words(out, name, key, row)?;
    out.push_str("\n")
}

/// The rows of a table, by key.
fn push_rows_of(out: &mut String, schema: &Schema, rows: &Map, t: u32) -> Result<(), AllocError>
    requires { t < length schema.now }
    ensures { OnOk result (string_bytes out.new ≡ string_bytes out.old ++ text_of (rows_of_table schema.now rows.now t)) }
{
    for key in 0..schema.size(t) {
        push_row(out, schema.name(t), key, rows.get(t, key))?;
    }
    Ok(())
}

/// The rows of all tables.
fn push_rows(out: &mut String, schema: &Schema, rows: &Map) -> Result<(), AllocError>
    ensures { OnOk result (string_bytes out.new ≡ string_bytes out.old ++ text_of (flat_map (rows_of_table schema.now rows.now) (range_with_len 0 (length schema.now)))) }
{
    for t in 0..schema.count() {
        push_rows_of(out, schema, rows, t)?;
    }
    Ok(())
}

/// `events` and the events, where there are any.
fn push_events(out: &mut String, events: &[Event]) -> Result<(), AllocError>
    ensures { OnOk result (string_bytes out.new ≡ string_bytes out.old ++ text_of (event_lines events.now)) }
{
    if events.is_empty() {
        return Ok(());
    }
    out.push_str("events\n")?;
    for event in events {
        push_event(out, event)?;
        out.push_str("\n")?;
    }
    Ok(())
}

/// The text of a script that keeps the language's ranges and limits: `rolis 1`; the settings, given or
/// not, and the stops; the tables; the rows by table and key; the transactions by list and place; and
/// `events` with the events, where there are any. One space is between two words, and each line is
/// ended. `parse` takes the text, and answers the script again.
pub fn print(alloc: Global, script: &Script) -> Result<Bytes, Memory>
    requires { ScriptFits script.now }
    ensures text { IfOk result (λ text. text ≡ printed script.now) }
    ensures read { IfOk result (λ text. read text ≡ Ok script.now) }
    ensures short { IfOk result (λ text. length text < 2 ^ 32 - 1) }
{
    let mut out = String::from_str(alloc, "rolis 1\n")?;
    push_settings(&mut out, script)?;
    push_tables(&mut out, &script.schema)?;
    push_rows(&mut out, &script.schema, &script.rows)?;
    push_lists(&mut out, &script.schema, &script.lists)?;
    push_events(&mut out, script.events.as_slice())?;
    Ok(Bytes::from_vec(out.into_bytes()))
}
