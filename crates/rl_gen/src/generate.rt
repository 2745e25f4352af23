//! A generated script.

ghost use Rattle.std.specs.Prelude.{◌≡◌, ◌≤◌, ◌⊎◌, ◌^◌, ◌<◌, Err, None, IfOk, IfErr, IfSome, IsSomeAnd};
ghost use Rattle.rl_script.specs.Fits.{ScriptFits};
ghost use Rattle.rl_gen.specs.Generated.{passed_limit, accounts, balances, generated};

use crate::requests::lists_of;
use crate::schedule::events_of;
use rl_base::limit::{GENERATED, LimitName, NODES, WORKERS};
use rl_base::memory::Memory;
use rl_script::fault::name_of_limit;
use rl_script::script::{Script, Stops};
use rl_value::map::Map;
use rl_value::row::Row;
use rl_value::schema::{DeclareError, Schema};
use std::alloc::Global;
use thiserror::Error;

/// Why no script was generated.
#[derive(Clone, Copy, Debug, PartialEq, Eq, Error)]
pub enum GenError {
    /// It would pass a limit.
    #[error("limit {word} {limit}", word = name_of_limit(*.name))]
    GenLimit { name: LimitName, limit: u32 },
    /// There was no memory left.
    #[error("memory")]
    Memory,
}

impl From<Memory> for GenError {
    ghost use Rattle.std.specs.Prelude.{◌≡◌};
    ghost use Rattle.rl_gen.specs.declared.generate.GenError.TheVariants.{Memory};

    ghost from_gives = { λ _ e. e ≡ Memory };

    fn from(_e: Memory) -> GenError {
        GenError::Memory
    }
}

/// The script of a seed, with some nodes, workers and requests, of each at least 1.
///
/// It has the table `acct` of 64 accounts with 1000 each. Request i moves i mod 9 + 1 from the account
/// `seed` + i to another one, and is refused where there is less; the requests go to the workers in
/// turn. After an election the workers make steps in turn, and messages are delivered; then come 2,000
/// random events, and then all that is pending is proposed, delivered and played.
///
/// `GenLimit` comes exactly for more than 7 nodes, 16 workers or 2,000 requests, judged in this order,
/// before any memory is taken.
pub fn generate(
    alloc: Global,
    seed: u32,
    nodes: u32,
    workers: u32,
    requests: u32,
) -> Result<Script, GenError>
    requires nodes { 1 ≤ nodes }
    requires workers { 1 ≤ workers }
    requires requests { 1 ≤ requests }
    ensures script { IfOk result (λ script. script ≡ generated seed nodes workers requests) }
    ensures fits { IfOk result (λ script. ScriptFits script) }
    ensures refused { IfSome (passed_limit nodes workers requests)
        (λ limit. result ≡ Err (GenError.GenLimit limit.0 limit.1)) }
    ensures why { IfErr result (λ e. (e ≡ GenError.Memory)
        ⊎ IsSomeAnd (passed_limit nodes workers requests) (λ limit. e ≡ GenError.GenLimit limit.0 limit.1)) }
{
    match passed_limit(nodes, workers, requests) {
        Some((name, limit)) => Err(GenError::GenLimit { name, limit }),
        None => Ok(generated(alloc, seed, nodes, workers, requests)?),
    }
}

/// The first limit that is passed, if one is.
fn passed_limit(nodes: u32, workers: u32, requests: u32) -> Option<(LimitName, u32)>
    ensures { result ≡ passed_limit nodes workers requests }
{
    if nodes > NODES {
        return Some((LimitName::Nodes, NODES));
    }
    if workers > WORKERS {
        return Some((LimitName::Workers, WORKERS));
    }
    if requests > GENERATED {
        return Some((LimitName::Requests, GENERATED));
    }
    None
}

/// The script of a seed, which keeps the limits.
fn generated(
    alloc: Global,
    seed: u32,
    nodes: u32,
    workers: u32,
    requests: u32,
) -> Result<Script, Memory>
    requires workers { 1 ≤ workers }
    requires limits { passed_limit nodes workers requests ≡ None }
    ensures { IfOk result (λ script. script ≡ generated seed nodes workers requests) }
{
    Ok(Script {
        schema: accounts(alloc)?,
        rows: balances(alloc, 64)?,
        nodes,
        workers,
        batch: 8,
        loss: 0,
        seed: u64::from(seed),
        stops: Stops::new(alloc),
        lists: lists_of(alloc, seed, workers, requests)?,
        events: events_of(alloc, seed, nodes, workers, requests)?,
    })
}

/// The table of the accounts.
fn accounts(alloc: Global) -> Result<Schema, Memory>
    ensures { IfOk result (λ schema. schema ≡ accounts) }
{
    let mut schema = Schema::new(alloc);
    match schema.declare(alloc, "acct", 64, 1) {
        Ok(_) => Ok(schema),
        Err(DeclareError::Memory) => Err(Memory),
        Err(_) => unreachable!(),
    }
}

/// What the first accounts have.
fn balances(alloc: Global, count: u32) -> Result<Map, Memory>
    ensures { IfOk result (λ rows. rows ≡ balances count) }
{
    let mut rows = Map::new(alloc);
    for account in 0..count {
        rows.put(0, account, Row::from_slice(&[1000]))?;
    }
    Ok(rows)
}
