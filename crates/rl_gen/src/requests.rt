//! The requests of a generated script.

ghost use Rattle.std.specs.Prelude.{◌≡◌, ◌≤◌, ◌<◌, ◌+◌, [], ◌∷◌, ◌^◌, IfOk, replicate};
ghost use Rattle.rl_gen.specs.Requests.{other_account, transfer, request_of, lists_of};

use rl_base::memory::Memory;
use rl_txn::op::{Lists, Op, Operand, Operands, Rel, Requests, Txn};
use std::alloc::Global;

/// The requests of all workers, dealt in turn.
#[tactic(auto, using(crate::proofs::Dealt::one_more_request))]
pub fn lists_of(alloc: Global, seed: u32, workers: u32, requests: u32) -> Result<Lists, Memory>
    requires { 1 ≤ workers }
    ensures { IfOk result (λ lists. lists ≡ lists_of seed workers requests) }
{
    let mut lists = empty_lists(alloc, workers)?;
    for done in 0..requests {
        let worker = (done % workers) as usize;
        let request = request_of(alloc, u64::from(seed), u64::from(done) + 1)?;
        lists.push_at(worker, request)?;
    }
    Ok(lists)
}

/// A list without requests for each worker.
fn empty_lists(alloc: Global, workers: u32) -> Result<Lists, Memory>
    ensures { IfOk result (λ lists. lists ≡ replicate workers []) }
{
    let mut lists = Lists::new(alloc);
    for worker in 0..workers {
        lists.push(Requests::new(alloc))?;
    }
    Ok(lists)
}

/// The request of a number.
fn request_of(alloc: Global, seed: u64, request: u64) -> Result<Txn, Memory>
    requires seed { seed < 2 ^ 32 }
    requires request { request ≤ 2 ^ 32 }
    ensures { IfOk result (λ txn. txn ≡ request_of seed request) }
{
    let from = (seed + request) % 64;
    let to = other_account(from, (seed + 3 * request + 1) % 64);
    transfer(alloc, from, to, request % 9 + 1)
}

/// Another account than this, and the next where they are the same.
fn other_account(from: u64, to: u64) -> u64
    requires { to < 64 }
    ensures { result ≡ other_account from to }
{
    if from == to { (to + 1) % 64 } else { to }
}

/// An amount goes from one account to another, where there is as much.
#[tactic(auto, unfolding(crate::specs::Requests::transfer))]
fn transfer(alloc: Global, from: u64, to: u64, much: u64) -> Result<Txn, Memory>
    ensures { IfOk result (λ txn. txn ≡ transfer from to much) }
{
    let (from, to, much) = (Operand::Num(from), Operand::Num(to), Operand::Num(much));
    let (left, right) = (Operand::Reg(0), Operand::Reg(1));
    let mut txn = Txn::new(alloc);
    txn.push(get(from, 0))?;
    txn.push(Op::Need {
        a: left,
        rel: Rel::Ge,
        b: much,
    })?;
    txn.push(Op::Sub {
        d: 0,
        a: left,
        b: much,
    })?;
    txn.push(put(alloc, from, left)?)?;
    txn.push(get(to, 1))?;
    txn.push(Op::Add {
        d: 1,
        a: right,
        b: much,
    })?;
    txn.push(put(alloc, to, right)?)?;
    Ok(txn)
}

/// A register becomes what an account has.
fn get(account: Operand, d: u32) -> Op
    ensures { result ≡ Op.Get 0 account 0 d }
{
    Op::Get {
        table: 0,
        key: account,
        column: 0,
        d,
    }
}

/// An account has what a register has.
fn put(alloc: Global, account: Operand, value: Operand) -> Result<Op, Memory>
    ensures { IfOk result (λ op. op ≡ Op.Put 0 account (value ∷ [])) }
{
    let mut values = Operands::new(alloc);
    values.push(value)?;
    Ok(Op::Put {
        table: 0,
        key: account,
        values,
    })
}
