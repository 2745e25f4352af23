//! Commits with a limit, and one without a try.

use crate::bank::{accounts, opened, transfer};
use crate::reads::look;
use crate::ready::locked;
use rl_base::refusal::Refusal;
use rl_occ::outcome::{CommitError, Halt};
use rl_tables::layout::Layout;
use std::test::Fail;

#[test]
fn a_commit_up_to_its_limit_is_decided(rt: HostRuntime) -> Result<(), Fail> {
    let alloc = rt.alloc();
    let schema = accounts(alloc, 2)?;
    let layout = Layout::new(alloc, &schema)?;
    let (store, pass) = opened(alloc, &schema, 2, 10, 4)?;
    let txn = transfer(alloc, &schema, 0, 1, 3)?;
    let attempt = locked(alloc, &store, &layout, &schema, &txn, pass)?;
    let (halt, result) = attempt.commit_below(2);
    let Halt::Free(pass) = halt else {
        return Err("it was halted".into());
    };
    let Ok(decided) = result else {
        return Err("it wasn't decided".into());
    };
    assert_eq!(rt; decided.stamp.seq, 2);
    assert_eq!(rt; decided.reply.outs.as_slice(), [7].as_slice());
    assert_eq!(rt; pass.tries(), 3);
    Ok(())
}

#[test]
fn a_commit_above_its_limit_keeps_its_locks_until_rest(rt: HostRuntime) -> Result<(), Fail> {
    let alloc = rt.alloc();
    let schema = accounts(alloc, 2)?;
    let layout = Layout::new(alloc, &schema)?;
    let (store, mut pass) = opened(alloc, &schema, 2, 10, 4)?;
    let other = pass.split(&store, 2);
    let txn = transfer(alloc, &schema, 0, 1, 3)?;
    let attempt = locked(alloc, &store, &layout, &schema, &txn, pass)?;
    let (halt, result) = attempt.commit_below(1);
    let Err(error) = result else {
        return Err("it was decided".into());
    };
    let CommitError::Above { seq } = error else {
        return Err("the seq wasn't above".into());
    };
    let Halt::Held(halted) = halt else {
        return Err("it wasn't halted".into());
    };
    assert_eq!(rt; seq, 2);
    let (other, found) = look(&store, other);
    assert_eq!(rt; found.err(), Some(Refusal::Locked { rec: 0, word: 1 }));
    let pass = halted.rest(&store);
    assert_eq!(rt; pass.tries(), 1);
    let (_other, found) = look(&store, other);
    assert!(rt; found.is_ok());
    Ok(())
}

#[test]
fn a_commit_above_its_limit_ends_where_it_writes_nothing(rt: HostRuntime) -> Result<(), Fail> {
    let alloc = rt.alloc();
    let schema = accounts(alloc, 2)?;
    let layout = Layout::new(alloc, &schema)?;
    let (store, pass) = opened(alloc, &schema, 2, 10, 4)?;
    let txn = transfer(alloc, &schema, 0, 1, 11)?;
    let attempt = locked(alloc, &store, &layout, &schema, &txn, pass)?;
    let (halt, result) = attempt.commit_below(1);
    let Err(CommitError::Above { seq }) = result else {
        return Err("the seq wasn't above".into());
    };
    let Halt::Free(pass) = halt else {
        return Err("it was halted".into());
    };
    assert_eq!(rt; seq, 2);
    assert_eq!(rt; pass.tries(), 3);
    Ok(())
}

#[test]
fn a_commit_without_a_try_lets_its_locks_go(rt: HostRuntime) -> Result<(), Fail> {
    let alloc = rt.alloc();
    let schema = accounts(alloc, 2)?;
    let layout = Layout::new(alloc, &schema)?;
    let (store, pass) = opened(alloc, &schema, 2, 10, 0)?;
    let txn = transfer(alloc, &schema, 0, 1, 3)?;
    let attempt = locked(alloc, &store, &layout, &schema, &txn, pass)?;
    let (pass, Err(error)) = attempt.commit() else {
        return Err("it was decided".into());
    };
    assert_eq!(rt; error, CommitError::TriesSpent);
    let (_pass, found) = look(&store, pass);
    assert!(rt; found.is_ok());
    Ok(())
}
