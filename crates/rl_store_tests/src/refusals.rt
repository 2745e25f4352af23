//! What a pass is refused, with the word that it found.

ghost use Rattle.std.specs.Prelude.{◌≡◌, ◌<◌, length, IfSome};
ghost use Rattle.rl_store.specs.Views.{IsAtRest};

use crate::bank::{accounts, opened, transfer};
use crate::ready::{executed, locked};
use crate::threads::attempt;
use rl_base::refusal::Refusal;
use rl_occ::outcome::CommitError;
use rl_store::pass::Pass;
use rl_store::store::Store;
use rl_tables::layout::Layout;
use std::test::Fail;

/// Why the pass is refused a read of record 0, and a lock of it.
fn refusals(store: &Store, pass: &mut Pass) -> Option<(Refusal, Refusal)>
    requires table { pass.old.table ≡ store.now.table }
    requires rest { IsAtRest pass.old.view }
    requires some { 0 < length store.now.made.columns }
    ensures table { pass.new.table ≡ pass.old.table }
    ensures rest { IfSome result (λ _. IsAtRest pass.new.view) }
{
    let read = store.observe(pass, 0).err()?;
    let lock = store.lock(pass, 0).err()?;
    Some((read, lock))
}

#[test]
fn a_locked_record_refuses_reads_and_locks(rt: HostRuntime) -> Result<(), Fail> {
    let alloc = rt.alloc();
    let schema = accounts(alloc, 1)?;
    let layout = Layout::new(alloc, &schema)?;
    let (store, mut one) = opened(alloc, &schema, 1, 7, 4)?;
    let mut other = one.split(&store, 2);
    let txn = transfer(alloc, &schema, 0, 0, 2)?;
    let first = locked(alloc, &store, &layout, &schema, &txn, one)?;
    let Some(found) = refusals(&store, &mut other) else {
        return Err("a locked record was read or locked".into());
    };
    let refusal = Refusal::Locked { rec: 0, word: 1 };
    assert_eq!(rt; found, (refusal, refusal));
    let (mut one, Ok(decided)) = first.commit() else {
        return Err("the commit was refused".into());
    };
    assert_eq!(rt; decided.stamp.seq, 2);
    one.join(&store, other);
    assert_eq!(rt; one.tries(), 3);
    match store.close(alloc, one) {
        Ok(closed) => {
            assert_eq!(rt; closed.words().as_slice(), [2_199_023_255_556].as_slice());
            Ok(())
        }
        Err((_store, _pass, memory)) => Err(memory.into()),
    }
}

#[test]
fn a_read_under_an_old_stamp_is_refused_at_the_commit(rt: HostRuntime) -> Result<(), Fail> {
    let alloc = rt.alloc();
    let schema = accounts(alloc, 2)?;
    let layout = Layout::new(alloc, &schema)?;
    let (store, mut one) = opened(alloc, &schema, 2, 10, 4)?;
    let other = one.split(&store, 2);
    let txn = transfer(alloc, &schema, 0, 1, 3)?;
    let mut late = executed(alloc, &store, &layout, &schema, &txn, one)?;
    let (_other, decided) = attempt(alloc, &store, &layout, &schema, &txn, other)?;
    assert!(rt; decided.is_some());
    let Ok(()) = late.lock() else {
        return Err("the lock was refused".into());
    };
    let (one, result) = late.commit();
    let word = 2 * ((1 << 40) + 2);
    let refusal = Refusal::Changed {
        rec: 0,
        seen: 0,
        found: word,
    };
    assert!(rt; matches!(result, Err(CommitError::Refused(found)) if found == refusal));
    assert_eq!(rt; one.tries(), 1);
    Ok(())
}

#[test]
fn an_attempt_is_refused_a_lock_that_another_has(rt: HostRuntime) -> Result<(), Fail> {
    let alloc = rt.alloc();
    let schema = accounts(alloc, 2)?;
    let layout = Layout::new(alloc, &schema)?;
    let (store, mut one) = opened(alloc, &schema, 2, 10, 4)?;
    let other = one.split(&store, 2);
    let txn = transfer(alloc, &schema, 0, 1, 3)?;
    let mut late = executed(alloc, &store, &layout, &schema, &txn, one)?;
    let first = locked(alloc, &store, &layout, &schema, &txn, other)?;
    assert_eq!(rt; late.lock(), Err(Refusal::Locked { rec: 0, word: 1 }));
    assert_eq!(rt; late.abandon().tries(), 2);
    let (_other, result) = first.commit();
    assert!(rt; result.is_ok());
    Ok(())
}

#[test]
fn a_declined_attempt_is_refused_where_another_holds_what_it_read(
    rt: HostRuntime,
) -> Result<(), Fail> {
    let alloc = rt.alloc();
    let schema = accounts(alloc, 2)?;
    let layout = Layout::new(alloc, &schema)?;
    let (store, mut one) = opened(alloc, &schema, 2, 10, 4)?;
    let other = one.split(&store, 2);
    let declined = transfer(alloc, &schema, 0, 1, 11)?;
    let txn = transfer(alloc, &schema, 0, 1, 3)?;
    let late = locked(alloc, &store, &layout, &schema, &declined, one)?;
    let _first = locked(alloc, &store, &layout, &schema, &txn, other)?;
    let (_one, result) = late.commit();
    let refusal = Refusal::Locked { rec: 0, word: 1 };
    assert!(rt; matches!(result, Err(CommitError::Refused(found)) if found == refusal));
    Ok(())
}
