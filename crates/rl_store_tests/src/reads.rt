//! Reads of one record by two threads, each with a pass of its own.

ghost use Rattle.std.specs.Prelude.{◌≡◌, ◌<◌, length};
ghost use Rattle.rl_store.specs.Views.{IsAtRest};

use crate::one::one_record;
use rl_base::memory::Memory;
use rl_base::refusal::Refusal;
use rl_store::pass::Pass;
use rl_store::store::{Observed, Store};
use std::alloc::Global;
use std::test::Fail;
use std::thread::{Threads, join};

/// Reads record 0, and rests.
pub fn look(store: &Store, mut pass: Pass) -> (Pass, Result<Observed, Refusal>)
    requires table { pass.table ≡ store.now.table }
    requires rest { IsAtRest pass.view }
    requires some { 0 < length store.now.made.columns }
    ensures table { result.0.table ≡ pass.table }
    ensures rest { IsAtRest result.0.view }
{
    let seen = store.observe(&mut pass, 0);
    store.rest(&mut pass);
    (pass, seen)
}

/// Whether the word 0 and a row of 7 were read.
fn is_seven(seen: &Result<Observed, Refusal>) -> bool {
    match seen {
        Ok(
            Observed {
                word,
                row: Some(row),
            },
        ) => *word == 0 && row.as_slice() == [7].as_slice(),
        _ => false,
    }
}

/// Both passes read the record, each in a thread of its own, and are joined.
fn both_look<R: Threads + Sync>(rt: &R, alloc: Global) -> Result<bool, Memory> {
    let (store, one, other) = one_record(alloc, 4, 2)?;
    let shared = &store;
    let ((mut one, first), (other, second)) = join(
        rt,
        move || -> (Pass, Result<Observed, Refusal>)
            requires { (one.table ≡ shared.now.table) × IsAtRest one.view × (0 < length shared.now.made.columns) }
            ensures { (result.0.table ≡ one.table) × IsAtRest result.0.view }
        { look(shared, one) },
        move || -> (Pass, Result<Observed, Refusal>)
            requires { (other.table ≡ shared.now.table) × IsAtRest other.view × (0 < length shared.now.made.columns) }
            ensures { (result.0.table ≡ other.table) × IsAtRest result.0.view }
        { look(shared, other) },
    );
    one.join(&store, other);
    let all = one.tries() == 4;
    match store.close(alloc, one) {
        Ok(closed) => {
            let words = closed.words().as_slice() == [0].as_slice();
            let row = match closed.rows().as_slice() {
                [Some(row)] => row.as_slice() == [7].as_slice(),
                _ => false,
            };
            Ok(all && words && row && closed.epoch() == 1 && is_seven(&first) && is_seven(&second))
        }
        Err((_store, _pass, Memory)) => Err(Memory),
    }
}

#[test]
fn two_threads_read_one_record(rt: HostRuntime) -> Result<(), Fail> {
    assert!(rt; both_look(&rt, rt.alloc())?);
    Ok(())
}
