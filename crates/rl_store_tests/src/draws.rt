//! Draws, and the tries of a pass.

ghost use Rattle.std.specs.Prelude.{◌≡◌};
ghost use Rattle.rl_store.specs.Views.{IsAtRest};

use crate::one::one_record;
use rl_store::pass::Pass;
use rl_store::spent::{DrawStop, TriesSpent};
use rl_store::store::Store;
use std::test::Fail;

/// Draws for an attempt that has read and locked nothing, which its draw ends.
fn draw(store: &Store, pass: &mut Pass) -> Result<u64, TriesSpent>
    requires table { pass.old.table ≡ store.now.table }
    requires rest { IsAtRest pass.old.view }
    ensures table { pass.new.table ≡ pass.old.table }
    ensures rest { IsAtRest pass.new.view }
{
    store.draw(pass)
}

/// The same, with a limit.
fn draw_below(store: &Store, pass: &mut Pass, limit: u64) -> Result<u64, DrawStop>
    requires table { pass.old.table ≡ store.now.table }
    requires rest { IsAtRest pass.old.view }
    ensures table { pass.new.table ≡ pass.old.table }
    ensures rest { IsAtRest pass.new.view }
{
    store.draw_below(pass, limit)
}

#[test]
fn a_pass_without_tries_draws_nothing(rt: HostRuntime) -> Result<(), Fail> {
    let (store, mut pass, _other) = one_record(rt.alloc(), 0, 0)?;
    assert_eq!(rt; draw(&store, &mut pass), Err(TriesSpent));
    assert_eq!(rt; pass.tries(), 0);
    Ok(())
}

#[test]
fn each_pass_draws_as_often_as_it_has_tries(rt: HostRuntime) -> Result<(), Fail> {
    let (store, mut one, mut other) = one_record(rt.alloc(), 2, 1)?;
    assert_eq!(rt; draw(&store, &mut one), Ok(2));
    assert_eq!(rt; draw(&store, &mut other), Ok(3));
    assert_eq!(rt; draw(&store, &mut one), Err(TriesSpent));
    assert_eq!(rt; draw(&store, &mut other), Err(TriesSpent));
    Ok(())
}

#[test]
fn a_joined_pass_has_the_tries_of_both(rt: HostRuntime) -> Result<(), Fail> {
    let (store, mut one, mut other) = one_record(rt.alloc(), 5, 2)?;
    assert_eq!(rt; draw(&store, &mut other), Ok(2));
    one.join(&store, other);
    assert_eq!(rt; one.tries(), 4);
    assert_eq!(rt; draw(&store, &mut one), Ok(3));
    Ok(())
}

#[test]
fn a_draw_above_its_limit_takes_a_try_and_is_refused(rt: HostRuntime) -> Result<(), Fail> {
    let (store, mut pass, _other) = one_record(rt.alloc(), 3, 0)?;
    assert_eq!(rt; draw_below(&store, &mut pass, 2), Ok(2));
    assert_eq!(rt;
        draw_below(&store, &mut pass, 2),
        Err(DrawStop::Above { seq: 3 })
    );
    assert_eq!(rt; draw_below(&store, &mut pass, 5), Ok(4));
    assert_eq!(rt; draw_below(&store, &mut pass, 5), Err(DrawStop::TriesSpent));
    Ok(())
}
