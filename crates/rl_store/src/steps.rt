//! The ten kinds of step.

ghost use Rattle.std.specs.Prelude.{ℕ};

use crate::view::View;
use atomic_table::{Join, Play, Split};
use std::marker::{Brand, PhantomData};

/// A first load of a record's word.
pub struct FirstLoads;

impl Play<(), View> for FirstLoads {
    ghost use Rattle.rl_store.specs.Steps.{FirstLoad};

    ghost then = { FirstLoad };
}

/// A load of presence or a column.
pub struct ColumnLoads;

impl Play<(), View> for ColumnLoads {
    ghost use Rattle.rl_store.specs.Steps.{ColumnLoad};

    ghost then = { ColumnLoad };
}

/// The confirming load of a record's word.
pub struct Confirms;

impl Play<(), View> for Confirms {
    ghost use Rattle.rl_store.specs.Steps.{Confirm};

    ghost then = { Confirm };
}

/// A load of word 0, which ends a running attempt.
pub struct Rests;

impl Play<(), View> for Rests {
    ghost use Rattle.rl_store.specs.Steps.{Rest};

    ghost then = { Rest };
}

/// A number that a step takes, and no type knows: each call picks it.
pub trait Number {
    ghost number: { ℕ };
}

impl Number for Brand {
    ghost number = { 0 };
}

/// A split: so many tries move over to a new pass.
pub struct Splits<N> {
    number: PhantomData<N>,
}

impl<N: Number> Split<View> for Splits<N> {
    ghost use Rattle.rl_store.specs.Views.{split_left, split_right};

    ghost left = { split_left N.number };

    ghost right = { split_right N.number };
}

/// A join: items, tries and draws of both.
pub struct Joins;

impl Join<View> for Joins {
    ghost use Rattle.rl_store.specs.Views.{joined, spent};

    ghost both = { joined };

    ghost spent = { spent };
}

/// A fetch_or of 1 on a record's word.
pub struct Locks;

impl Play<(), View> for Locks {
    ghost use Rattle.rl_store.specs.Steps.{Lock};

    ghost then = { Lock };
}

/// A fetch_add of 1 on word 0. The number is the base of the epoch.
pub struct Draws<N> {
    number: PhantomData<N>,
}

impl<N: Number> Play<(), View> for Draws<N> {
    ghost use Rattle.rl_store.specs.Steps.{Draw};

    ghost then = { Draw N.number };
}

/// The numbers of a draw with a limit: the base of the epoch, and the limit. Each call picks them.
pub trait Bound {
    ghost base: { ℕ };

    ghost limit: { ℕ };
}

impl Bound for Brand {
    ghost base = { 0 };

    ghost limit = { 0 };
}

/// A fetch_add of 1 on word 0, with a limit.
pub struct DrawsBelow<N> {
    number: PhantomData<N>,
}

impl<N: Bound> Play<(), View> for DrawsBelow<N> {
    ghost use Rattle.rl_store.specs.Steps.{DrawBelow};

    ghost then = { DrawBelow N.base N.limit };
}

/// A load of a record's word, to validate a read. The number is 1 where the attempt itself holds the record.
pub struct Validates<N> {
    number: PhantomData<N>,
}

impl<N: Number> Play<(), View> for Validates<N> {
    ghost use Rattle.rl_store.specs.Steps.{Validate};

    ghost then = { Validate N.number };
}

/// A store to presence or a column.
pub struct ColumnStores;

impl Play<(), View> for ColumnStores {
    ghost use Rattle.rl_store.specs.Steps.{ColumnStore};

    ghost then = { ColumnStore };
}

/// A store of a new word.
pub struct ClosesNew;

impl Play<(), View> for ClosesNew {
    ghost use Rattle.rl_store.specs.Steps.{CloseNew};

    ghost then = { CloseNew };
}

/// A store of the old word.
pub struct ClosesOld;

impl Play<(), View> for ClosesOld {
    ghost use Rattle.rl_store.specs.Steps.{CloseOld};

    ghost then = { CloseOld };
}
