//! A store of one record.

ghost use Rattle.std.specs.Prelude.{◌≡◌, ◌+◌, ◌^◌, ◌≤◌, ◌∷◌, [], IfOk};
ghost use Rattle.rl_store.specs.Views.{IsAtRest};

use rl_base::memory::Memory;
use rl_store::pass::Pass;
use rl_store::store::Store;
use rl_value::row::Row;
use std::alloc::Global;

/// A store of epoch 1 with one record of one column, which has a row of 7 under stamp 0, and two passes that have
/// so many tries together.
pub fn one_record(alloc: Global, tries: u64, others: u64) -> Result<(Store, Pass, Pass), Memory>
    requires tries { (others ≤ tries) × (tries + 3 ≤ 2 ^ 40) }
    ensures columns { IfOk result (λ made. made.0.made.columns ≡ 1 ∷ []) }
    ensures tables { IfOk result (λ made. (made.1.table ≡ made.0.table) × (made.2.table ≡ made.0.table)) }
    ensures rest { IfOk result (λ made. IsAtRest made.1.view × IsAtRest made.2.view) }
{
    let row = Some(Row::from_slice(&[7]));
    let (store, mut pass) = Store::make(alloc, &[1], &[0], &[row], 1, tries)?;
    let other = pass.split(&store, others);
    Ok((store, pass, other))
}
