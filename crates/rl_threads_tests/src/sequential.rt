//! A replay in one thread, which sorts the items by their stamps and makes their writes. Tests and
//! benches compare with it.

use rl_base::memory::Memory;
use rl_base::stamp::Stamp;
use rl_shared_replay::parts::Parts;
use rl_txn::item::apply;
use rl_value::map::Map;
use std::alloc::Global;

/// The rows after all items of the parts.
pub fn replay_in_order(alloc: Global, opening: &Map, parts: &Parts) -> Result<Map, Memory> {
    let mut order = Vec::new(alloc);
    for p in 0..parts.len() {
        for k in 0..parts.get(p).len() {
            let Stamp { epoch, seq } = parts.get(p).get(k).stamp;
            order.push((epoch, seq, p, k))?;
        }
    }
    order.sort_unstable();
    let mut map = opening.copy()?;
    for &(_, _, p, k) in order.as_slice() {
        if p < parts.len() && k < parts.get(p).len() {
            apply(&mut map, parts.get(p).get(k))?;
        }
    }
    Ok(map)
}
