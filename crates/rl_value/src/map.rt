//! The rows of all tables.

ghost use Rattle.std.specs.Prelude.{◌≡◌, IfOk, OnOk, OnErr};
ghost use Rattle.std.specs.Option.{option_copied};
ghost use Rattle.std.specs.FinMap as map;

use crate::row::Row;
use rl_base::list::Seq;
use rl_base::memory::Memory;
use std::alloc::Global;
use std::collections::BTreeMap;
use std::marker::Model;

/// A value for some keys of some tables.
#[derive(Drop)]
pub struct Places<V: Drop> {
    values: BTreeMap<(u32, u32), V>,
}

impl<V: Drop> Model for Places<V> {
    ghost use Rattle.std.specs.FinMap as map;
    ghost use Rattle.std.specs.Coded.{coded_ℕ, coded×};
    ghost use Rattle.rl_value.specs.Rows.{place_cmp};

    ghost Value = { map.FinMap place_cmp V };

    ghost coded = { map.code (coded× coded_ℕ coded_ℕ) V.code };

    ghost view = { λ a. map.from_entries a.values.entries };
}

/// The rows that are present, by table and key.
pub type Map = Places<Row>;

impl<V: Drop> Places<V> {
    /// No values.
    pub fn new(alloc: Global) -> Self
        ensures { result ≡ map.empty }
    {
        Places {
            values: BTreeMap::new(alloc),
        }
    }

    /// The value of a key, or none where it has none.
    #[tactic(auto, using(crate::proofs::PlacesLemmas::place_get))]
    pub fn get(&self, t: u32, k: u32) -> Option<&V>
        ensures { option_copied result ≡ map.get self.now (t, k) }
    {
        self.values.get(&(t, k))
    }

    /// Makes the value of a key this one. After `Memory` the map is unchanged.
    #[tactic(auto, using(crate::proofs::PlacesLemmas::place_put))]
    pub fn put(&mut self, t: u32, k: u32, value: V) -> Result<(), Memory>
        ensures ok { OnOk result (self.new ≡ map.insert self.old (t, k) value) }
        ensures err { OnErr result (self.new ≡ self.old) }
    {
        self.values.insert((t, k), value)?;
        Ok(())
    }

    /// Takes the value of a key away.
    #[tactic(auto, using(crate::proofs::PlacesLemmas::place_del))]
    pub fn del(&mut self, t: u32, k: u32)
        ensures { self.new ≡ map.remove self.old (t, k) }
    {
        self.values.remove(&(t, k));
    }

    /// The values with their places, by rising table and key.
    #[tactic(auto, using(crate::proofs::PlacesLemmas::entries_in_order))]
    pub fn into_list(self, alloc: Global) -> Result<Seq<((u32, u32), V)>, Memory>
        ensures { IfOk result (λ list. list ≡ map.entries self) }
    {
        let mut list = Seq::new(alloc);
        for entry in self.values {
            list.push(entry)?;
        }
        Ok(list)
    }
}

impl Places<Row> {
    /// An equal map.
    pub fn copy(&self) -> Result<Map, Memory>
        ensures { IfOk result (λ copy. copy ≡ self.now) }
    {
        Ok(Places {
            values: self.values.clone()?,
        })
    }
}
