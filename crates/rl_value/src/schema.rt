//! The tables of a store.

ghost use Rattle.std.specs.Prelude.{◌≡◌, ◌<◌, ◌≤◌, ◌∷◌, [], ◌++◌, length, ◌⊎◌, None, Some, Err, IfSome, IfOk, IfErr, OnOk, OnErr, true};
ghost use Rattle.rl_value.specs.Names.{is_name};
ghost use Rattle.rl_value.specs.Declare.{refusal};
ghost use Rattle.rl_value.specs.Tables.{IsTable, name_of, size_of, columns_of, table_named, record_count, IsSchema};

use indexmap::IndexMap;
use rl_base::limit::{RECORDS, TABLES};
use rl_base::memory::Memory;
use std::alloc::Global;
use std::marker::Model;
use thiserror::Error;

/// How large a table is.
#[derive(Clone, Copy, Debug, PartialEq, Eq)]
struct Shape {
    size: u32,
    columns: u32,
}

/// The declared tables, in order. Contracts see a list of tables.
#[derive(Drop)]
pub struct Schema {
    tables: IndexMap<String, Shape>,
    records: u32,
}

impl Model for Schema {
    ghost use Rattle.std.specs.Prelude.{◌≡◌, List};
    ghost use Rattle.rl_value.specs.Entries.{tables_of};
    ghost use Rattle.rl_value.specs.Tables.{Table, IsSchema, record_count};

    ghost Value = { List Table };

    ghost view = { λ s. tables_of s.tables.entries };

    ghost invariant = { λ s. IsSchema (tables_of s.tables.entries)
        × (s.records ≡ record_count (tables_of s.tables.entries)) };
}

/// Why a table was not declared. The schema is unchanged then.
#[derive(Clone, Copy, Debug, PartialEq, Eq, Error)]
pub enum DeclareError {
    /// A table has this name already.
    #[error("duplicate table")]
    DuplicateTable,
    /// There are 16 tables already.
    #[error("too many tables")]
    TooManyTables,
    /// The tables would have more than 65,536 records together.
    #[error("too many records")]
    TooManyRecords,
    /// There was no memory left.
    #[error("memory")]
    Memory,
}

impl From<Memory> for DeclareError {
    ghost use Rattle.std.specs.Prelude.{◌≡◌};
    ghost use Rattle.rl_value.specs.declared.schema.DeclareError.TheVariants.{Memory};

    ghost from_gives = { λ _ e. e ≡ Memory };

    fn from(_e: Memory) -> DeclareError {
        DeclareError::Memory
    }
}

impl Schema {
    /// No tables.
    pub fn new(alloc: Global) -> Schema
        ensures { result ≡ [] }
    {
        Schema {
            tables: IndexMap::new(alloc),
            records: 0,
        }
    }

    /// Adds a table of 1 to 65,536 keys and 1 to 4 columns, and answers its number.
    ///
    /// `DuplicateTable`, `TooManyTables` and `TooManyRecords` are judged in this order, before any
    /// memory is taken. After each error the schema is unchanged.
    pub fn declare(
        &mut self,
        alloc: Global,
        name: &str,
        size: u32,
        columns: u32,
    ) -> Result<u32, DeclareError>
        requires name { is_name name.now ≡ true }
        requires some_keys { 1 ≤ size }
        requires few_keys { size ≤ RECORDS }
        requires some_columns { 1 ≤ columns }
        requires few_columns { columns ≤ 4 }
        ensures number { IfOk result (λ t. t ≡ length self.old) }
        ensures declared { OnOk result (self.new ≡
            self.old ++ record { name = name.now; size = size; columns = columns } ∷ []) }
        ensures refused { IfSome (refusal name.now size self.old) (λ e. result ≡ Err e) }
        ensures why { IfErr result
            (λ e. (e ≡ DeclareError.Memory) ⊎ (refusal name.now size self.old ≡ Some e)) }
        ensures unchanged { OnErr result (self.new ≡ self.old) }
    {
        match self.refusal(name, size) {
            Some(e) => Err(e),
            None => Ok(self.add(alloc, name, size, columns)?),
        }
    }

    /// Adds a table that nothing keeps from being declared.
    fn add(&mut self, alloc: Global, name: &str, size: u32, columns: u32) -> Result<u32, Memory>
        requires free { refusal name.now size self.old ≡ None }
        requires table { IsTable (record { name = name.now; size = size; columns = columns }) }
        ensures number { IfOk result (λ t. t ≡ length self.old) }
        ensures declared { OnOk result (self.new ≡
            self.old ++ record { name = name.now; size = size; columns = columns } ∷ []) }
        ensures unchanged { OnErr result (self.new ≡ self.old) }
    {
        let number = self.tables.len() as u32;
        self.tables
            .insert(String::from_str(alloc, name)?, Shape { size, columns })?;
        self.records += size;
        Ok(number)
    }

    /// Why a table can't be declared, if it can't.
    fn refusal(&self, name: &str, size: u32) -> Option<DeclareError>
        requires { size ≤ RECORDS }
        ensures { result ≡ refusal name.now size self.now }
    {
        if self.find(name).is_some() {
            return Some(DeclareError::DuplicateTable);
        }
        if self.tables.len() == TABLES as usize {
            return Some(DeclareError::TooManyTables);
        }
        if self.records + size > RECORDS {
            return Some(DeclareError::TooManyRecords);
        }
        None
    }

    /// The number of the table of a name, or none where no table has it.
    pub fn find(&self, name: &str) -> Option<u32>
        ensures found { result ≡ table_named name.now self.now }
        ensures there { IfSome result (λ t. t < length self.now) }
    {
        Some(self.position(name)? as u32)
    }

    /// The same, as an index.
    fn position(&self, name: &str) -> Option<usize>
        ensures found { result ≡ table_named name.now self.now }
        ensures there { IfSome result (λ t. t < length self.now) }
        ensures few { IfSome result (λ t. t < TABLES) }
    {
        self.tables.get_index_of(name)
    }

    /// The name of a table.
    pub fn name(&self, t: u32) -> &str
        requires { t < length self.now }
        ensures { result.now ≡ name_of self.now t }
    {
        let (name, _) = self.tables.get_index(t as usize).unwrap();
        name.as_str()
    }

    /// How many keys a table has.
    pub fn size(&self, t: u32) -> u32
        requires { t < length self.now }
        ensures size { result ≡ size_of self.now t }
        ensures some { 1 ≤ result }
        ensures few { result ≤ RECORDS }
    {
        let (_, shape) = self.tables.get_index(t as usize).unwrap();
        shape.size
    }

    /// How many columns a table has.
    pub fn columns(&self, t: u32) -> u32
        requires { t < length self.now }
        ensures columns { result ≡ columns_of self.now t }
        ensures some { 1 ≤ result }
        ensures few { result ≤ 4 }
    {
        let (_, shape) = self.tables.get_index(t as usize).unwrap();
        shape.columns
    }

    /// How many tables there are. A schema keeps its limits.
    pub fn count(&self) -> u32
        ensures count { result ≡ length self.now }
        ensures limits { IsSchema self.now }
    {
        self.tables.len() as u32
    }

    /// How many records the tables have together.
    pub fn records(&self) -> u32
        ensures records { result ≡ record_count self.now }
        ensures few { result ≤ RECORDS }
    {
        self.records
    }
}
