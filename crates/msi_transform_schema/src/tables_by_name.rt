//! The tables that a transform tells of, by their names.

ghost use Rattle.std.specs.Prelude.{◌≡◌, [], OnOk, option_copied};
ghost use Rattle.std.specs.FinMap.{entries, find, put};
ghost use Rattle.msi_base.specs.Lists.{list_cmp};
ghost use Rattle.msi_base.specs.Results.{OnlyMemory};
ghost use Rattle.msi_transform_schema.specs.TablesInHand.{named};

use crate::schema::TableInHand;
use msi_base::errors::Error;
use std::alloc::Global;
use std::collections::{BTreeMap, btree_map};
use std::marker::Model;

/// The tables that a transform tells of, in the order of their names, which are borrowed from where they lie.
#[derive(Drop)]
pub struct TablesByName<'a> {
    map: BTreeMap<&'a str, TableInHand>,
}

impl<'a> Model for TablesByName<'a> {
    ghost use Rattle.std.specs.Prelude.{List, ℕ};
    ghost use Rattle.std.specs.Coded.{codes};
    ghost use Rattle.std.specs.FinMap as finite;
    ghost use Rattle.msi_base.specs.Lists.{list_cmp};
    ghost use Rattle.msi_transform_schema.specs.TablesInHand.{TableInHand as TableOf, named};

    ghost Value = { finite.FinMap list_cmp TableOf };

    ghost coded = { finite.code (Prim.hlevel codes) (Prim.hlevel codes) };

    ghost view = { λ t. finite.from_entries (named t.map.entries) };
}

impl<'a> TablesByName<'a> {
    /// Returns no tables.
    pub fn new(alloc: Global) -> TablesByName<'a>
        ensures { entries result ≡ [] }
    {
        TablesByName {
            map: BTreeMap::new(alloc),
        }
    }

    /// Returns the table of a name, if the transform tells of it.
    pub fn get(&self, name: &str) -> Option<&TableInHand>
        ensures { option_copied result ≡ find list_cmp name.now (entries self.now) }
    {
        self.map.get(name)
    }

    /// Puts a table under its name, in place of what was there. After an error any tables may be there.
    ///
    /// # Errors
    /// Fails with `OutOfMemory`.
    pub fn insert(&mut self, name: &'a str, table: TableInHand) -> Result<(), Error>
        ensures ok { OnOk result (entries self.new ≡ put list_cmp name.now table (entries self.old)) }
        ensures kind { OnlyMemory result }
    {
        self.map.insert(name, table)?;
        Ok(())
    }

    /// Returns the tables with their names, in the order of these.
    pub fn iter(&self) -> btree_map::Iter<'_, &'a str, TableInHand>
        ensures { named result ≡ entries self.now }
    {
        self.map.iter()
    }
}
