//! The records of a transform by the names of their tables.

ghost use Rattle.std.specs.Prelude.{◌≡◌, [], OnOk, length, option_copied, string_bytes};
ghost use Rattle.std.specs.FinMap.{entries, find, put};
ghost use Rattle.msi_base.specs.Lists.{list_cmp};
ghost use Rattle.msi_base.specs.Results.{OnlyMemory};
ghost use Rattle.msi_transform.specs.RecordsByTable.{by_text};
ghost use Rattle.msi_transform.specs.WrittenTransforms.{with_table_streams};

use crate::written::put_records;
use msi_base::errors::Error;
use msi_container_format::contents::{Bytes, StreamMap};
use std::alloc::Global;
use std::collections::{BTreeMap, btree_map};
use std::marker::Model;

/// The records of tables by the tables' names, in the order of these. Contracts see the bytes.
#[derive(Drop)]
pub struct RecordsByTable {
    map: BTreeMap<String, Bytes>,
}

impl Model for RecordsByTable {
    ghost use Rattle.std.specs.Prelude.{List, ℕ};
    ghost use Rattle.std.specs.Coded.{codes};
    ghost use Rattle.std.specs.FinMap as finite;
    ghost use Rattle.msi_base.specs.Lists.{list_cmp};
    ghost use Rattle.msi_transform.specs.RecordsByTable.{by_text};

    ghost Value = { finite.FinMap list_cmp (List ℕ) };

    ghost coded = { finite.code (Prim.hlevel codes) (Prim.hlevel codes) };

    ghost view = { λ r. finite.from_entries (by_text r.map.entries) };
}

impl RecordsByTable {
    /// Returns no records.
    pub fn new(alloc: Global) -> RecordsByTable
        ensures { entries result ≡ [] }
    {
        RecordsByTable {
            map: BTreeMap::new(alloc),
        }
    }

    /// Returns the bytes of a table's records, if there are some.
    pub fn get(&self, name: &str) -> Option<&Bytes>
        ensures { option_copied result ≡ find list_cmp name.now (entries self.now) }
    {
        self.map.get(name)
    }

    /// Puts the records of a table under its name, in place of those that were there. After an error any records may be
    /// there.
    ///
    /// # Errors
    /// Fails with `OutOfMemory`.
    pub fn insert(&mut self, name: String, records: Bytes) -> Result<(), Error>
        ensures ok { OnOk result (entries self.new ≡ put list_cmp (string_bytes name) records (entries self.old)) }
        ensures kind { OnlyMemory result }
    {
        self.map.insert(name, records)?;
        Ok(())
    }

    /// Returns the number of tables that have records.
    pub fn len(&self) -> usize
        ensures { result ≡ length (entries self.now) }
    {
        self.map.len()
    }

    /// Returns the tables' names with the bytes of their records, in the order of names.
    pub fn iter(&self) -> btree_map::Iter<'_, String, Bytes>
        ensures rest { by_text result ≡ entries self.now }
        ensures len { length result ≡ length (entries self.now) }
    {
        self.map.iter()
    }

    /// Puts the records among streams, each table's in one of its own, if its name isn't too long for a container.
    /// After an error any streams may be there.
    ///
    /// # Errors
    /// Fails with `OutOfMemory`.
    pub fn put_into(self, streams: &mut StreamMap) -> Result<(), Error>
        ensures ok { OnOk result (entries streams.new ≡ with_table_streams (entries self) (entries streams.old)) }
        ensures kind { OnlyMemory result }
    {
        let RecordsByTable { map } = self;
        for (name, records) in map {
            put_records(streams, name.as_str(), records)?;
        }
        Ok(())
    }
}
