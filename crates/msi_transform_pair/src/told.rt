//! Rows as a transform tells them, by their keys.

ghost use Rattle.std.specs.Prelude.{◌≡◌, [], OnOk, length, option_copied};
ghost use Rattle.std.specs.FinMap.{entries, find, put};
ghost use Rattle.msi_base.specs.Results.{OnlyMemory};
ghost use Rattle.msi_transform_rows.specs.KeyOfRows.{key_cmp as cmp_of_keys};

use crate::seen::SeenValues;
use msi_base::errors::Error;
use msi_container_format::contents::Bytes;
use msi_database_changes::keys::Key;
use std::alloc::Global;
use std::collections::{BTreeMap, btree_map};
use std::marker::Model;

/// A row as a transform tells it: its values, of which those in columns of streams are null without a stream, and its
/// stream.
#[derive(Drop)]
pub struct ToldRow<'a> {
    values: SeenValues<'a>,
    stream: Option<&'a Bytes>,
}

impl<'a> Model for ToldRow<'a> {
    ghost use Rattle.std.specs.Prelude.{option_copied};
    ghost use Rattle.msi_transform_pair.specs.Pair.{ToldRow as RowOf};

    ghost Value = { RowOf };

    ghost view = { λ r. record { values = r.values; stream = option_copied r.stream } };
}

impl<'a> ToldRow<'a> {
    pub fn new(values: SeenValues<'a>, stream: Option<&'a Bytes>) -> ToldRow<'a>
        ensures { result ≡ record { values = values.entry; stream = option_copied stream.entry } }
    {
        ToldRow { values, stream }
    }

    pub fn values(&self) -> &SeenValues<'a>
        ensures { result.now ≡ self.now.values }
    {
        &self.values
    }

    pub fn stream(&self) -> Option<&'a Bytes>
        ensures { option_copied result ≡ self.now.stream }
    {
        self.stream
    }
}

/// Rows in the order of their keys.
#[derive(Drop)]
pub struct ToldRows<'a> {
    map: BTreeMap<Key<'a>, ToldRow<'a>>,
}

impl<'a> Model for ToldRows<'a> {
    ghost use Rattle.std.specs.Coded.{codes};
    ghost use Rattle.std.specs.FinMap as finite;
    ghost use Rattle.msi_transform_rows.specs.KeyOfRows.{key_cmp};
    ghost use Rattle.msi_transform_pair.specs.Pair.{ToldRow as RowOf};

    ghost Value = { finite.FinMap key_cmp RowOf };

    ghost coded = { finite.code (Prim.hlevel codes) (Prim.hlevel codes) };

    ghost view = { λ k. finite.from_entries k.map.entries };
}

impl<'a> ToldRows<'a> {
    /// Returns no rows.
    pub fn new(alloc: Global) -> ToldRows<'a>
        ensures { entries result ≡ [] }
    {
        ToldRows {
            map: BTreeMap::new(alloc),
        }
    }

    /// Returns the row of a key, if there is one.
    pub fn get(&self, key: &Key<'a>) -> Option<&ToldRow<'a>>
        ensures { option_copied result ≡ find cmp_of_keys key.now (entries self.now) }
    {
        self.map.get(key)
    }

    /// Puts a row under a key, in place of the one that was there. After an error any rows may be there.
    ///
    /// # Errors
    /// Fails with `OutOfMemory`.
    pub fn insert(&mut self, key: Key<'a>, row: ToldRow<'a>) -> Result<(), Error>
        ensures ok { OnOk result (entries self.new ≡ put cmp_of_keys key.entry row.entry (entries self.old)) }
        ensures kind { OnlyMemory result }
    {
        self.map.insert(key, row)?;
        Ok(())
    }

    /// Returns the rows with their keys, in the order of these.
    pub fn iter(&self) -> btree_map::Iter<'_, Key<'a>, ToldRow<'a>>
        ensures rest { result ≡ entries self.now }
        ensures len { length result ≡ length (entries self.now) }
    {
        self.map.iter()
    }
}
