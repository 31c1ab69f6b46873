//! The rows of a table by their keys, while a transform is applied.

ghost use Rattle.std.specs.Prelude.{◌≡◌, [], IfOk, IfSome, OnOk, is_some, length, map, not, option_copied};
ghost use Rattle.std.specs.FinMap.{entries};
ghost use Rattle.msi_base.specs.Lists.{has_pair};
ghost use Rattle.msi_base.specs.Results.{OnlyMemory};
ghost use Rattle.msi_table_cells.specs.KeyOrder.{key_of, same_key};
ghost use Rattle.msi_table_cells.specs.CellValues.{row_values};
ghost use Rattle.msi_database_changes.specs.KeySets.{keys_of_rows};
ghost use Rattle.msi_transform_rows.specs.RowChanges.{by_key, cells_in_hand, keyed};
ghost use Rattle.msi_transform_rows.specs.RowChanges.{row_at, with_row_at, without_row_at};

use crate::row::RowInHand;
use msi_base::errors::Error;
use msi_database_changes::keys::Key;
use msi_database_changes::views::views_of_cells;
use msi_pool::stringpool::StringPool;
use msi_table_cells::cell::ValueRef;
use msi_table_values::column::Column;
use std::alloc::Global;
use std::collections::{BTreeMap, btree_map};
use std::marker::Model;

/// The rows of a table in the order of their keys, whose texts are borrowed from where they lie.
#[derive(Drop)]
pub struct KeyedRows<'a> {
    map: BTreeMap<Key<'a>, RowInHand>,
}

impl<'a> Model for KeyedRows<'a> {
    ghost use Rattle.std.specs.Coded.{codes};
    ghost use Rattle.std.specs.FinMap as finite;
    ghost use Rattle.msi_transform_rows.specs.KeyOfRows.{key_cmp};
    ghost use Rattle.msi_transform_rows.specs.declared.row.RowInHand.{RowInHand};

    ghost Value = { finite.FinMap key_cmp RowInHand };

    ghost coded = { finite.code (Prim.hlevel codes) (Prim.hlevel codes) };

    ghost view = { λ k. finite.from_entries k.map.entries };
}

impl<'a> KeyedRows<'a> {
    /// Returns a table without rows.
    pub fn new(alloc: Global) -> KeyedRows<'a>
        ensures { entries result ≡ [] }
    {
        KeyedRows {
            map: BTreeMap::new(alloc),
        }
    }

    /// Returns the row of a key, if there is one.
    pub fn get(&self, key: &Key<'a>) -> Option<&RowInHand>
        ensures { option_copied result ≡ row_at key.now (entries self.now) }
    {
        self.map.get(key)
    }

    /// Puts a row under a key, in place of the one that was there. After an error any rows may be there.
    ///
    /// # Errors
    /// Fails with `OutOfMemory`.
    pub fn insert(&mut self, key: Key<'a>, row: RowInHand) -> Result<(), Error>
        ensures ok { OnOk result (entries self.new ≡ with_row_at key.entry row (entries self.old)) }
        ensures kind { OnlyMemory result }
    {
        self.map.insert(key, row)?;
        Ok(())
    }

    /// Removes the row of a key, if there is one, and returns it.
    pub fn remove(&mut self, key: &Key<'a>) -> Option<RowInHand>
        ensures held { result ≡ row_at key.now (entries self.old) }
        ensures gone { entries self.new ≡ without_row_at key.now (entries self.old) }
    {
        self.map.remove(key)
    }

    /// Returns the number of rows.
    pub fn len(&self) -> usize
        ensures { result ≡ length (entries self.now) }
    {
        self.map.len()
    }

    /// Returns the rows with their keys, in the order of these.
    pub fn iter(&self) -> btree_map::Iter<'_, Key<'a>, RowInHand>
        ensures rest { result ≡ entries self.now }
        ensures len { length result ≡ length (entries self.now) }
    {
        self.map.iter()
    }

    /// Returns the rows behind their keys, moved out, in the order of keys.
    ///
    /// # Errors
    /// Fails with `OutOfMemory`.
    pub fn into_rows(self, alloc: Global) -> Result<Vec<(Key<'a>, RowInHand)>, Error>
        ensures ok { IfOk result (λ rows. rows.items ≡ entries self.entry) }
        ensures kind { OnlyMemory result }
    {
        let KeyedRows { map } = self;
        let mut rows = Vec::with_capacity(alloc, map.len())?;
        for (key, row) in map {
            rows.push((key, row))?;
        }
        Ok(rows)
    }
}

/// Returns the key of a row.
///
/// # Errors
/// Fails with `OutOfMemory`.
pub fn key_of_cells<'a>(
    alloc: Global,
    pool: &'a StringPool,
    columns: &[Column],
    row: &[ValueRef],
) -> Result<Key<'a>, Error>
    ensures ok { IfOk result (λ key. key ≡ key_of columns.now (row_values pool.now.places row.now)) }
    ensures kind { OnlyMemory result }
{
    let views = views_of_cells(alloc, pool, row)?;
    Key::of_row(alloc, columns, views.as_slice())
}

/// Returns the rows by their keys, or nothing if two of them share one. It takes the rows times a logarithm.
///
/// # Errors
/// Fails with `OutOfMemory`.
pub fn keyed_rows<'a>(
    alloc: Global,
    pool: &'a StringPool,
    columns: &[Column],
    rows: Vec<RowInHand>,
) -> Result<Option<KeyedRows<'a>>, Error>
    ensures rows { IfOk result (λ by_keys. IfSome by_keys (λ by_keys.
        entries by_keys ≡ by_key (map (keyed columns.now pool.now.places) rows.items))) }
    ensures distinct { IfOk result (λ by_keys. is_some by_keys
        ≡ not (has_pair same_key (keys_of_rows pool.now.places columns.now (cells_in_hand rows.items)))) }
    ensures kind { OnlyMemory result }
{
    let mut by_keys = KeyedRows::new(alloc);
    for row in rows {
        let key = key_of_cells(alloc, pool, columns, row.cells.as_slice())?;
        if by_keys.get(&key).is_some() {
            return Ok(None);
        }
        by_keys.insert(key, row)?;
    }
    Ok(Some(by_keys))
}
