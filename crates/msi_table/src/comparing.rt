//! The differences between the rows of two tables.

ghost use Rattle.std.specs.Prelude.{◌≡◌, IfOk, List};
ghost use Rattle.msi_base.specs.Results.{OnlyMemory};
ghost use Rattle.msi_table_values.specs.declared.value.Value.{Value as ValueOf};
ghost use Rattle.msi_table.specs.Differences.{IsIndex, differences as differences_of, each_from};
ghost use Rattle.msi_table.specs.Differences.{of_new as of_new_row, of_old as of_old_row, stands_at as stands_there};

use crate::index::index_of;
use crate::keys::Key;
use msi_base::errors::Error;
use msi_base::text::Items;
use msi_table_values::column::Column;
use msi_table_values::value::Value;
use std::alloc::Global;
use std::collections::BTreeMap;

/// A difference between the rows of two tables. A row is named by its place, from 0 on.
#[derive(Clone, Copy, Debug, PartialEq, Eq, Drop)]
pub enum Difference {
    /// The old table has a row whose key no row of the new one has.
    Removed(usize),
    /// A row of the old table has other values than the row of the new one with its key.
    Changed(usize, usize),
    /// The new table has a row whose key no row of the old one has.
    Added(usize),
}

fn stands_at(rows: &[Items<Value>], place: usize, row: &[Value]) -> bool
    ensures { result ≡ stands_there rows.now place row.now }
{
    match rows.get(place) {
        Some(other) => other.as_slice() == row,
        None => false,
    }
}

fn of_old(
    alloc: Global,
    columns: &[Column],
    index: &BTreeMap<Key, usize>,
    new: &[Items<Value>],
    place: usize,
    row: &[Value],
) -> Result<Option<Difference>, Error>
    ensures ok { IfOk result (λ found.
        IsIndex columns.now new.now index.now → found ≡ of_old_row columns.now new.now place row.now) }
    ensures kind { OnlyMemory result }
{
    let key = Key::of_row(alloc, columns, row)?;
    Ok(match index.get(&key).copied() {
        None => Some(Difference::Removed(place)),
        Some(there) if stands_at(new, there, row) => None,
        Some(there) => Some(Difference::Changed(place, there)),
    })
}

fn of_new(
    alloc: Global,
    columns: &[Column],
    index: &BTreeMap<Key, usize>,
    place: usize,
    row: &[Value],
) -> Result<Option<Difference>, Error>
    ensures ok { IfOk result (λ found. (old : List (List ValueOf)) →
        IsIndex columns.now old index.now → found ≡ of_new_row columns.now old place row.now) }
    ensures kind { OnlyMemory result }
{
    let key = Key::of_row(alloc, columns, row)?;
    Ok(match index.get(&key) {
        None => Some(Difference::Added(place)),
        Some(_) => None,
    })
}

fn of_old_rows(
    alloc: Global,
    columns: &[Column],
    old: &[Items<Value>],
    new: &[Items<Value>],
) -> Result<Vec<Difference>, Error>
    ensures ok { IfOk result (λ found. found.items ≡ each_from (of_old_row columns.now new.now) 0 old.now) }
    ensures kind { OnlyMemory result }
{
    let index = index_of(alloc, columns, new)?;
    let mut found = Vec::new(alloc);
    for i in 0..old.len() {
        match of_old(alloc, columns, &index, new, i, old[i].as_slice())? {
            Some(difference) => found.push(difference)?,
            None => {}
        }
    }
    Ok(found)
}

fn of_new_rows(
    alloc: Global,
    columns: &[Column],
    old: &[Items<Value>],
    new: &[Items<Value>],
) -> Result<Vec<Difference>, Error>
    ensures ok { IfOk result (λ found. found.items ≡ each_from (of_new_row columns.now old.now) 0 new.now) }
    ensures kind { OnlyMemory result }
{
    let index = index_of(alloc, columns, old)?;
    let mut found = Vec::new(alloc);
    for i in 0..new.len() {
        match of_new(alloc, columns, &index, i, new[i].as_slice())? {
            Some(difference) => found.push(difference)?,
            None => {}
        }
    }
    Ok(found)
}

/// Returns the differences between the rows of two tables with the same columns: for each old row whether it is removed
/// or changed, in the order of the old rows, and then the new rows that are added, in theirs. Rows are paired by the
/// values of their key columns. If several rows of a table have one key, which no sound table has, the last of them
/// stands for it. It takes the rows times a logarithm.
///
/// # Errors
/// Fails with `OutOfMemory`.
pub fn differences(
    alloc: Global,
    columns: &[Column],
    old: &[Items<Value>],
    new: &[Items<Value>],
) -> Result<Vec<Difference>, Error>
    ensures ok { IfOk result (λ found. found.items ≡ differences_of columns.now old.now new.now) }
    ensures kind { OnlyMemory result }
{
    let mut found = of_old_rows(alloc, columns, old, new)?;
    let added = of_new_rows(alloc, columns, old, new)?;
    found.extend_from_slice(added.as_slice())?;
    Ok(found)
}
