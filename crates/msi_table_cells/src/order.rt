//! Sorts rows: into the order in which a table stores them, and into that of their keys.

ghost use Rattle.std.specs.Prelude.{◌≡◌, OnOk, OnErr, option_map};
ghost use Rattle.std.specs.List.{slice_get};
ghost use Rattle.std.specs.Option.{option_cmp};
ghost use Rattle.msi_base.specs.Results.{OnlyMemory};
ghost use Rattle.msi_table_cells.specs.CellValues.{value_of_cell};
ghost use Rattle.msi_table_cells.specs.KeyOrder.{key_cmp, in_key_order};
ghost use Rattle.msi_table_cells.specs.StoredOrder.{row_cmp, in_stored_order};
ghost use Rattle.msi_table_values.specs.Values.{value_cmp};

use crate::cell::ValueRef;
use crate::views::compare_values;
use msi_base::errors::Error;
use msi_base::text::Items;
use msi_pool::stringpool::StringPool;
use msi_table_values::column::Column;
use msi_table_values::parts::is_of_category_binary;
use std::alloc::AllocError;
use std::cmp::Ordering;

fn cell_of(row: &[ValueRef], i: usize) -> Option<ValueRef>
    ensures { result ≡ slice_get row.now i }
{
    row.get(i).copied()
}

/// Compares by the first cell that differs, skipping columns of category Binary. Where a row ends before, its missing
/// cells come first.
fn compare_rows(columns: &[Column], row: &[ValueRef], other: &[ValueRef]) -> Ordering
    ensures { result ≡ row_cmp columns.now row.now other.now }
{
    for i in 0..columns.len() {
        if is_of_category_binary(&columns[i]) {
            continue;
        }
        let order = cell_of(row, i).cmp(&cell_of(other, i));
        if order != Ordering::Equal {
            return order;
        }
    }
    Ordering::Equal
}

/// Puts rows into their stored order; rows that tie stay in their order. If it fails, they are as before.
///
/// # Errors
/// Fails if memory runs out.
pub fn sort_rows(columns: &[Column], rows: &mut Vec<Items<ValueRef>>) -> Result<(), AllocError>
    ensures ok { OnOk result (rows.new.items ≡ in_stored_order columns.now rows.old.items) }
    ensures err { OnErr result (rows.new.items ≡ rows.old.items) }
{
    rows.sort_by(|row, other| compare_rows(columns, row.as_slice(), other.as_slice()))
}

/// Compares the values of two cells; a missing cell comes first. No text is copied.
fn compare_if_present(
    pool: &StringPool,
    cell: Option<ValueRef>,
    other: Option<ValueRef>,
) -> Ordering
    ensures { let value = value_of_cell pool.now.places in
        result ≡ option_cmp value_cmp (option_map value cell) (option_map value other) }
{
    match cell {
        Some(cell) => match other {
            Some(other) => compare_values(pool, cell, other),
            None => Ordering::Greater,
        },
        None => match other {
            Some(_) => Ordering::Less,
            None => Ordering::Equal,
        },
    }
}

/// Compares two rows by the first value of a key column that differs. Where a row ends before, its missing values come
/// first. No text is copied.
fn compare_keys(
    columns: &[Column],
    pool: &StringPool,
    row: &[ValueRef],
    other: &[ValueRef],
) -> Ordering
    ensures { result ≡ key_cmp columns.now pool.now.places row.now other.now }
{
    for i in 0..columns.len() {
        if !columns[i].is_primary_key() {
            continue;
        }
        let order = compare_if_present(pool, cell_of(row, i), cell_of(other, i));
        if order != Ordering::Equal {
            return order;
        }
    }
    Ordering::Equal
}

/// Puts rows into the order of their keys; rows with one key stay in their order. If it fails, they are as before.
///
/// # Errors
/// Fails with `OutOfMemory`.
pub fn sort_by_keys(
    columns: &[Column],
    pool: &StringPool,
    rows: &mut Vec<Items<ValueRef>>,
) -> Result<(), Error>
    ensures ok { OnOk result (rows.new.items ≡ in_key_order columns.now pool.now.places rows.old.items) }
    ensures kind { OnlyMemory result }
    ensures err { OnErr result (rows.new.items ≡ rows.old.items) }
{
    rows.sort_by(|row, other| compare_keys(columns, pool, row.as_slice(), other.as_slice()))?;
    Ok(())
}
