//! Inserting rows: why new rows are refused, and the rows of a table with new ones.

ghost use Rattle.std.specs.Prelude.{◌≡◌, Some, None, IfOk, IfErr, OnOk, true};
ghost use Rattle.msi_base.specs.declared.errors.ErrorKind.TheVariants.{InvalidInput};
ghost use Rattle.msi_base.specs.Results.{OnlyMemory};
ghost use Rattle.msi_base.specs.Refusals.{IsRefusal, first_refusal, or_refused, unless_refused};
ghost use Rattle.msi_database_changes.specs.Insert.{cells_added, misfit_refusals, new_row_refusals};
ghost use Rattle.msi_database_changes.specs.Insert.{row_fits as fits_columns, row_refusals, table_with};
ghost use Rattle.msi_database_changes.specs.Insert.{whole_rows as rows_of_all_columns};
ghost use Rattle.msi_database_changes.specs.Texts.{in_use};

use crate::keys::refuse_clashes;
use crate::naming::{named_rows, refuse_named_rows};
use crate::reasons;
use crate::texts::PoolInUse;
use msi_base::errors::{Error, ErrorKind};
use msi_base::text::{Items, Text};
use msi_pool::stringpool::StringPool;
use msi_query::parts::NewRow;
use msi_table_cells::cell::ValueRef;
use msi_table_cells::order::sort_by_keys;
use msi_table_cells::parts::MAX_ROWS;
use msi_table_values::column::Column;
use msi_table_values::value::Value;
use std::alloc::Global;

fn row_fits(columns: &[Column], row: &[Value]) -> bool
    ensures { result ≡ fits_columns columns.now row.now }
{
    if row.len() != columns.len() {
        return false;
    }
    for i in 0..columns.len() {
        if !columns[i].is_valid_value(&row[i]) {
            return false;
        }
    }
    true
}

fn refuse_misfits(columns: &[Column], rows: &[Items<Value>]) -> Result<(), Error>
    ensures { result ≡ unless_refused (misfit_refusals columns.now rows.now) tt }
{
    for row in rows {
        if !row_fits(columns, row.as_slice()) {
            return Err(Error::new(ErrorKind::InvalidInput, reasons::ROW_MISFITS));
        }
    }
    Ok(())
}

fn refuse_new_misfits(columns: &[Column], rows: &[NewRow]) -> Result<(), Error>
    ensures { result ≡ unless_refused (misfit_refusals columns.now rows.now) tt }
{
    for row in rows {
        if !row_fits(columns, row.values()) {
            return Err(Error::new(ErrorKind::InvalidInput, reasons::ROW_MISFITS));
        }
    }
    Ok(())
}

/// Refuses the rows of an insert for the columns that it names and for their values. It takes no memory.
///
/// # Errors
/// Fails with `InvalidInput` if columns are named, of which one isn't there or is named twice, or if a row has more or
/// fewer values than there are names; and if a row has a value too few or too many, or one that its column doesn't
/// take: null for a column that isn't named.
pub fn refuse_new_rows(columns: &[Column], names: &[Text], rows: &[NewRow]) -> Result<(), Error>
    ensures { result ≡ unless_refused (new_row_refusals columns.now names.now rows.now) tt }
{
    if names.is_empty() {
        refuse_new_misfits(columns, rows)
    } else {
        refuse_named_rows(columns, names, rows)
    }
}

/// Returns new rows with a value for each column. If columns are named, the values of each row are of those, and the
/// others get null.
///
/// # Errors
/// Fails with `OutOfMemory`.
pub fn whole_rows(
    alloc: Global,
    columns: &[Column],
    names: &[Text],
    rows: Vec<NewRow>,
) -> Result<Vec<Items<Value>>, Error>
    ensures ok { IfOk result (λ values. values.items ≡ rows_of_all_columns columns.now names.now rows.items) }
    ensures kind { OnlyMemory result }
{
    if names.is_empty() {
        values_of(alloc, rows)
    } else {
        named_rows(alloc, columns, names, rows.as_slice())
    }
}

/// The values of new rows, moved out.
fn values_of(alloc: Global, rows: Vec<NewRow>) -> Result<Vec<Items<Value>>, Error>
    ensures ok { IfOk result (λ values. values.items ≡ rows.items) }
    ensures kind { OnlyMemory result }
{
    let mut values = Vec::new(alloc);
    for row in rows {
        values.push(Items::from_vec(row.into_values()))?;
    }
    Ok(values)
}

/// Refuses new rows of a table that has these columns and rows, whose texts stand in the pool. It takes the rows
/// times a logarithm.
///
/// # Errors
/// Fails with the first of these that applies: `InvalidInput` if a new row has a value too few or too many, or one
/// that its column doesn't take; `InvalidData` if two of the table's rows share a key; then, row by row,
/// `AlreadyExists` if a row's key is that of one of the table's, and `InvalidInput` if it is that of an earlier new
/// one; `InvalidInput` if the table would have more than 65536 rows. It may fail with `OutOfMemory` in place of any
/// of these.
pub fn refuse_rows(
    alloc: Global,
    pool: &StringPool,
    columns: &[Column],
    rows: &[Items<ValueRef>],
    new_rows: &[Items<Value>],
) -> Result<(), Error>
    ensures ok { let refusals = row_refusals pool.now.places (table_with columns.now rows.now) new_rows.now in
        OnOk result (first_refusal refusals ≡ None) }
    ensures kind { let refusals = row_refusals pool.now.places (table_with columns.now rows.now) new_rows.now in
        IfErr result (IsRefusal {A = Unit {0}} (unless_refused refusals tt)) }
{
    refuse_misfits(columns, new_rows)?;
    refuse_clashes(alloc, pool, columns, rows, new_rows)?;
    if rows.len().saturating_add(new_rows.len()) > MAX_ROWS {
        return Err(Error::new(ErrorKind::InvalidInput, reasons::TOO_MANY_ROWS));
    }
    Ok(())
}

/// Returns the rows of a table of these columns with new ones, whose texts the pool takes row by row: all are ordered
/// by their keys. Their stored order is given to them where they are written.
///
/// # Errors
/// Fails with `InvalidInput` if the pool is full at 16777215 places, or with `OutOfMemory`, which may come before.
pub fn add_rows(
    alloc: Global,
    columns: &[Column],
    pool: &mut PoolInUse,
    rows: Vec<Items<ValueRef>>,
    new_rows: Vec<Items<Value>>,
) -> Result<Vec<Items<ValueRef>>, Error>
    ensures ok { IfOk result (λ all.
        cells_added true columns.now (in_use pool.old) rows.items new_rows.items
        ≡ Some (all.items, in_use pool.new)) }
    ensures kind { let all = cells_added true columns.now (in_use pool.old) rows.items new_rows.items in
        IfErr result (IsRefusal (or_refused InvalidInput all)) }
    ensures page { pool.new.pool.page ≡ pool.old.pool.page }
    ensures long { pool.new.pool.long ≡ pool.old.pool.long }
{
    let mut cells = pool.put_rows(alloc, new_rows)?;
    let mut all = rows;
    all.append(&mut cells)?;
    sort_by_keys(columns, pool.pool(), &mut all)?;
    Ok(all)
}
