//! New values in a row: put where its values are seen, and exchanged for its cells.

ghost use Rattle.std.specs.Prelude.{◌≡◌, map, set, List, IfOk, IfErr, OnOk, Some, true};
ghost use Rattle.msi_base.specs.Results.{OnlyMemory};
ghost use Rattle.msi_base.specs.declared.errors.ErrorKind.TheVariants.{InvalidInput};
ghost use Rattle.msi_base.specs.Refusals.{IsRefusal, or_refused};
ghost use Rattle.msi_table_cells.specs.Fitting.{cell_of};
ghost use Rattle.msi_table_values.specs.Columns.{ColumnDef};
ghost use Rattle.msi_database_changes.specs.Setting.{cell_exchanged, cells_set, index_of, values_set};
ghost use Rattle.msi_database_changes.specs.Texts.{in_use};
ghost use Rattle.msi_database_changes.specs.Views.{seen_row};

use crate::texts::PoolInUse;
use msi_base::errors::Error;
use msi_query_expressions::parts::Assignment;
use msi_table_cells::cell::ValueRef;
use msi_table_values::column::Column;
use msi_table_values::parts::{ValueView, column_index};
use msi_table_values::value::Value;
use std::alloc::Global;

/// Returns where the columns of new values stand; 0 for a name that is none of a column.
///
/// # Errors
/// Fails with `OutOfMemory`.
pub fn places_of(
    alloc: Global,
    columns: &[Column],
    sets: &[Assignment],
) -> Result<Vec<usize>, Error>
    ensures ok { IfOk result (λ places. places.items ≡ map (index_of columns.now) sets.now) }
    ensures kind { OnlyMemory result }
{
    let mut places = Vec::new(alloc);
    for set in sets {
        places.push(column_index(columns, set.column()).unwrap_or(0))?;
    }
    Ok(places)
}

fn set_view<'a>(row: &mut Vec<ValueView<'a>>, place: usize, view: ValueView<'a>)
    ensures { row.new.items ≡ set row.old.items place view.entry }
{
    if place < row.len() {
        row[place] = view;
    }
}

/// Puts new values into a row that is seen where it lies, at the places of their columns.
pub fn set_views<'a>(row: &mut Vec<ValueView<'a>>, places: &[usize], sets: &'a [Assignment])
    ensures { (columns : List ColumnDef) → places.now ≡ map (index_of columns) sets.now
        → seen_row row.new.items ≡ values_set columns sets.now (seen_row row.old.items) }
{
    for i in 0..sets.len().min(places.len()) {
        set_view(row, places[i], ValueView::of(sets[i].value()));
    }
}

fn cell_at(row: &[ValueRef], place: usize) -> ValueRef
    ensures { result ≡ cell_of row.now place }
{
    match row.get(place) {
        Some(cell) => *cell,
        None => ValueRef::Null,
    }
}

fn set_cell(row: &mut Vec<ValueRef>, place: usize, cell: ValueRef)
    ensures { row.new.items ≡ set row.old.items place cell }
{
    if place < row.len() {
        row[place] = cell;
    }
}

/// Exchanges a cell of a row for that of a value, whose text is moved in: the pool gets the old text back before the
/// new one is taken from it.
///
/// # Errors
/// Fails with `InvalidInput` if the pool is full, or with `OutOfMemory`, which may come before.
pub fn exchange_cell(
    pool: &mut PoolInUse,
    row: &mut Vec<ValueRef>,
    place: usize,
    value: Value,
) -> Result<(), Error>
    ensures ok { OnOk result (cell_exchanged true (in_use pool.old) row.old.items place value
        ≡ Some (row.new.items, in_use pool.new)) }
    ensures kind { IfErr result (IsRefusal (or_refused InvalidInput
        (cell_exchanged true (in_use pool.old) row.old.items place value))) }
    ensures page { pool.new.pool.page ≡ pool.old.pool.page }
    ensures long { pool.new.pool.long ≡ pool.old.pool.long }
{
    pool.release(cell_at(row.as_slice(), place))?;
    let cell = pool.put(value)?;
    set_cell(row, place, cell);
    Ok(())
}

fn exchange(
    alloc: Global,
    pool: &mut PoolInUse,
    row: &mut Vec<ValueRef>,
    place: usize,
    value: &Value,
) -> Result<(), Error>
    ensures ok { OnOk result (cell_exchanged true (in_use pool.old) row.old.items place value.now
        ≡ Some (row.new.items, in_use pool.new)) }
    ensures kind { IfErr result (IsRefusal (or_refused InvalidInput
        (cell_exchanged true (in_use pool.old) row.old.items place value.now))) }
    ensures page { pool.new.pool.page ≡ pool.old.pool.page }
    ensures long { pool.new.pool.long ≡ pool.old.pool.long }
{
    exchange_cell(pool, row, place, value.clone(alloc)?)
}

/// Returns a row of cells with new values, at the places of their columns, one after another: the pool gets the old
/// text back, and then the new one is taken from it.
///
/// # Errors
/// Fails with `InvalidInput` if the pool is full, or with `OutOfMemory`, which may come before.
pub fn set_cells(
    alloc: Global,
    pool: &mut PoolInUse,
    row: Vec<ValueRef>,
    places: &[usize],
    sets: &[Assignment],
) -> Result<Vec<ValueRef>, Error>
    ensures ok { IfOk result (λ cells. (columns : List ColumnDef) → places.now ≡ map (index_of columns) sets.now
        → cells_set true columns (in_use pool.old) row.items sets.now
        ≡ Some (cells.items, in_use pool.new)) }
    ensures kind { IfErr result (λ kind. (columns : List ColumnDef) → places.now ≡ map (index_of columns) sets.now
        → let cells = cells_set true columns (in_use pool.old) row.items sets.now in
        IsRefusal (or_refused InvalidInput cells) kind) }
    ensures page { pool.new.pool.page ≡ pool.old.pool.page }
    ensures long { pool.new.pool.long ≡ pool.old.pool.long }
{
    let mut row = row;
    for i in 0..sets.len().min(places.len()) {
        exchange(alloc, pool, &mut row, places[i], sets[i].value())?;
    }
    Ok(row)
}
