//! What a record says of a row.

ghost use Rattle.std.specs.Prelude.{◌≡◌, IfOk};
ghost use Rattle.msi_base.specs.Results.{OnlyMemory};
ghost use Rattle.msi_table_cells.specs.Fitting.{cell_of};
ghost use Rattle.msi_transform_records.specs.RecordCells.{added_cells as row_added, changes_of_record, key_of_record};

use crate::records::Record;
use crate::shape::Shape;
use crate::telling::tells;
use msi_base::errors::Error;
use msi_base::text::Items;
use msi_table_cells::cell::ValueRef;
use std::alloc::Global;

fn cell_in_row(row: &[ValueRef], column: usize) -> ValueRef
    ensures { result ≡ cell_of row.now column }
{
    row.get(column).copied().unwrap_or(ValueRef::Null)
}

/// Returns the cells of the key that a record tells, in the order of the key's columns.
///
/// # Errors
/// Fails with `OutOfMemory`.
pub fn key_cells(alloc: Global, shapes: &[Shape], record: &Record) -> Result<Items<ValueRef>, Error>
    ensures ok { IfOk result (λ key. key ≡ key_of_record shapes.now «record».now) }
    ensures kind { OnlyMemory result }
{
    let mut key = Vec::new(alloc);
    let mut rest = record.cells.as_slice();
    for i in 0..shapes.len() {
        if tells(record.action, i, shapes[i])
            && let Some((cell, others)) = rest.split_first()
        {
            if shapes[i].is_key {
                key.push(*cell)?;
            }
            rest = others;
        }
    }
    Ok(Items::from_vec(key))
}

/// Returns the cells that a record tells of columns that aren't of the key, each behind the index of its column: those
/// that a change sets. A bit of a key column means nothing.
///
/// # Errors
/// Fails with `OutOfMemory`.
pub fn changed_cells(
    alloc: Global,
    shapes: &[Shape],
    record: &Record,
) -> Result<Vec<(usize, ValueRef)>, Error>
    ensures ok { IfOk result (λ changes. changes.items ≡ changes_of_record shapes.now «record».now) }
    ensures kind { OnlyMemory result }
{
    let mut changes = Vec::new(alloc);
    let mut rest = record.cells.as_slice();
    for i in 0..shapes.len() {
        if tells(record.action, i, shapes[i])
            && let Some((cell, others)) = rest.split_first()
        {
            let of_key = shapes[i].is_key;
            if !of_key {
                changes.push((i, *cell))?;
            }
            rest = others;
        }
    }
    Ok(changes)
}

/// Returns the row that a record adds to a table of such columns: null in the columns that it doesn't tell.
///
/// # Errors
/// Fails with `OutOfMemory`.
pub fn added_cells(
    alloc: Global,
    shapes: &[Shape],
    record: &Record,
) -> Result<Items<ValueRef>, Error>
    ensures ok { IfOk result (λ row. row ≡ row_added shapes.now «record».now) }
    ensures kind { OnlyMemory result }
{
    let cells = record.cells.as_slice();
    let mut row = Vec::with_capacity(alloc, shapes.len())?;
    for i in 0..shapes.len() {
        row.push(cell_in_row(cells, i))?;
    }
    Ok(Items::from_vec(row))
}
