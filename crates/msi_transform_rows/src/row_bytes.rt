//! The bytes of a table's rows, whichever cells these have.

ghost use Rattle.std.specs.Prelude.{◌≡◌, ◌≤◌, ◌+ℤ◌, ◌^◌, ◌++◌, IfOk, OnOk, pos};
ghost use Rattle.std.specs.Int.{cast_unsigned, w16};
ghost use Rattle.std.specs.List.{flat_map};
ghost use Rattle.msi_base.specs.Results.{OnlyMemory};
ghost use Rattle.msi_table.specs.Cells.{cell_bytes, stored_number, table_bytes, width as width_of};
ghost use Rattle.msi_table.specs.Tables.{stored_bytes};
ghost use Rattle.msi_table_cells.specs.Fitting.{cell_of};
ghost use Rattle.msi_table_values.specs.Columns.{types_of};

use msi_base::errors::Error;
use msi_base::text::Items;
use msi_pool::parts::place_number;
use msi_table_cells::cell::ValueRef;
use msi_table_cells::order::sort_rows;
use msi_table_values::column::{Column, ColumnType};
use std::alloc::Global;

fn width(long: bool, coltype: ColumnType) -> usize
    ensures value { result ≡ width_of long coltype }
    ensures most { result ≤ 4 }
{
    match coltype {
        ColumnType::Int16 | ColumnType::Binary => 2,
        ColumnType::Int32 => 4,
        ColumnType::Str(_) => { if long { 3 } else { 2 } }
    }
}

/// Returns the number whose low bytes stand for a number in a column of 16 bits.
fn short_number(number: i32) -> u32
    ensures { result ≡ cast_unsigned w16 (number +ℤ pos (2 ^ 15)) }
{
    let raised = number as i64 + 0x8000;
    if raised >= 0 {
        raised as u32
    } else if raised > -0x1_0000 {
        (raised + 0x1_0000) as u32
    } else {
        0
    }
}

/// Returns the number whose bytes a cell takes: that of null where its column has no such cells.
fn number_for(coltype: ColumnType, cell: ValueRef) -> u32
    ensures { result ≡ stored_number coltype cell }
{
    match coltype {
        ColumnType::Int16 => match cell {
            ValueRef::Int(number) => short_number(number),
            ValueRef::Null | ValueRef::Str(_) | ValueRef::Binary => 0,
        },
        ColumnType::Int32 => match cell {
            ValueRef::Int(number) => (number as i64 + 0x8000_0000) as u32,
            ValueRef::Null | ValueRef::Str(_) | ValueRef::Binary => 0,
        },
        ColumnType::Str(_) => match cell {
            ValueRef::Str(place) => place_number(place),
            ValueRef::Null | ValueRef::Int(_) | ValueRef::Binary => 0,
        },
        ColumnType::Binary => 1,
    }
}

fn write_cell(
    out: &mut Vec<u8>,
    long: bool,
    coltype: ColumnType,
    cell: ValueRef,
) -> Result<(), Error>
    ensures ok { OnOk result (out.new.items ≡ out.old.items ++ cell_bytes long coltype cell) }
    ensures kind { OnlyMemory result }
{
    let bytes = number_for(coltype, cell).to_le_bytes();
    out.extend_from_slice(&bytes[..width(long, coltype)])?;
    Ok(())
}

fn cell_in_row(row: &[ValueRef], j: usize) -> ValueRef
    ensures { result ≡ cell_of row.now j }
{
    row.get(j).copied().unwrap_or(ValueRef::Null)
}

fn write_column(
    out: &mut Vec<u8>,
    long: bool,
    coltype: ColumnType,
    rows: &[Items<ValueRef>],
    j: usize,
) -> Result<(), Error>
    ensures ok { let added = flat_map (λ row. cell_bytes long coltype (cell_of row j)) rows.now in
        OnOk result (out.new.items ≡ out.old.items ++ added) }
    ensures kind { OnlyMemory result }
{
    for i in 0..rows.len() {
        write_cell(out, long, coltype, cell_in_row(rows[i].as_slice(), j))?;
    }
    Ok(())
}

/// Returns the bytes of rows in the order that they have.
fn ordered_bytes(
    alloc: Global,
    long: bool,
    columns: &[Column],
    rows: &[Items<ValueRef>],
) -> Result<Vec<u8>, Error>
    ensures ok { IfOk result (λ bytes. bytes.items ≡ table_bytes long (types_of columns.now) rows.now) }
    ensures kind { OnlyMemory result }
{
    let mut out = Vec::new(alloc);
    for j in 0..columns.len() {
        write_column(&mut out, long, columns[j].coltype(), rows, j)?;
    }
    Ok(out)
}

/// Returns the bytes of rows in their stored order. A cell that its column can't store is written as null is, or by
/// its low bits.
///
/// # Errors
/// Fails with `OutOfMemory`.
pub fn row_bytes(
    alloc: Global,
    long: bool,
    columns: &[Column],
    mut rows: Vec<Items<ValueRef>>,
) -> Result<Vec<u8>, Error>
    ensures ok { IfOk result (λ bytes. bytes.items ≡ stored_bytes long columns.now rows.items) }
    ensures kind { OnlyMemory result }
{
    sort_rows(columns, &mut rows)?;
    ordered_bytes(alloc, long, columns, rows.as_slice())
}
