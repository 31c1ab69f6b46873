//! The bytes of a table's stream.

ghost use Rattle.std.specs.Prelude.{◌≡◌, ℕ, ◌<◌, ◌++◌, length, OnOk, IfOk, slice_index_or, [], Some};
ghost use Rattle.std.specs.List.{flat_map};
ghost use Rattle.msi_base.specs.Results.{OnlyMemory};
ghost use Rattle.msi_table.specs.Cells.{cell_bytes, table_bytes, rows_in, stored_number};
ghost use Rattle.msi_table_cells.specs.Fitting.{cell_of, FitsColumn, FitsTable};
ghost use Rattle.msi_table_values.specs.Columns.{types_of};
ghost use Rattle.msi_table_cells.specs.StoredOrder.{in_stored_order};
ghost use Rattle.msi_table.specs.Tables.{stored_bytes};

use crate::cells::width;
use msi_base::errors::Error;
use msi_base::text::Items;
use msi_pool::parts::place_number;
use msi_table_cells::cell::ValueRef;
use msi_table_cells::order::sort_rows;
use msi_table_values::column::{Column, ColumnType};
use std::alloc::Global;

/// Returns the number whose bytes a cell takes, where it fits its column.
fn number_for(long: bool, coltype: ColumnType, cell: ValueRef) -> u32
    requires { FitsColumn long coltype cell }
    ensures { result ≡ stored_number coltype cell }
{
    match coltype {
        ColumnType::Int16 => match cell {
            ValueRef::Int(n) => (n as i64 + 0x8000) as u32,
            _ => 0,
        },
        ColumnType::Int32 => match cell {
            ValueRef::Int(n) => (n as i64 + 0x8000_0000) as u32,
            _ => 0,
        },
        ColumnType::Str(_) => match cell {
            ValueRef::Str(place) => place_number(place),
            _ => 0,
        },
        ColumnType::Binary => 1,
    }
}

fn write_cell(
    out: &mut Vec<u8>,
    long: bool,
    coltype: ColumnType,
    cell: ValueRef,
) -> Result<(), Error>
    requires { FitsColumn long coltype cell }
    ensures ok { OnOk result (out.new.items ≡ out.old.items ++ cell_bytes long coltype cell) }
    ensures kind { OnlyMemory result }
{
    let bytes = number_for(long, coltype, cell).to_le_bytes();
    out.extend_from_slice(&bytes[..width(long, coltype)])?;
    Ok(())
}

fn cell_in_row(row: &[ValueRef], j: usize) -> ValueRef
    ensures { result ≡ cell_of row.now j }
{
    row.get(j).copied().unwrap_or(ValueRef::Null)
}

fn write_column(
    out: &mut Vec<u8>,
    long: bool,
    coltype: ColumnType,
    rows: &[Items<ValueRef>],
    j: usize,
) -> Result<(), Error>
    requires { (i : ℕ) → i < length rows.now → FitsColumn long coltype (cell_of (slice_index_or rows.now i []) j) }
    ensures ok { let added = flat_map (λ row. cell_bytes long coltype (cell_of row j)) rows.now in
        OnOk result (out.new.items ≡ out.old.items ++ added) }
    ensures kind { OnlyMemory result }
{
    for i in 0..rows.len() {
        write_cell(out, long, coltype, cell_in_row(rows[i].as_slice(), j))?;
    }
    Ok(())
}

pub(crate) fn write_table(
    alloc: Global,
    long: bool,
    columns: &[Column],
    rows: &[Items<ValueRef>],
) -> Result<Vec<u8>, Error>
    requires { FitsTable long (types_of columns.now) rows.now }
    ensures ok { IfOk result (λ bytes. bytes.items ≡ table_bytes long (types_of columns.now) rows.now) }
    ensures reads_back { IfOk result (λ bytes. rows_in long (types_of columns.now) bytes.items ≡ Some rows.now) }
    ensures kind { OnlyMemory result }
{
    let mut out = Vec::new(alloc);
    for j in 0..columns.len() {
        write_column(&mut out, long, columns[j].coltype(), rows, j)?;
    }
    Ok(out)
}

/// Returns the bytes of rows in their stored order.
pub(crate) fn write_rows(
    alloc: Global,
    long: bool,
    columns: &[Column],
    mut rows: Vec<Items<ValueRef>>,
) -> Result<Vec<u8>, Error>
    requires { FitsTable long (types_of columns.now) rows.items }
    ensures ok { IfOk result (λ bytes. bytes.items ≡ stored_bytes long columns.now rows.items) }
    ensures reads_back { let stored = in_stored_order columns.now rows.items in
        IfOk result (λ bytes. rows_in long (types_of columns.now) bytes.items ≡ Some stored) }
    ensures kind { OnlyMemory result }
{
    sort_rows(columns, &mut rows)?;
    write_table(alloc, long, columns, rows.as_slice())
}
