//! What the crates above need beyond the surface.

ghost use Rattle.std.specs.Prelude.{◌≡◌, ◌<◌, ◌↔◌, IfOk, IsTrue, Some, is_some, length, option_map};
ghost use Rattle.std.specs.Prelude.{true};
ghost use Rattle.msi_base.specs.Results.{OnlyMemory};
ghost use Rattle.msi_base.specs.declared.errors.ErrorKind.TheVariants.{InvalidData};
ghost use Rattle.msi_table_values.specs.Refusals.{FailsWith};
ghost use Rattle.msi_table_cells.specs.CellValues.{row_values};
ghost use Rattle.msi_table_values.specs.Columns.{types_of};
ghost use Rattle.msi_table.specs.Cells.{table_bytes};
ghost use Rattle.msi_table.specs.Tables.{CanStore, long_table_of, rows_spelled, stored_bytes, table_of};
ghost use Rattle.msi_table.specs.Rows.{AreAsWide, AreRowNumbers, rows_from, rows_picked, table_rows};
ghost use Rattle.msi_table_cells.specs.StoredOrder.{in_stored_order};

pub use crate::census::Census;
pub use crate::picked::{PickedRows, cell_of, projected_row};
use crate::row::{Rows, values_of};
pub use crate::stored::StoredRows;
use crate::table::Table;
use crate::{rows as reading, writing};
use msi_base::errors::Error;
use msi_base::text::{Items, Text};
use msi_pool::stringpool::StringPool;
use msi_table_cells::cell::ValueRef;
pub use msi_table_cells::order::sort_by_keys;
use msi_table_cells::parts as cells_of_tables;
pub use msi_table_cells::parts::{MAX_ROWS, compare_values, view_of_cell};
use msi_table_values::column::Column;
pub use msi_table_values::parts::{
    ValueView, column_index, column_of_bits, copied_columns, copied_list, has_column, nullable,
    renamed, type_bits,
};
use msi_table_values::value::Value;
use std::alloc::Global;

/// Returns a table of its parts, if its columns are at most 32767: their numbers are stored in 16 bits. References to
/// texts take three bytes if they are long, and otherwise two.
pub fn table(name: Text, columns: Items<Column>, long: bool) -> Option<Table>
    ensures { result ≡ table_of name columns long }
{
    Table::of_parts(name, columns, long)
}

/// Returns whether `read_rows` can read the bytes of a table's stream: they have at most 65536 rows.
pub fn can_read_rows(table: &Table, bytes: &[u8]) -> bool
    ensures { result ≡ is_some (rows_spelled table.now bytes.now) }
{
    reading::are_rows(table.is_long(), table.columns(), bytes)
}

/// Returns the rows that the bytes of a table's stream encode; bytes past the last whole row are ignored. Each row
/// has a cell for each column, and a table that has a column can store them.
///
/// # Errors
/// Fails with `InvalidData` above 65536 rows, or with `OutOfMemory`.
pub fn read_rows(alloc: Global, table: &Table, bytes: &[u8]) -> Result<Vec<Items<ValueRef>>, Error>
    ensures ok { IfOk result (λ rows. rows_spelled table.now bytes.now ≡ Some rows.items) }
    ensures wide { IfOk result (λ rows. AreAsWide table.now.columns rows.items) }
    ensures storable { IfOk result (λ rows. 0 < length table.now.columns → CanStore table.now rows.items) }
    ensures kind { FailsWith InvalidData result (rows_spelled table.now bytes.now) }
{
    reading::read_rows(alloc, table.is_long(), table.columns(), bytes)
}

/// Returns whether a table can store rows: it has a column, they are at most 65536, and each has for each column a
/// cell that the column can store.
pub fn fits_table(table: &Table, rows: &[Items<ValueRef>]) -> bool
    ensures { IsTrue result ↔ CanStore table.now rows.now }
{
    cells_of_tables::fits_table(table.is_long(), table.columns(), rows)
}

/// Returns the bytes of a table's rows in their stored order, which read back. The table has to be able to store the
/// rows, which `fits_table` checks.
///
/// # Errors
/// Fails with `OutOfMemory`.
pub fn write_rows(
    alloc: Global,
    table: &Table,
    rows: Vec<Items<ValueRef>>,
) -> Result<Vec<u8>, Error>
    requires { CanStore table.now rows.items }
    ensures ok { IfOk result (λ bytes. bytes.items ≡ stored_bytes table.now.long table.now.columns rows.items) }
    ensures reads_back { let stored = in_stored_order table.now.columns rows.items in
        IfOk result (λ bytes. rows_spelled table.now bytes.items ≡ Some stored) }
    ensures kind { OnlyMemory result }
{
    writing::write_rows(alloc, table.is_long(), table.columns(), rows)
}

/// Returns the bytes of a table's rows with references of three bytes, in the order that the rows have. They read back
/// in the table once its references are long. The table has to be able to store the rows as it is, which `fits_table`
/// checks.
///
/// # Errors
/// Fails with `OutOfMemory`.
pub fn write_long_rows(
    alloc: Global,
    table: &Table,
    rows: &[Items<ValueRef>],
) -> Result<Vec<u8>, Error>
    requires { CanStore table.now rows.now }
    ensures ok { IfOk result (λ bytes. bytes.items ≡ table_bytes true (types_of table.now.columns) rows.now) }
    ensures reads_back { IfOk result (λ bytes. rows_spelled (long_table_of table.now) bytes.items ≡ Some rows.now) }
    ensures kind { OnlyMemory result }
{
    writing::write_table(alloc, true, table.columns(), rows)
}

/// Returns the bytes of a table's rows in the order that the rows have. The table has to be able to store the rows,
/// which `fits_table` checks.
///
/// # Errors
/// Fails with `OutOfMemory`.
pub fn write_ordered_rows(
    alloc: Global,
    table: &Table,
    rows: &[Items<ValueRef>],
) -> Result<Vec<u8>, Error>
    requires { CanStore table.now rows.now }
    ensures ok { IfOk result (λ bytes. bytes.items ≡ table_bytes table.now.long (types_of table.now.columns) rows.now) }
    ensures kind { OnlyMemory result }
{
    writing::write_table(alloc, table.is_long(), table.columns(), rows)
}

/// Returns a copy of a table whose references to texts take three bytes.
///
/// # Errors
/// Fails with `OutOfMemory`.
pub fn long_table(alloc: Global, table: &Table) -> Result<Table, Error>
    ensures ok { IfOk result (λ long. long ≡ long_table_of table.now) }
    ensures kind { OnlyMemory result }
{
    table.with_long_references(alloc)
}

/// Returns the values that cells stand for, in order.
///
/// # Errors
/// Fails with `OutOfMemory`.
pub fn values(alloc: Global, pool: &StringPool, cells: &[ValueRef]) -> Result<Items<Value>, Error>
    ensures ok { IfOk result (λ values. values ≡ row_values pool.now.places cells.now) }
    ensures kind { OnlyMemory result }
{
    values_of(alloc, pool, cells)
}

/// Returns rows that have a cell for each column, over the pool of their texts.
///
/// # Errors
/// Fails with `OutOfMemory`.
pub fn rows<'a>(
    alloc: Global,
    pool: &'a StringPool,
    columns: Items<Column>,
    cells: Vec<Items<ValueRef>>,
) -> Result<Rows<'a>, Error>
    requires { AreAsWide columns cells.items }
    ensures ok { IfOk result (λ rows.
        rows ≡ rows_from columns pool.now.places cells.items) }
    ensures kind { OnlyMemory result }
{
    Rows::of_cells(alloc, pool, columns, cells)
}

/// Returns rows that are picked of a table's stream, and have a cell for each column, over the pool of their texts.
/// Each is decoded when it is asked for. The numbers that are picked have to be below that of the table's rows, and the
/// columns as many as the places, or without places as the table's.
///
/// # Errors
/// Fails with `OutOfMemory`.
pub fn rows_of_picked<'a>(
    alloc: Global,
    pool: &'a StringPool,
    columns: Items<Column>,
    picked: PickedRows<'a>,
) -> Result<Rows<'a>, Error>
    requires numbers { AreRowNumbers (length picked.stored.rows) picked.numbers }
    requires wide { AreAsWide columns (rows_picked picked.numbers picked.places picked.stored.rows) }
    ensures ok { IfOk result (λ rows. rows ≡ rows_from columns pool.now.places
        (rows_picked picked.entry.numbers picked.entry.places picked.entry.stored.rows)) }
    ensures kind { OnlyMemory result }
{
    Rows::of_picked(alloc, pool, columns, picked)
}

/// Returns the rows that the bytes of a table's stream encode, and that stay there, if they are at most 65536; bytes
/// past the last whole row are ignored. It takes no memory.
pub fn rows_in_place<'a>(table: &'a Table, bytes: &'a [u8]) -> Option<StoredRows<'a>>
    ensures { result ≡ option_map (table_rows table.now.columns) (rows_spelled table.now bytes.now) }
{
    StoredRows::of_stream(table, bytes)
}
