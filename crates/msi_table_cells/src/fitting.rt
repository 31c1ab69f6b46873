//! Which rows a table can store.

ghost use Rattle.std.specs.Prelude.{◌≡◌, ◌↔◌, IsTrue};
ghost use Rattle.msi_table_values.specs.Columns.{types_of};
ghost use Rattle.msi_table_cells.specs.Fitting.{FitsColumn, FitsRow, FitsTable};

use crate::cell::ValueRef;
use msi_base::text::Items;
use msi_pool::parts::place_number;
use msi_pool::stringpool::MAX_SHORT_PLACES;
use msi_table_values::column::{Column, ColumnType};
use msi_table_values::parts::{fits_number, holds_streams};

/// How many rows a table may have.
pub const MAX_ROWS: usize = 65_536;

fn fits_column(long: bool, coltype: ColumnType, cell: ValueRef) -> bool
    ensures { IsTrue result ↔ FitsColumn long coltype cell }
{
    match cell {
        ValueRef::Null => !holds_streams(coltype),
        ValueRef::Int(number) => fits_number(coltype, number),
        ValueRef::Str(place) => {
            matches!(coltype, ColumnType::Str(_))
                && (long || place_number(place) as usize <= MAX_SHORT_PLACES)
        }
        ValueRef::Binary => holds_streams(coltype),
    }
}

fn fits_row(long: bool, columns: &[Column], row: &[ValueRef]) -> bool
    ensures { IsTrue result ↔ FitsRow long (types_of columns.now) row.now }
{
    if row.len() != columns.len() {
        return false;
    }
    for i in 0..columns.len() {
        if !fits_column(long, columns[i].coltype(), row[i]) {
            return false;
        }
    }
    true
}

/// Returns whether columns can store rows: there is a column, the rows are at most 65536, and each has for each
/// column a cell that the column can store. References to texts take three bytes if they are long, and otherwise two.
pub fn fits_table(long: bool, columns: &[Column], rows: &[Items<ValueRef>]) -> bool
    ensures { IsTrue result ↔ FitsTable long (types_of columns.now) rows.now }
{
    !columns.is_empty()
        && rows.len() <= MAX_ROWS
        && rows
            .iter()
            .all(|row| fits_row(long, columns, row.as_slice()))
}
