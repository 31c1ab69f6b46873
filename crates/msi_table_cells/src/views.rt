//! The values that cells stand for, seen where they lie, so that no text is copied, and their order.

ghost use Rattle.std.specs.Prelude.{◌≡◌};
ghost use Rattle.msi_table_values.specs.Values.{value_cmp};
ghost use Rattle.msi_table_values.specs.Views.{seen_value};
ghost use Rattle.msi_table_cells.specs.CellValues.{value_of_cell};

use crate::cell::ValueRef;
use msi_pool::stringpool::StringPool;
use msi_table_values::parts::ValueView;
use std::cmp::Ordering;

/// Returns the value that a cell stands for, its text where it lies in the pool.
pub fn view_of_cell(pool: &StringPool, cell: ValueRef) -> ValueView<'_>
    ensures { seen_value result ≡ value_of_cell pool.now.places cell }
{
    match cell {
        ValueRef::Null => ValueView::Null,
        ValueRef::Int(number) => ValueView::Int(number),
        ValueRef::Str(reference) => ValueView::Str(pool.get(reference)),
        ValueRef::Binary => ValueView::Binary,
    }
}

/// Compares the values of two cells. No text is copied.
pub fn compare_values(pool: &StringPool, cell: ValueRef, other: ValueRef) -> Ordering
    ensures { result ≡ value_cmp (value_of_cell pool.now.places cell) (value_of_cell pool.now.places other) }
{
    view_of_cell(pool, cell).compare(view_of_cell(pool, other))
}
