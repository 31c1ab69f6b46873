//! Laws of the definitions themselves: each is the contract of a function that does nothing.

ghost use Rattle.msi_table_cells.specs.CellOrder.{CellsAreOrdered};
ghost use Rattle.msi_table_cells.specs.SortedRows.{LeadingNumbersAscend, RowsAreSortedByKeys, StoredRowsAreSorted};
ghost use Rattle.msi_table_cells.specs.StoredValues.{RemovingKeepsValues, StoredValuesComeBack, StoringKeepsValues};
ghost use Rattle.msi_table_cells.specs.StoredValues.{ValidValuesFit};

use msi_pool::laws::{given_back_takes_one, taken_places_hold_their_text};

/// Cells have a total order, in which only equal cells tie.
pub fn cells_are_ordered()
    ensures { CellsAreOrdered }
{}

/// A cell that was made of a value stands for that value.
pub fn stored_values_come_back()
    ensures { StoredValuesComeBack }
{
    taken_places_hold_their_text();
}

/// A column can store the cell of a value that is valid for it, where the pool is no larger than references can name.
pub fn valid_values_fit()
    ensures { ValidValuesFit }
{
    taken_places_hold_their_text();
}

/// Where counts suffice, storing a value leaves the values of other cells as they were, and counts suffice.
pub fn storing_keeps_values()
    ensures { StoringKeepsValues }
{
    taken_places_hold_their_text();
}

/// Where counts suffice, a cell can be removed; that leaves the values of other cells as they were, and counts
/// suffice.
pub fn removing_keeps_values()
    ensures { RemovingKeepsValues }
{
    given_back_takes_one();
}

/// The stored order of rows is their only stable sort by cells.
pub fn stored_rows_are_sorted()
    ensures { StoredRowsAreSorted }
{}

/// The order of rows by their keys is their only stable sort by key values.
pub fn rows_are_sorted_by_keys()
    ensures { RowsAreSortedByKeys }
{}

/// Rows that fit ascend in stored order by their first column where it holds numbers, unless it is of category
/// Binary.
pub fn leading_numbers_ascend()
    ensures { LeadingNumbersAscend }
{}
