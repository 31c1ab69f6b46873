//! Laws of the definitions themselves: each is the contract of a function that does nothing, or only looks at what it
//! is handed.

ghost use Rattle.msi_table.specs.Tables.{ReadRowsFit};
ghost use Rattle.msi_table.specs.Utf8Tables.{IsUtf8Table};
ghost use Rattle.msi_table.specs.Laws.{DifferencesMakeNew, EachIsNeeded, KeysAreNamedOnce, NoneMeansSame};

use crate::table::Table;
pub use msi_table_cells::laws::{
    cells_are_ordered, leading_numbers_ascend, removing_keeps_values, rows_are_sorted_by_keys,
    stored_rows_are_sorted, stored_values_come_back, storing_keeps_values, valid_values_fit,
};
pub use msi_table_values::laws::{
    column_texts_are_utf8, listed_columns_are_utf8, listed_texts_are_utf8, listed_values_are_utf8,
    row_texts_are_utf8, type_bits_come_back, value_texts_are_utf8, values_are_ordered,
};

/// Rows that are read have a cell for each column, and a table that has a column can store them.
pub fn read_rows_fit()
    ensures { ReadRowsFit }
{}

/// Each text of a table is UTF-8: its name, and those of its columns.
pub fn table_texts_are_utf8(table: &Table)
    ensures { IsUtf8Table table.now }
{
    let _name = table.name();
    listed_columns_are_utf8(table.columns());
}

/// Where there is no difference, both tables have the same row for each key, or none.
pub fn none_means_same()
    ensures { NoneMeansSame }
{}

/// Applied to the old rows one after the other, the differences give the new rows, in some order, if no two rows of a
/// table share a key.
pub fn differences_make_new()
    ensures { DifferencesMakeNew }
{}

/// Each difference is needed: no new row has the key of a row that is removed, one that is changed differs from the new
/// row of its key, and no old row has the key of one that is added.
pub fn each_is_needed()
    ensures { EachIsNeeded }
{}

/// No two differences name rows of the same key, if no two rows of a table share a key.
pub fn keys_are_named_once()
    ensures { KeysAreNamedOnce }
{}
