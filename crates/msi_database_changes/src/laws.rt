//! Laws of accepted changes: each is the contract of a function that does nothing.

ghost use Rattle.msi_database_changes.specs.Laws.{AddedColumnsAreDescribed, AddedColumnsAreNull, ChangesKeep};
ghost use Rattle.msi_database_changes.specs.Laws.{CountsTellTexts, CreatedTablesAreDescribed};
ghost use Rattle.msi_database_changes.specs.Laws.{DeleteRemovesItsRows, DroppedTablesAreForgotten, InsertAddsItsRows};
ghost use Rattle.msi_database_changes.specs.Laws.{LeadingNumbersAscend, TableChangesKeep, UpdateSetsItsRows};
ghost use Rattle.msi_database_changes.specs.Recounting.{RecountsMakeExact};

use msi_pool::laws::{given_back_takes_one, taken_places_hold_their_text};

/// An accepted insert adds exactly its rows, with null for the columns that it doesn't name, and every other table has
/// the rows that it had.
pub fn inserts_add_their_rows()
    ensures { InsertAddsItsRows }
{
    taken_places_hold_their_text();
    given_back_takes_one();
}

/// An accepted update sets its columns in exactly the rows whose condition counts as true, and every other table has
/// the rows that it had.
pub fn updates_set_their_rows()
    ensures { UpdateSetsItsRows }
{
    taken_places_hold_their_text();
    given_back_takes_one();
}

/// An accepted delete removes exactly the rows whose condition counts as true, and every other table has the rows
/// that it had.
pub fn deletes_remove_their_rows()
    ensures { DeleteRemovesItsRows }
{
    taken_places_hold_their_text();
    given_back_takes_one();
}

/// An accepted change of rows leaves a sound database well formed and sound, rows that fit their columns fitting,
/// counts that equal the cells equal, and keys that are distinct distinct.
pub fn changes_keep_databases_sound()
    ensures { ChangesKeep }
{
    taken_places_hold_their_text();
    given_back_takes_one();
}

/// A table that is created or dropped, and a column that is added, leave a sound database well formed and sound, rows
/// that fit their columns fitting, counts that equal the cells equal, and keys that are distinct distinct.
pub fn table_changes_keep_databases_sound()
    ensures { TableChangesKeep }
{
    taken_places_hold_their_text();
    given_back_takes_one();
}

/// In a sound database whose counts equal its cells, the number of cells that hold a text is the sum of the counts of
/// the places that hold it.
pub fn counts_tell_texts()
    ensures { CountsTellTexts }
{}

/// After an accepted change of rows the first values of its table ascend, where they are numbers and their column
/// isn't of category Binary.
pub fn leading_numbers_ascend()
    ensures { LeadingNumbersAscend }
{
    taken_places_hold_their_text();
    given_back_takes_one();
    msi_table::laws::leading_numbers_ascend();
}

/// The rows that describe a new table give its columns back, and those of the other tables.
pub fn created_tables_are_described()
    ensures { CreatedTablesAreDescribed }
{
    taken_places_hold_their_text();
    given_back_takes_one();
}

/// After a column was added the rows that describe its table give all its columns back, and those of the other tables.
pub fn added_columns_are_described()
    ensures { AddedColumnsAreDescribed }
{
    taken_places_hold_their_text();
    given_back_takes_one();
}

/// An added column has null in each row of its table. The tables that neither have it nor describe it have the rows
/// that they had.
pub fn added_columns_are_null()
    ensures { AddedColumnsAreNull }
{
    taken_places_hold_their_text();
    given_back_takes_one();
}

/// After a table was dropped the rows describe the other tables.
pub fn dropped_tables_are_forgotten()
    ensures { DroppedTablesAreForgotten }
{
    taken_places_hold_their_text();
    given_back_takes_one();
}

/// An accepted recount leaves a database that is well formed and sound, and whose counts equal its cells. Every table
/// has the values that it had.
pub fn recounts_make_counts_exact()
    ensures { RecountsMakeExact }
{}
