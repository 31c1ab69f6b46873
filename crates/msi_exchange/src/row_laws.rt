//! What holds of CSV and JSON themselves: each is the contract of a function that does nothing.

ghost use Rattle.msi_exchange.specs.RowLaws.{FieldsStandForValues, JsonStandsForValues, LinesReadBack};
ghost use Rattle.msi_exchange.specs.RowLaws.{ObjectsArePrinted, PrintedObjectsReadBack, PrintedRowsReadBack};
ghost use Rattle.msi_exchange.specs.RowLaws.{RowsArePrinted, TablesReadBack, TypesMayComeLater};

/// The printed JSON of a row is read as the same JSON.
pub fn rows_are_printed()
    ensures { RowsArePrinted }
{}

/// The printed JSON of a row's object is read as the same JSON.
pub fn objects_are_printed()
    ensures { ObjectsArePrinted }
{}

/// The JSON of a value stands for that value.
pub fn json_stands_for_values()
    ensures { JsonStandsForValues }
{}

/// The printed JSON of a row is read as that row.
pub fn printed_rows_read_back()
    ensures { PrintedRowsReadBack }
{}

/// The printed object of a row is read as an object with the row's values under the names of their columns, and without
/// other members, if no two columns share a name.
pub fn printed_objects_read_back()
    ensures { PrintedObjectsReadBack }
{}

/// Lines of CSV are read as the fields of their rows.
pub fn lines_read_back()
    ensures { LinesReadBack }
{}

/// The field of a value stands for that value in a column of its type, but for the empty text.
pub fn fields_stand_for_values()
    ensures { FieldsStandForValues }
{}

/// A table as CSV, its names in the first line, is read as these names and as lines whose fields stand for the values
/// of the rows, column by column, but for empty texts.
pub fn tables_read_back()
    ensures { TablesReadBack }
{}

/// A field that is read as a text, and then as one of a column's type, stands for what it stands for in that column.
pub fn types_may_come_later()
    ensures { TypesMayComeLater }
{}
