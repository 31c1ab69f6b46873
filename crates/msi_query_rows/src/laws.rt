//! Laws of selections: each is the contract of a function that does nothing.

ghost use Rattle.msi_query_rows.specs.SelectionLaws.{DistinctRowsStandOnce, RowsAreOrdered, SameRowsAreEqual};

/// The order by columns is the only stable sort of rows by their values there: it has the same rows, none of them less
/// than the one in front of it, and those that are equal in the columns as they stood.
pub fn rows_are_ordered()
    ensures { RowsAreOrdered }
{}

/// Rows count as the same exactly where their values are equal.
pub fn same_rows_are_equal()
    ensures { SameRowsAreEqual }
{}

/// Distinct rows have each row once, in the order in which the rows first come: no two of them are the same, each row
/// is among them, and one more row is added behind them unless it came before.
pub fn distinct_rows_stand_once()
    ensures { DistinctRowsStandOnce }
{}
