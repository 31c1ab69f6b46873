//! The rows of a table with which applying its records begins.

ghost use Rattle.msi_transform_laws.specs.RowsBegun.{OldRowsAreInHand};

/// The rows with which applying the records of a table begins have the values of the old package's rows, with null in
/// the columns that are added.
pub fn old_rows_are_in_hand()
    ensures { OldRowsAreInHand }
{}
