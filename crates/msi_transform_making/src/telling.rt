//! What a record that is made does with a row.

/// What a record that is made does with a row.
#[derive(Clone, Copy, PartialEq, Eq, Debug, Drop)]
pub(crate) enum Telling {
    /// Adds a row, of all values that the record has.
    Add,
    /// Removes the row of the key that the record has.
    Remove,
    /// Changes a row. The bits are those of the columns that differ.
    Change(u16),
}
