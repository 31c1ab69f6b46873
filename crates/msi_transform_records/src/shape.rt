//! What records need to know of a column.

ghost use Rattle.std.specs.Prelude.{◌≡◌};

use msi_table_values::column::{Column, ColumnType};

/// What a record needs to know of a column: its type, and whether it is of the key.
#[derive(Clone, Copy, PartialEq, Eq, Debug, Drop)]
pub struct Shape {
    /// The type of the column.
    pub coltype: ColumnType,
    /// Whether the column is part of the primary key.
    pub is_key: bool,
}

impl Shape {
    /// Returns the shape of a column.
    pub fn of(column: &Column) -> Shape
        ensures { result ≡ record { coltype = column.now.coltype; is_key = column.now.is_primary_key } }
    {
        Shape {
            coltype: column.coltype(),
            is_key: column.is_primary_key(),
        }
    }
}
