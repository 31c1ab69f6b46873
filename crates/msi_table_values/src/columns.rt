//! Columns in a row: look-ups by name, and copies.

ghost use Rattle.std.specs.Prelude.{◌≡◌, IfOk, bytes_eq};
ghost use Rattle.msi_base.specs.Results.{OnlyMemory};
ghost use Rattle.msi_table_values.specs.Columns.{column_index as index_of, has_column as has_one};

use crate::column::Column;
use msi_base::errors::Error;
use msi_base::text::Items;
use std::alloc::Global;

fn is_named(column: &Column, name: &str) -> bool
    ensures { result ≡ bytes_eq column.now.name name.now }
{
    column.name() == name
}

/// Returns the index of the column of a name, from 0 on; of a repeated name the first. It takes no memory.
pub fn column_index(columns: &[Column], name: &str) -> Option<usize>
    ensures { result ≡ index_of name.now columns.now }
{
    columns.iter().position(|column| is_named(column, name))
}

/// Returns whether a column has this name. It takes no memory.
pub fn has_column(columns: &[Column], name: &str) -> bool
    ensures { result ≡ has_one name.now columns.now }
{
    columns.iter().any(|column| is_named(column, name))
}

/// Returns copies of the columns, in order.
///
/// # Errors
/// Fails with `OutOfMemory`.
pub fn copied_columns(alloc: Global, columns: &[Column]) -> Result<Items<Column>, Error>
    ensures ok { IfOk result (λ copies. copies ≡ columns.now) }
    ensures kind { OnlyMemory result }
{
    let mut copies = Vec::new(alloc);
    for column in columns {
        copies.push(column.clone(alloc)?)?;
    }
    Ok(Items::from_vec(copies))
}
