//! Adding a column to a table: the rows of the table with it, and of the system tables that describe it.

ghost use Rattle.std.specs.Prelude.{◌≡◌, IfOk};
ghost use Rattle.msi_base.specs.Results.{OnlyMemory};
ghost use Rattle.msi_database_changes.specs.AddColumn.{with_nulls};

use msi_base::errors::Error;
use msi_base::text::Items;
use msi_table_cells::cell::ValueRef;
use std::alloc::Global;
use std::marker::Model;

/// The rows of a table with one more column, and those of the system tables with the rows that describe it.
#[derive(Drop)]
pub struct ColumnRows {
    pub columns: Vec<Items<ValueRef>>,
    pub validation: Vec<Items<ValueRef>>,
    pub own: Vec<Items<ValueRef>>,
}

impl Model for ColumnRows {
    ghost use Rattle.msi_database_changes.specs.AddColumn.{ColumnRows as ColumnRowsOf};

    ghost Value = { ColumnRowsOf };

    ghost view = { λ r. record {
      columns = r.columns.items;
      validation = r.validation.items;
      own = r.own.items;
    } };
}

/// Returns rows with null at the end of each, in their order.
///
/// # Errors
/// Fails with `OutOfMemory`.
pub fn rows_with_nulls(
    alloc: Global,
    rows: Vec<Items<ValueRef>>,
) -> Result<Vec<Items<ValueRef>>, Error>
    ensures ok { IfOk result (λ longer. longer.items ≡ with_nulls rows.items) }
    ensures kind { OnlyMemory result }
{
    let mut longer = Vec::new(alloc);
    for row in rows {
        let mut cells = row.into_vec();
        cells.push(ValueRef::Null)?;
        longer.push(Items::from_vec(cells))?;
    }
    Ok(longer)
}
