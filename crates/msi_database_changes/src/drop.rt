//! Rows about a table that is dropped.

ghost use Rattle.std.specs.Prelude.{◌≡◌, not, filter, IfOk, OnOk};
ghost use Rattle.msi_base.specs.Results.{OnlyMemory};
ghost use Rattle.msi_database_changes.specs.Drop.{is_row_about as is_about};
ghost use Rattle.msi_database_changes.specs.Texts.{in_use, rows_released};

use crate::texts::PoolInUse;
use msi_base::errors::Error;
use msi_base::text::Items;
use msi_pool::stringpool::StringPool;
use msi_table_cells::cell::ValueRef;
use msi_table_cells::parts::view_of_cell;
use msi_table_values::parts::ValueView;
use std::alloc::Global;

/// Returns whether a row of a system table is about the table `name`: its first value is that name.
fn is_row_about(pool: &StringPool, name: &str, row: &[ValueRef]) -> bool
    ensures { result ≡ is_about pool.now.places name.now row.now }
{
    match row.first() {
        Some(cell) => ValueView::Str(name)
            .compare(view_of_cell(pool, *cell))
            .is_eq(),
        None => false,
    }
}

/// Returns a system table's rows without those about the table of a name, in their order. The pool in use gets the
/// texts of the latter back; which those are is decided by the texts of the old pool, of which it began as a clone.
///
/// # Errors
/// Fails with `OutOfMemory`.
pub fn rows_without(
    alloc: Global,
    old: &StringPool,
    pool: &mut PoolInUse,
    name: &str,
    rows: Vec<Items<ValueRef>>,
) -> Result<Vec<Items<ValueRef>>, Error>
    ensures ok { IfOk result (λ kept. kept.items
        ≡ filter (λ row. not (is_about old.now.places name.now row)) rows.items) }
    ensures released { OnOk result (in_use pool.new
        ≡ rows_released (in_use pool.old) (filter (is_about old.now.places name.now) rows.items)) }
    ensures kind { OnlyMemory result }
    ensures page { pool.new.pool.page ≡ pool.old.pool.page }
    ensures long { pool.new.pool.long ≡ pool.old.pool.long }
{
    let mut kept = Vec::new(alloc);
    for row in rows {
        if is_row_about(old, name, row.as_slice()) {
            pool.release_row(row.as_slice())?;
            continue;
        }
        kept.push(row)?;
    }
    Ok(kept)
}
