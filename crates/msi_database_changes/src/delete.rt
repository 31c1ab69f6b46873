//! Deleting rows of a table.

ghost use Rattle.std.specs.Prelude.{◌≡◌, ◌∷◌, [], not, true, false, IfOk, OnOk};
ghost use Rattle.msi_base.specs.Results.{OnlyMemory};
ghost use Rattle.msi_base.specs.declared.errors.ErrorKind.TheVariants.{InvalidInput};
ghost use Rattle.msi_base.specs.Refusals.{unless_refused};
ghost use Rattle.msi_query.specs.Selection.{condition_names, has_columns};
ghost use Rattle.msi_database_changes.specs.Delete.{rows_meeting};
ghost use Rattle.msi_database_changes.specs.Insert.{table_with};
ghost use Rattle.msi_database_changes.specs.Texts.{in_use, rows_released};

use crate::conditions::knows_condition;
use crate::reasons;
use crate::texts::PoolInUse;
use msi_base::errors::{Error, ErrorKind};
use msi_base::text::Items;
use msi_pool::stringpool::StringPool;
use msi_query::parts::DeleteParts;
use msi_query_expressions::parts::RowFilter;
use msi_table_cells::cell::ValueRef;
use msi_table_values::column::Column;
use std::alloc::Global;

/// Refuses a delete from a table of these columns.
///
/// # Errors
/// Fails with `InvalidInput` if the condition names no column.
pub fn refuse_delete(columns: &[Column], delete: &DeleteParts) -> Result<(), Error>
    ensures { result ≡ unless_refused
        ((not (has_columns columns.now (condition_names delete.now.condition)), InvalidInput) ∷ []) tt }
{
    if !knows_condition(columns, delete.condition.as_ref()) {
        return Err(Error::new(ErrorKind::InvalidInput, reasons::CONDITION_COLUMN));
    }
    Ok(())
}

/// Tests rows by the texts of the old pool. The pool in use gets the texts of the other rows back.
fn rows_failing(
    alloc: Global,
    old: &StringPool,
    pool: &mut PoolInUse,
    test: &RowFilter,
    rows: Vec<Items<ValueRef>>,
) -> Result<Vec<Items<ValueRef>>, Error>
    ensures ok { let t = table_with test.now.columns rows.items in
        IfOk result (λ kept. kept.items ≡ rows_meeting old.now.places t test.now.condition false) }
    ensures released { let t = table_with test.now.columns rows.items in
        let gone = rows_meeting old.now.places t test.now.condition true in
        OnOk result (in_use pool.new ≡ rows_released (in_use pool.old) gone) }
    ensures kind { OnlyMemory result }
    ensures page { pool.new.pool.page ≡ pool.old.pool.page }
    ensures long { pool.new.pool.long ≡ pool.old.pool.long }
{
    let mut kept = Vec::new(alloc);
    for row in rows {
        if test.meets(alloc, old, row.as_slice())? {
            pool.release_row(row.as_slice())?;
            continue;
        }
        kept.push(row)?;
    }
    Ok(kept)
}

/// Returns a table's rows after a delete, in their order. The pool in use gets the texts of the others back; which
/// those are is decided by the texts of the old pool, of which it began as a clone.
///
/// # Errors
/// Fails with `OutOfMemory`.
pub fn remaining_rows(
    alloc: Global,
    old: &StringPool,
    pool: &mut PoolInUse,
    columns: &[Column],
    delete: &DeleteParts,
    rows: Vec<Items<ValueRef>>,
) -> Result<Vec<Items<ValueRef>>, Error>
    ensures ok { let t = table_with columns.now rows.items in
        IfOk result (λ kept. kept.items ≡ rows_meeting old.now.places t delete.now.condition false) }
    ensures released { let t = table_with columns.now rows.items in
        let gone = rows_meeting old.now.places t delete.now.condition true in
        OnOk result (in_use pool.new ≡ rows_released (in_use pool.old) gone) }
    ensures kind { OnlyMemory result }
    ensures page { pool.new.pool.page ≡ pool.old.pool.page }
    ensures long { pool.new.pool.long ≡ pool.old.pool.long }
{
    let test = RowFilter::new(alloc, columns, delete.condition.as_ref())?;
    rows_failing(alloc, old, pool, &test, rows)
}
