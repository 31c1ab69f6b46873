//! A transform applied to the tables of a package, before they are stored.

ghost use Rattle.std.specs.Prelude.{◌≡◌, IfErr, IfOk, Ok};
ghost use Rattle.std.specs.List.{AllByRecursion};
ghost use Rattle.msi_transform_rows.specs.RecordRefusals.{IsRefused};
ghost use Rattle.msi_transform_applying.specs.AnewInHand.{changed_in_hand};
ghost use Rattle.msi_transform_applying.specs.Applying.{tables_changed};
ghost use Rattle.msi_transform_applying.specs.LeftInHand.{CanBeStored};

use crate::table_applying::change_rows;
use crate::tables_in_hand::TablesChanged;
use msi_transform_rows::Refusal;
use msi_transform_schema::SchemaChange;
use msi_transform_schema::page::check_page;

fn changed_tables<'a>(change: &SchemaChange<'a>, page_id: u32) -> Result<TablesChanged<'a>, Refusal>
    ensures ok { IfOk result (λ changed. tables_changed change.now page_id ≡ Ok (changed_in_hand changed)) }
    ensures kind { IfErr result (IsRefused (tables_changed change.now page_id)) }
    ensures page { IfOk result (λ changed. changed.tables.pool.pool.page ≡ change.now.database.pool.page) }
    ensures long { IfOk result (λ changed. changed.tables.pool.pool.long ≡ change.now.database.pool.long) }
{
    check_page(page_id, change.transform(), change.passing())?;
    let schema = change.apply_schema()?;
    change_rows(change, schema)
}

/// Returns the tables as the transform changes them. `page_id` is the id of the package's code page as it is
/// stored, or 0 where that is neutral. It costs the records and the rows of their tables times a logarithm.
///
/// # Errors
/// Fails with `InvalidInput` if the transform has another code page and neither is neutral, unless that passes;
/// then as `apply_schema` does, and then as `change_rows` does.
pub fn transform_tables<'a>(
    change: &SchemaChange<'a>,
    page_id: u32,
) -> Result<TablesChanged<'a>, Refusal>
    ensures ok { IfOk result (λ changed. tables_changed change.now page_id ≡ Ok (changed_in_hand changed)) }
    ensures named { IfOk result (λ changed. AllByRecursion CanBeStored (changed_in_hand changed).tables.tables) }
    ensures kind { IfErr result (IsRefused (tables_changed change.now page_id)) }
    ensures page { IfOk result (λ changed. changed.tables.pool.pool.page ≡ change.now.database.pool.page) }
    ensures long { IfOk result (λ changed. changed.tables.pool.pool.long ≡ change.now.database.pool.long) }
{
    let _tables = change.tables();
    let _streams = change.streams();
    changed_tables(change, page_id)
}
