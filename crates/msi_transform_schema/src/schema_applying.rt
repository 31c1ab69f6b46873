//! The records of `_Tables` and of `_Columns`, applied to a package.

ghost use Rattle.std.specs.Prelude.{◌≡◌, IfErr, IfOk, IfSome, Ok, OnOk, is_some, map};
ghost use Rattle.std.specs.FinMap.{entries};
ghost use Rattle.msi_base.specs.Refusals.{IsRefusal, unless_refused};
ghost use Rattle.msi_base.specs.Results.{OnlyMemory};
ghost use Rattle.msi_database_schema.specs.System.{columns_columns as columns_of_columns, columns_name};
ghost use Rattle.msi_database_schema.specs.System.{tables_columns as columns_of_tables, tables_name};
ghost use Rattle.msi_transform_rows.specs.RecordRefusals.{IsRefused};
ghost use Rattle.msi_transform_schema.specs.InHand.{in_hand};
ghost use Rattle.msi_transform_schema.specs.SchemaChanges.{column_record_applied, plain_row as plain_of};
ghost use Rattle.msi_transform_schema.specs.SchemaChanges.{table_record_applied};
ghost use Rattle.msi_transform_schema.specs.SchemaApplying.{have_own_keys, records_applied, schema_applied};
ghost use Rattle.msi_transform_schema.specs.SchemaApplying.{schema_begun, schema_changed, schema_refusals};
ghost use Rattle.msi_transform_schema.specs.SchemaApplying.{schema_untouched, system_rows as rows_of_system};
ghost use Rattle.msi_transform_schema.specs.SchemaApplying.{system_rows_by_key};

use crate::listing::plain_row;
use crate::reasons;
use crate::schema::SchemaInHand;
use crate::schema_change::SchemaChange;
use crate::tables_by_name::TablesByName;
use msi_base::errors::{Error, ErrorKind};
use msi_base::text::Items;
use msi_database_changes::texts::PoolInUse;
use msi_database_schema::system::{COLUMNS, TABLES, columns_columns, tables_columns};
use msi_table_cells::cell::ValueRef;
use msi_table_values::column::Column;
use msi_transform_rows::Refusal;
use msi_transform_rows::keyed::{KeyedRows, keyed_rows};
use msi_transform_rows::row::RowInHand;
use msi_transform_rows::table_change::shapes_of;
use msi_transform_rows::table_records::{changes_schema, number_of, read_table};
use std::alloc::Global;

/// Returns rows of a system table, which have no streams.
fn plain_rows(alloc: Global, rows: Vec<Items<ValueRef>>) -> Result<Vec<RowInHand>, Error>
    ensures ok { IfOk result (λ plain. plain.items ≡ map plain_of rows.items) }
    ensures kind { OnlyMemory result }
{
    let mut plain = Vec::with_capacity(alloc, rows.len())?;
    for row in rows {
        plain.push(plain_row(row))?;
    }
    Ok(plain)
}

impl<'a> SchemaChange<'a> {
    /// Returns the rows of a system table by their keys, or nothing if two of them share one.
    #[tactic(auto, using(crate::proofs::PlainRowsLemmas::plain_cells))]
    fn system_rows(&self, columns: &[Column], name: &str) -> Result<Option<KeyedRows<'a>>, Error>
        ensures rows { let rows = system_rows_by_key self.now.database name.now columns.now in
            IfOk result (λ found. IfSome found (λ by_keys. entries by_keys ≡ rows)) }
        ensures distinct { let d = self.now.database in IfOk result (λ found. is_some found
            ≡ have_own_keys d.pool.places columns.now (rows_of_system d name.now)) }
        ensures kind { OnlyMemory result }
    {
        let rows = plain_rows(self.alloc, self.rows_named(name)?)?;
        keyed_rows(self.alloc, self.pool, columns, rows)
    }

    fn untouched(&self) -> Result<SchemaInHand<'a>, Error>
        ensures ok { IfOk result (λ hand. in_hand hand ≡ schema_untouched self.now.database) }
        ensures page { IfOk result (λ hand. hand.pool.pool.page ≡ self.now.database.pool.page) }
        ensures long { IfOk result (λ hand. hand.pool.pool.long ≡ self.now.database.pool.long) }
        ensures kind { OnlyMemory result }
    {
        Ok(SchemaInHand {
            tables: TablesByName::new(self.alloc),
            listed: KeyedRows::new(self.alloc),
            described: KeyedRows::new(self.alloc),
            pool: PoolInUse::new(self.pool.clone()?),
            streams: Vec::new(self.alloc),
        })
    }

    fn begin_schema(&self) -> Result<SchemaInHand<'a>, Error>
        ensures ok { let d = self.now.database in IfOk result (λ hand.
            unless_refused (schema_refusals d) (schema_begun d) ≡ Ok (in_hand hand)) }
        ensures page { IfOk result (λ hand. hand.pool.pool.page ≡ self.now.database.pool.page) }
        ensures long { IfOk result (λ hand. hand.pool.pool.long ≡ self.now.database.pool.long) }
        ensures kind { let d = self.now.database in
            IfErr result (IsRefusal (unless_refused (schema_refusals d) (schema_begun d))) }
    {
        let tables = tables_columns(self.alloc)?;
        let columns = columns_columns(self.alloc)?;
        let listed = self.system_rows(tables.as_slice(), TABLES)?;
        let described = self.system_rows(columns.as_slice(), COLUMNS)?;
        let (Some(listed), Some(described)) = (listed, described) else {
            return Err(Error::new(ErrorKind::InvalidData, reasons::SYSTEM_KEYS));
        };
        Ok(SchemaInHand {
            listed,
            described,
            ..self.untouched()?
        })
    }

    /// Applies the records of `_Tables`, if there are some.
    fn change_listing(&self, hand: &mut SchemaInHand<'a>) -> Result<(), Refusal>
        ensures ok { let step = table_record_applied self.now in OnOk result
            (records_applied self.now.by tables_name columns_of_tables step (in_hand hand.old)
            ≡ Ok (in_hand hand.new)) }
        ensures kind { let step = table_record_applied self.now in IfErr result (IsRefused
            (records_applied self.now.by tables_name columns_of_tables step (in_hand hand.old))) }
        ensures page { hand.new.pool.pool.page ≡ hand.old.pool.pool.page }
        ensures long { hand.new.pool.pool.long ≡ hand.old.pool.pool.long }
    {
        let Some(bytes) = self.transform.records_for(TABLES) else {
            return Ok(());
        };
        let shapes = shapes_of(self.alloc, tables_columns(self.alloc)?.as_slice())?;
        let table = number_of(self.transform, TABLES);
        let records = read_table(self.alloc, table, self.transform, shapes.as_slice(), bytes)?;
        self.apply_all_to_tables(table, hand, shapes.as_slice(), records.as_slice())
    }

    /// Applies the records of `_Columns`, if there are some.
    fn change_columns(&self, hand: &mut SchemaInHand<'a>) -> Result<(), Refusal>
        ensures ok { let step = column_record_applied self.now in OnOk result
            (records_applied self.now.by columns_name columns_of_columns step (in_hand hand.old)
            ≡ Ok (in_hand hand.new)) }
        ensures kind { let step = column_record_applied self.now in IfErr result (IsRefused
            (records_applied self.now.by columns_name columns_of_columns step (in_hand hand.old))) }
        ensures page { hand.new.pool.pool.page ≡ hand.old.pool.pool.page }
        ensures long { hand.new.pool.pool.long ≡ hand.old.pool.pool.long }
    {
        let Some(bytes) = self.transform.records_for(COLUMNS) else {
            return Ok(());
        };
        let shapes = shapes_of(self.alloc, columns_columns(self.alloc)?.as_slice())?;
        let table = number_of(self.transform, COLUMNS);
        let records = read_table(self.alloc, table, self.transform, shapes.as_slice(), bytes)?;
        self.apply_all_to_columns(table, hand, shapes.as_slice(), records.as_slice())
    }

    fn change_schema(&self) -> Result<SchemaInHand<'a>, Refusal>
        ensures ok { IfOk result (λ hand. schema_changed self.now ≡ Ok (in_hand hand)) }
        ensures kind { IfErr result (IsRefused (schema_changed self.now)) }
        ensures page { IfOk result (λ hand. hand.pool.pool.page ≡ self.now.database.pool.page) }
        ensures long { IfOk result (λ hand. hand.pool.pool.long ≡ self.now.database.pool.long) }
    {
        let mut hand = self.begin_schema()?;
        self.change_listing(&mut hand)?;
        self.change_columns(&mut hand)?;
        if !hand.are_complete() {
            let error = Error::new(ErrorKind::InvalidData, reasons::TABLE_INCOMPLETE);
            return Err(Refusal::nowhere(error));
        }
        Ok(hand)
    }

    /// Applies the records of `_Tables`, then those of `_Columns`.
    ///
    /// # Errors
    /// Fails with `InvalidData` if two rows of a table that describes tables have one key; then at the first record
    /// that can't be read or applied, with its place; then with `InvalidData` if an added table has no key column. It
    /// may fail with `OutOfMemory` in place of any.
    pub fn apply_schema(&self) -> Result<SchemaInHand<'a>, Refusal>
        ensures ok { IfOk result (λ hand. schema_applied self.now ≡ Ok (in_hand hand)) }
        ensures kind { IfErr result (IsRefused (schema_applied self.now)) }
        ensures page { IfOk result (λ hand. hand.pool.pool.page ≡ self.now.database.pool.page) }
        ensures long { IfOk result (λ hand. hand.pool.pool.long ≡ self.now.database.pool.long) }
    {
        if !changes_schema(self.transform) {
            return Ok(self.untouched()?);
        }
        self.change_schema()
    }
}
