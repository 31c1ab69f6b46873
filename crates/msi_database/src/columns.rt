//! Adding a column to a table: it is described in the system tables, and each row has null in it.

ghost use Rattle.std.specs.Prelude.{◌≡◌, ◌+◌, ◌<◌, ◌≤◌, ◌++◌, ◌∷◌, [], IfErr, IfOk, None, Ok, OnErr, OnOk, Some};
ghost use Rattle.std.specs.Prelude.{length, true};
ghost use Rattle.msi_base.specs.Results.{OnlyMemory};
ghost use Rattle.msi_base.specs.Refusals.{AnswersFirst, IsRefusal, first_refusal};
ghost use Rattle.msi_table_values.specs.Columns.{HasShortLength, most_columns};
ghost use Rattle.msi_database_schema.specs.Keys.{is_table_name as is_name_of_table};
ghost use Rattle.msi_database_changes.specs.AddColumn as adds;
ghost use Rattle.msi_database_changes.specs.AddColumn.{early_column_refusals};
ghost use Rattle.msi_database_changes.specs.Database.{is_sound as is_sound_one};
ghost use Rattle.msi_database_changes.specs.Storing.{HaveOwnNames};
ghost use Rattle.msi_database_changes.specs.Texts.{in_use};
ghost use Rattle.msi_database.specs.AddingColumn.{CanHoldColumn, IsLengthened, column_streams, rows_lengthened};
ghost use Rattle.msi_database.specs.AddingColumn.{tables_over};
ghost use Rattle.msi_database.specs.Listed.{IsKnown};
ghost use Rattle.msi_database.specs.Making.{Leaves, Makes, TellsUse, base_with, wide_for};

use crate::creating::{Created, creation};
use crate::database::Database;
use crate::reasons;
use msi_base::errors::{Error, ErrorKind};
use msi_base::text::Items;
use msi_database_changes::Stored;
use msi_database_changes::create::refuse_new_column;
use msi_database_changes::lengthening::{ColumnRows, rows_with_nulls};
use msi_database_changes::texts::PoolInUse;
use msi_database_schema::description::validation_row;
use msi_database_schema::system::{COLUMNS, VALIDATION};
use msi_database_schema::{column_row, named_table};
use msi_database_storage::listing::copies_with;
use msi_database_storage::ordered_stream_of;
use msi_table::Table;
use msi_table::parts::copied_columns;
use msi_table_values::column::Column;
use std::alloc::Global;

/// Returns copies of columns, and one more behind them.
fn columns_with(alloc: Global, columns: &[Column], column: Column) -> Result<Items<Column>, Error>
    ensures ok { IfOk result (λ all. all ≡ columns.now ++ column ∷ []) }
    ensures kind { OnlyMemory result }
{
    let mut all = copied_columns(alloc, columns)?.into_vec();
    all.push(column)?;
    Ok(Items::from_vec(all))
}

/// The number of a column behind these.
fn next_number(columns: &[Column]) -> u16
    requires { length columns.now < 32 }
    ensures { result ≡ length columns.now + 1 }
{
    columns.len() as u16 + 1
}

impl Database {
    /// Checks in this order: what `table_to_drop` checks, the errors of `refuse_new_column`, and `NotFound` where
    /// `_Validation` is no table.
    fn table_to_lengthen(&self, name: &str, column: &Column) -> Result<&Table, Error>
        ensures sound { OnOk result (is_sound_one self.now.database ≡ true) }
        ensures named { OnOk result (is_name_of_table name.now ≡ true) }
        ensures known { IfOk result (λ table. IsKnown self.now.database name.now table.now) }
        ensures few { IfOk result (λ table. length table.now.columns < 32) }
        ensures short { OnOk result (HasShortLength column.now.coltype) }
        ensures early { IfErr result (λ kind.
            first_refusal (early_column_refusals self.now.database name.now column.now) ≡ Some kind) }
        ensures passed { OnOk result
            (first_refusal (early_column_refusals self.now.database name.now column.now) ≡ None) }
    {
        let table = self.table_to_drop(name)?;
        refuse_new_column(table.columns(), column)?;
        if !self.has_table(VALIDATION) {
            return Err(Error::new(ErrorKind::NotFound, reasons::NO_VALIDATION));
        }
        Ok(table)
    }

    fn rows_lengthened(
        &self,
        pool: &mut PoolInUse,
        table: &Table,
        column: &Column,
    ) -> Result<ColumnRows, Error>
        requires sound { is_sound_one self.now.database ≡ true }
        requires known { IsKnown self.now.database table.now.name table.now }
        requires few { length table.now.columns < 32 }
        requires short { HasShortLength column.now.coltype }
        ensures ok { let made = rows_lengthened self.now.database table.now.name column.now (in_use pool.old) in
            IfOk result (λ rows. made ≡ Ok (rows, in_use pool.new)) }
        ensures kind { let made = rows_lengthened self.now.database table.now.name column.now (in_use pool.old) in
            IfErr result (IsRefusal made) }
        ensures page { pool.new.pool.page ≡ pool.old.pool.page }
        ensures long { pool.new.pool.long ≡ pool.old.pool.long }
    {
        let alloc = self.alloc;
        let name = table.name();
        let own = rows_with_nulls(alloc, self.sound_rows(table)?)?;
        let number = next_number(table.columns());
        let describing = Vec::from_array(alloc, [column_row(alloc, name, number, column)?])?;
        let columns = self.rows_with(pool, COLUMNS, describing)?;
        let validating = Vec::from_array(alloc, [validation_row(alloc, name, column)?])?;
        let validation = self.rows_with(pool, VALIDATION, validating)?;
        Ok(ColumnRows {
            columns,
            validation,
            own,
        })
    }

    fn column_streams(&self, new: &Table, rows: ColumnRows) -> Result<Vec<Stored>, Error>
        requires sound { is_sound_one self.now.database ≡ true }
        requires named { is_name_of_table new.now.name ≡ true }
        requires long { new.now.long ≡ self.now.database.pool.long }
        requires held { CanHoldColumn self.now.database new.now.columns rows }
        ensures ok { IfOk result (λ stored.
            stored.items ≡ column_streams self.now.database new.now.name new.now.columns rows) }
        ensures kind { OnlyMemory result }
    {
        let ColumnRows {
            columns,
            validation,
            own,
        } = rows;
        let in_columns = self.stream_for(COLUMNS, columns)?;
        let in_validation = self.stream_for(VALIDATION, validation)?;
        let in_table = ordered_stream_of(self.alloc, new, own.as_slice())?;
        Ok(Vec::from_array(self.alloc, [in_columns, in_validation, in_table])?)
    }

    fn tables_over(&self, new: Table) -> Result<Items<Table>, Error>
        requires { new.long ≡ self.now.database.pool.long }
        ensures ok { IfOk result (λ tables. tables ≡ tables_over self.now.database new.name new.columns) }
        ensures kind { OnlyMemory result }
    {
        let others = self.tables_without(new.name())?;
        copies_with(self.alloc, others.as_slice(), new)
    }

    fn over_this(
        &self,
        name: &str,
        columns: Items<Column>,
        rows: ColumnRows,
    ) -> Result<(Vec<Stored>, Items<Table>), Error>
        requires sound { is_sound_one self.now.database ≡ true }
        requires named { is_name_of_table name.now ≡ true }
        requires few { length columns ≤ most_columns }
        requires held { CanHoldColumn self.now.database columns rows }
        ensures stored { IfOk result (λ made. made.0.items ≡ column_streams self.now.database name.now columns rows) }
        ensures tables { IfOk result (λ made. made.1 ≡ tables_over self.now.database name.now columns) }
        ensures kind { OnlyMemory result }
    {
        let new = named_table(self.alloc, name, columns, self.pool.long_string_refs())?;
        let stored = self.column_streams(&new, rows)?;
        let tables = self.tables_over(new)?;
        Ok((stored, tables))
    }

    fn lengthened_over(
        &self,
        name: &str,
        columns: Items<Column>,
        rows: ColumnRows,
        pool: PoolInUse,
    ) -> Result<Created, Error>
        requires sound { is_sound_one self.now.database ≡ true }
        requires named { is_name_of_table name.now ≡ true }
        requires few { length columns ≤ most_columns }
        requires held { CanHoldColumn (base_with (wide_for pool self.now) self.now).database columns rows }
        ensures ok { IfOk result (λ made. IsLengthened self.now name.now columns rows pool made.new.wide
            made.new.stored.items made.new.tables made.new.pool made.is_pool_used) }
        ensures kind { OnlyMemory result }
    {
        if pool.is_widened() {
            let wide = self.widened()?;
            let (stored, tables) = wide.over_this(name, columns, rows)?;
            return Ok(creation(Some(wide), stored, tables, pool));
        }
        let (stored, tables) = self.over_this(name, columns, rows)?;
        Ok(creation(None, stored, tables, pool))
    }

    fn column_added(&self, name: &str, column: Column) -> Result<Created, Error>
        ensures ok { let change = adds.add_column self.now.database name.now column in
            IfOk result (λ made. Makes self.now change (base_with made.new.wide self.now)
            made.new.pool made.new.tables made.new.stored.items) }
        ensures used { let change = adds.add_column self.now.database name.now column in
            IfOk result (λ made. TellsUse change made.is_pool_used) }
        ensures names { IfOk result (λ made. HaveOwnNames made.new.stored.items) }
        ensures kind { IfErr result (IsRefusal (adds.add_column self.now.database name.now column)) }
        ensures early { AnswersFirst (early_column_refusals self.now.database name.now column) result }
    {
        let table = self.table_to_lengthen(name, &column)?;
        let mut pool = PoolInUse::new(self.pool.clone()?);
        let rows = self.rows_lengthened(&mut pool, table, &column)?;
        let columns = columns_with(self.alloc, table.columns(), column)?;
        self.lengthened_over(name, columns, rows, pool)
    }

    /// Adds a column at the end of a table: each row has null in it. It is described in `_Columns` and `_Validation`.
    /// Returns whether that took a text from the pool.
    ///
    /// # Errors
    /// Fails with the first of these that applies: `InvalidData` if the database isn't sound; `InvalidInput` for a
    /// system table, and for a name that no table may have; `NotFound` if there is no such table; `InvalidInput` if the
    /// column is a key or doesn't take null, and for all columns as `refuse_columns` does; `NotFound` if `_Validation`
    /// is no table; then for the rows that describe it, those of `_Columns` and of `_Validation` in turn, as
    /// `refuse_rows` does, and `InvalidInput` if the pool is full. If none applies, it fails with `OutOfMemory`, which
    /// may also come in place of the refusals of these rows and of the pool. Then nothing has changed.
    pub fn add_column(&mut self, name: &str, column: Column) -> Result<bool, Error>
        ensures ok { let change = adds.add_column self.old.database name.now column in
            OnOk result (Leaves self.old change self.new) }
        ensures used { IfOk result (TellsUse (adds.add_column self.old.database name.now column)) }
        ensures same { OnErr result (self.new ≡ self.old) }
        ensures kind { IfErr result (IsRefusal (adds.add_column self.old.database name.now column)) }
        ensures early { AnswersFirst (early_column_refusals self.old.database name.now column) result }
    {
        let Created { new, is_pool_used } = self.column_added(name, column)?;
        self.finish_tables(new)?;
        Ok(is_pool_used)
    }
}
