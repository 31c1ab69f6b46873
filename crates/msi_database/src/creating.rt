//! Creating a table: it is described in the system tables, and put in among the others.

ghost use Rattle.std.specs.Prelude.{◌≡◌, ◌≤◌, IfErr, IfOk, IsTrue, Ok, OnErr, OnOk, length, true};
ghost use Rattle.msi_base.specs.Results.{OnlyMemory};
ghost use Rattle.msi_table_values.specs.Columns.{most_columns};
ghost use Rattle.msi_base.specs.Refusals.{AnswersFirst, IsRefusal, unless_refused};
ghost use Rattle.msi_database_schema.specs.Description.{have_short_lengths};
ghost use Rattle.msi_database_schema.specs.Keys.{is_table_name as is_name_of_table};
ghost use Rattle.msi_database_changes.specs.Create as creates;
ghost use Rattle.msi_database_changes.specs.Database.{is_sound as is_sound_one};
ghost use Rattle.msi_database_changes.specs.Storing.{HaveOwnNames};
ghost use Rattle.msi_database_changes.specs.Texts.{in_use, settled};
ghost use Rattle.msi_database_storage.specs.Kept.{with_table_kept};
ghost use Rattle.msi_database.specs.Creating.{CanHold, CanHoldAll, IsCreated, create_refusals, new_table};
ghost use Rattle.msi_database.specs.Creating.{rows_described, rows_with, stream_for, streams_for};
ghost use Rattle.msi_database.specs.Listed.{tables_listed};
ghost use Rattle.msi_database.specs.Making.{Leaves, Makes, TellsUse, base_with, wide_for};

use crate::changing::TablesAnew;
use crate::database::Database;
use crate::reasons;
use msi_base::errors::{Error, ErrorKind};
use msi_base::text::Items;
use msi_database_changes::Stored;
use msi_database_changes::create::{SystemRows, refuse_table};
use msi_database_changes::insert::{add_rows, refuse_rows};
use msi_database_changes::texts::PoolInUse;
use msi_database_schema::description::{tables_row, validation_rows};
use msi_database_schema::system::{COLUMNS, TABLES, VALIDATION};
use msi_database_schema::{column_rows, named_table};
use msi_database_storage::listing::copies_with;
use msi_database_storage::{no_stream, stream_of};
use msi_table::Table;
use msi_table_cells::cell::ValueRef;
use msi_table_values::column::Column;
use msi_table_values::value::Value;

/// What creating a table makes, and whether it took a text of the pool.
#[derive(Drop)]
pub(crate) struct Created {
    pub(crate) new: TablesAnew,
    pub(crate) is_pool_used: bool,
}

pub(crate) fn creation(
    wide: Option<Database>,
    stored: Vec<Stored>,
    tables: Items<Table>,
    pool: PoolInUse,
) -> Created
    ensures wide { result.new.wide ≡ wide }
    ensures stored { result.new.stored.items ≡ stored.items }
    ensures tables { result.new.tables ≡ tables }
    ensures pool { result.new.pool ≡ settled pool.pool }
    ensures uses { result.is_pool_used ≡ pool.is_used }
{
    let is_pool_used = pool.is_used();
    let pool = pool.into_pool();
    Created {
        new: TablesAnew {
            wide,
            stored,
            pool,
            tables,
        },
        is_pool_used,
    }
}

impl Database {
    /// Checks in this order: `InvalidData` where the database isn't sound, the errors of `refuse_table`,
    /// `AlreadyExists`, and `NotFound` where `_Validation` is no table.
    fn refuse_create(&self, name: &str, columns: &[Column]) -> Result<(), Error>
        ensures value { result ≡ unless_refused (create_refusals self.now.database name.now columns.now) tt }
        ensures sound { OnOk result (is_sound_one self.now.database ≡ true) }
        ensures named { OnOk result (is_name_of_table name.now ≡ true) }
        ensures few { OnOk result (length columns.now ≤ most_columns) }
        ensures short { OnOk result (IsTrue (have_short_lengths columns.now)) }
    {
        self.check_sound()?;
        refuse_table(name, columns)?;
        if self.has_table(name) {
            return Err(Error::new(ErrorKind::AlreadyExists, reasons::TABLE_EXISTS));
        }
        if !self.has_table(VALIDATION) {
            return Err(Error::new(ErrorKind::NotFound, reasons::NO_VALIDATION));
        }
        Ok(())
    }

    pub(crate) fn rows_with(
        &self,
        pool: &mut PoolInUse,
        name: &str,
        values: Vec<Items<Value>>,
    ) -> Result<Vec<Items<ValueRef>>, Error>
        requires sound { is_sound_one self.now.database ≡ true }
        ensures ok { let made = rows_with self.now.database name.now values.items (in_use pool.old) in
            IfOk result (λ rows. made ≡ Ok (rows.items, in_use pool.new)) }
        ensures kind { let made = rows_with self.now.database name.now values.items (in_use pool.old) in
            IfErr result (IsRefusal made) }
        ensures page { pool.new.pool.page ≡ pool.old.pool.page }
        ensures long { pool.new.pool.long ≡ pool.old.pool.long }
    {
        let Some(table) = self.known_table(name) else {
            return Err(Error::new(ErrorKind::NotFound, reasons::NO_TABLE));
        };
        let columns = table.columns();
        let held = self.sound_rows(table)?;
        refuse_rows(
            self.alloc,
            pool.pool(),
            columns,
            held.as_slice(),
            values.as_slice(),
        )?;
        add_rows(self.alloc, columns, pool, held, values)
    }

    fn rows_described(
        &self,
        pool: &mut PoolInUse,
        name: &str,
        columns: &[Column],
    ) -> Result<SystemRows, Error>
        requires sound { is_sound_one self.now.database ≡ true }
        requires few { length columns.now ≤ most_columns }
        requires short { IsTrue (have_short_lengths columns.now) }
        ensures ok { let made = rows_described self.now.database name.now columns.now (in_use pool.old) in
            IfOk result (λ rows. made ≡ Ok (rows, in_use pool.new)) }
        ensures kind { let made = rows_described self.now.database name.now columns.now (in_use pool.old) in
            IfErr result (IsRefusal made) }
        ensures page { pool.new.pool.page ≡ pool.old.pool.page }
        ensures long { pool.new.pool.long ≡ pool.old.pool.long }
    {
        let alloc = self.alloc;
        let in_columns = self.rows_with(pool, COLUMNS, column_rows(alloc, name, columns)?)?;
        let row = tables_row(alloc, name)?;
        let in_tables = self.rows_with(pool, TABLES, Vec::from_array(alloc, [row])?)?;
        let rows = validation_rows(alloc, name, columns)?;
        let in_validation = self.rows_with(pool, VALIDATION, rows)?;
        Ok(SystemRows {
            columns: in_columns,
            tables: in_tables,
            validation: in_validation,
        })
    }

    pub(crate) fn stream_for(&self, name: &str, rows: Vec<Items<ValueRef>>) -> Result<Stored, Error>
        requires sound { is_sound_one self.now.database ≡ true }
        requires held { CanHold self.now.database name.now rows.items }
        ensures ok { IfOk result (λ stored. stored ≡ stream_for self.now.database name.now rows.items) }
        ensures kind { OnlyMemory result }
    {
        let Some(table) = self.known_table(name) else {
            return Err(Error::new(ErrorKind::NotFound, reasons::NO_TABLE));
        };
        stream_of(self.alloc, table, rows)
    }

    /// Makes the streams of the system tables. The new table's own stream goes, if one is left over.
    fn streams_for(&self, name: &str, rows: SystemRows) -> Result<Vec<Stored>, Error>
        requires sound { is_sound_one self.now.database ≡ true }
        requires named { is_name_of_table name.now ≡ true }
        requires held { CanHoldAll self.now.database rows }
        ensures ok { IfOk result (λ stored. stored.items ≡ streams_for self.now.database name.now rows) }
        ensures kind { OnlyMemory result }
    {
        let SystemRows {
            columns,
            tables,
            validation,
        } = rows;
        let in_columns = self.stream_for(COLUMNS, columns)?;
        let in_tables = self.stream_for(TABLES, tables)?;
        let in_validation = self.stream_for(VALIDATION, validation)?;
        let own = no_stream(name);
        Ok(Vec::from_array(self.alloc, [in_columns, in_tables, in_validation, own])?)
    }

    fn tables_with(&self, name: &str, columns: Items<Column>) -> Result<Items<Table>, Error>
        requires { length columns ≤ most_columns }
        ensures ok { let new = new_table self.now.database name.now columns in
            IfOk result (λ tables. tables ≡ with_table_kept new (tables_listed self.now.database)) }
        ensures kind { OnlyMemory result }
    {
        let new = named_table(self.alloc, name, columns, self.pool.long_string_refs())?;
        copies_with(self.alloc, self.tables(), new)
    }

    fn created_over(
        &self,
        name: &str,
        columns: Items<Column>,
        rows: SystemRows,
        pool: PoolInUse,
    ) -> Result<Created, Error>
        requires sound { is_sound_one self.now.database ≡ true }
        requires named { is_name_of_table name.now ≡ true }
        requires few { length columns ≤ most_columns }
        requires held { CanHoldAll (base_with (wide_for pool self.now) self.now).database rows }
        ensures ok { IfOk result (λ made. IsCreated self.now name.now columns rows pool made.new.wide
            made.new.stored.items made.new.tables made.new.pool made.is_pool_used) }
        ensures kind { OnlyMemory result }
    {
        if pool.is_widened() {
            let wide = self.widened()?;
            let stored = wide.streams_for(name, rows)?;
            let tables = wide.tables_with(name, columns)?;
            return Ok(creation(Some(wide), stored, tables, pool));
        }
        let stored = self.streams_for(name, rows)?;
        let tables = self.tables_with(name, columns)?;
        Ok(creation(None, stored, tables, pool))
    }

    fn table_created(&self, name: &str, columns: Items<Column>) -> Result<Created, Error>
        ensures ok { let change = creates.create_table self.now.database name.now columns in
            IfOk result (λ made. Makes self.now change (base_with made.new.wide self.now)
            made.new.pool made.new.tables made.new.stored.items) }
        ensures used { let change = creates.create_table self.now.database name.now columns in
            IfOk result (λ made. TellsUse change made.is_pool_used) }
        ensures names { IfOk result (λ made. HaveOwnNames made.new.stored.items) }
        ensures kind { IfErr result (IsRefusal (creates.create_table self.now.database name.now columns)) }
        ensures early { AnswersFirst (create_refusals self.now.database name.now columns) result }
    {
        self.refuse_create(name, columns.as_slice())?;
        let mut pool = PoolInUse::new(self.pool.clone()?);
        let rows = self.rows_described(&mut pool, name, columns.as_slice())?;
        self.created_over(name, columns, rows, pool)
    }

    /// Creates a table, which is described in `_Tables`, `_Columns` and `_Validation`, and returns whether that took
    /// a text from the pool.
    ///
    /// # Errors
    /// Fails with the first of these that applies: `InvalidData` if the database isn't sound; `InvalidInput` if no
    /// table may have the name, and for columns as `refuse_columns` does; `AlreadyExists` if there is such a table;
    /// `NotFound` if `_Validation` is no table; then for the rows that describe it, those of `_Columns`, of `_Tables`
    /// and of `_Validation` in turn, as `refuse_rows` does, and `InvalidInput` if the pool is full. If none applies, it
    /// fails with `OutOfMemory`, which may also come in place of the refusals of these rows and of the pool. Then
    /// nothing has changed.
    pub fn create_table(&mut self, name: &str, columns: Items<Column>) -> Result<bool, Error>
        ensures ok { let change = creates.create_table self.old.database name.now columns in
            OnOk result (Leaves self.old change self.new) }
        ensures used { IfOk result (TellsUse (creates.create_table self.old.database name.now columns)) }
        ensures same { OnErr result (self.new ≡ self.old) }
        ensures kind { IfErr result (IsRefusal (creates.create_table self.old.database name.now columns)) }
        ensures early { AnswersFirst (create_refusals self.old.database name.now columns) result }
    {
        let Created { new, is_pool_used } = self.table_created(name, columns)?;
        self.finish_tables(new)?;
        Ok(is_pool_used)
    }
}
