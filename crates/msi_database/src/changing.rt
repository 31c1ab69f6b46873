//! The steps of each change of rows: it is checked, made beside the old database, and moved in at the end.

ghost use Rattle.std.specs.Prelude.{◌≡◌, ◌∷◌, [], false, IfErr, IfOk, MatchOption, None, OnErr, OnOk, Some, length};
ghost use Rattle.std.specs.Prelude.{option_copied, true};
ghost use Rattle.msi_base.specs.Results.{OnlyMemory};
ghost use Rattle.msi_base.specs.Refusals.{IsRefusal, first_refusal, unless_refused};
ghost use Rattle.msi_database_changes.specs.Changes.{absent_refusals, barred_refusals};
ghost use Rattle.msi_database_changes.specs.Database.{is_sound as is_sound_one, table_at};
ghost use Rattle.msi_container_format.specs.Names.{is_name_length};
ghost use Rattle.msi_table_values.specs.Columns.{types_of};
ghost use Rattle.msi_table_cells.specs.Fitting.{FitsTable};
ghost use Rattle.msi_database_schema.specs.Keys.{table_key as key_of};
ghost use Rattle.msi_database_changes.specs.Storing.{HaveOwnNames};
ghost use Rattle.msi_database_changes.specs.Texts.{settled};
ghost use Rattle.msi_database_changes.specs.Insert.{table_with};
ghost use Rattle.msi_database_storage.specs.Kept.{kept_of, without_table_kept};
ghost use Rattle.msi_database_storage.specs.Storing.{stored_in};
ghost use Rattle.msi_database.specs.Keeping.{AreKept};
ghost use Rattle.msi_database.specs.Listed.{IsKnown, table_def_at, tables_listed};
ghost use Rattle.msi_database.specs.Making.{IsAnew, base_with};

use crate::database::Database;
use crate::reasons;
use msi_base::errors::{Error, ErrorKind};
use msi_base::text::Items;
use msi_database_changes::texts::PoolInUse;
use msi_database_changes::{Stored, store_all};
use msi_database_storage::listing::copies_without;
use msi_database_storage::{stored_rows, stream_of};
use msi_pool::stringpool::StringPool;
use msi_table::Table;
use msi_table::parts::long_table;
use msi_table_cells::cell::ValueRef;

/// A table's stream to be stored, over this database or over a wider one, the pool after the change of its rows, and
/// whether a text was taken of the pool or given back.
#[derive(Drop)]
pub(crate) struct RowsAnew {
    pub(crate) wide: Option<Database>,
    pub(crate) stored: Stored,
    pub(crate) pool: StringPool,
    pub(crate) is_pool_used: bool,
}

/// Streams to be stored, over this database or over a wider one, and the pool and the tables after a change of tables.
#[derive(Drop)]
pub(crate) struct TablesAnew {
    pub(crate) wide: Option<Database>,
    pub(crate) stored: Vec<Stored>,
    pub(crate) pool: StringPool,
    pub(crate) tables: Items<Table>,
}

impl Database {
    /// Fails with `InvalidData` where the database isn't sound, then with `InvalidInput` where the change is barred.
    pub(crate) fn refuse_change(&self, is_barred: bool) -> Result<(), Error>
        ensures passed { OnOk result (first_refusal (barred_refusals self.now.database is_barred) ≡ None) }
        ensures sound { OnOk result (is_sound_one self.now.database ≡ true) }
        ensures free { OnOk result (is_barred ≡ false) }
        ensures kind { let refusals = barred_refusals self.now.database is_barred in
            IfErr result (IsRefusal {A = Unit {0}} (unless_refused refusals tt)) }
        ensures early { let refusals = barred_refusals self.now.database is_barred in
            IfErr result (λ kind. first_refusal refusals ≡ Some kind) }
    {
        self.check_sound()?;
        if is_barred {
            return Err(Error::new(ErrorKind::InvalidInput, reasons::BARRED));
        }
        Ok(())
    }

    pub(crate) fn known_table(&self, name: &str) -> Option<&Table>
        requires { is_sound_one self.now.database ≡ true }
        ensures { MatchOption (option_copied result) (table_at name.now self.now.database ≡ None)
            (IsKnown self.now.database name.now) }
    {
        self.get_table(name)
    }

    pub(crate) fn table_to_change(&self, name: &str, is_barred: bool) -> Result<&Table, Error>
        ensures sound { OnOk result (is_sound_one self.now.database ≡ true) }
        ensures free { OnOk result (is_barred ≡ false) }
        ensures known { IfOk result (λ table. IsKnown self.now.database name.now table.now) }
        ensures passed { OnOk result (first_refusal (barred_refusals self.now.database is_barred) ≡ None) }
        ensures early { IfErr result (λ kind.
            first_refusal (absent_refusals self.now.database is_barred name.now) ≡ Some kind) }
    {
        self.refuse_change(is_barred)?;
        match self.known_table(name) {
            Some(table) => Ok(table),
            None => Err(Error::new(ErrorKind::NotFound, reasons::NO_TABLE)),
        }
    }

    pub(crate) fn sound_rows(&self, table: &Table) -> Result<Vec<Items<ValueRef>>, Error>
        requires sound { is_sound_one self.now.database ≡ true }
        requires listed { table_def_at table.now.name self.now.database ≡ Some table.now }
        ensures ok { IfOk result (λ rows.
            table_at table.now.name self.now.database ≡ Some (table_with table.now.columns rows.items)) }
        ensures kind { OnlyMemory result }
    {
        stored_rows(self.alloc, &self.streams, table)
    }

    /// The stream is stored over this database, or over one with wider references where those of the pool have widened.
    pub(crate) fn rows_anew(
        &self,
        table: &Table,
        rows: Vec<Items<ValueRef>>,
        pool: PoolInUse,
    ) -> Result<RowsAnew, Error>
        requires sound { is_sound_one self.now.database ≡ true }
        requires named { is_name_length (length (key_of table.now.name)) ≡ true }
        requires long { pool.pool.long ≡ table.now.long }
        requires storable { FitsTable (settled pool.pool).long (types_of table.now.columns) rows.items }
        ensures ok { IfOk result (λ new. IsAnew self.now table.now rows.items pool
            new.wide new.stored new.pool new.is_pool_used) }
        ensures kind { OnlyMemory result }
    {
        if pool.is_widened() {
            let long = long_table(self.alloc, table)?;
            let stored = stream_of(self.alloc, &long, rows)?;
            let wide = self.widened()?;
            return Ok(RowsAnew {
                wide: Some(wide),
                stored,
                is_pool_used: pool.is_used(),
                pool: pool.into_pool(),
            });
        }
        let stored = stream_of(self.alloc, table, rows)?;
        Ok(RowsAnew {
            wide: None,
            stored,
            is_pool_used: pool.is_used(),
            pool: pool.into_pool(),
        })
    }

    fn store_rows(&mut self, stored: Stored, pool: StringPool) -> Result<(), Error>
        requires sound { is_sound_one self.old.database ≡ true }
        requires kept { let streams = stored_in (stored ∷ []) self.old.streams in
            AreKept pool (tables_listed self.old.database) streams true }
        ensures ok { let streams = stored_in (stored ∷ []) self.old.streams in
            OnOk result (self.new ≡ kept_of pool (tables_listed self.old.database) streams) }
        ensures same { OnErr result (self.new ≡ self.old) }
        ensures kind { OnlyMemory result }
    {
        let mut changes = Vec::new(self.alloc);
        changes.push(stored)?;
        store_all(&mut self.streams, changes.into_iter())?;
        self.pool = pool;
        Ok(())
    }

    /// Stores the table's stream and takes the pool; where references widen, the wider database replaces this one.
    /// Returns whether a text was taken from the pool or given back. After an error nothing is changed.
    pub(crate) fn finish_rows(&mut self, new: RowsAnew) -> Result<bool, Error>
        requires sound { is_sound_one (base_with new.wide self.old).database ≡ true }
        requires kept { let base = base_with new.wide self.old in
            let streams = stored_in (new.stored ∷ []) base.streams in
            AreKept new.pool (tables_listed base.database) streams true }
        ensures ok { let base = base_with new.wide self.old in
            let streams = stored_in (new.stored ∷ []) base.streams in
            OnOk result (self.new ≡ kept_of new.pool (tables_listed base.database) streams) }
        ensures used { IfOk result (λ used. used ≡ new.is_pool_used) }
        ensures same { OnErr result (self.new ≡ self.old) }
        ensures kind { OnlyMemory result }
    {
        let RowsAnew {
            wide,
            stored,
            pool,
            is_pool_used,
        } = new;
        match wide {
            Some(wide) => {
                let mut base = wide;
                base.store_rows(stored, pool)?;
                *self = base;
            }
            None => self.store_rows(stored, pool)?,
        }
        Ok(is_pool_used)
    }

    fn store_tables(
        &mut self,
        stored: Vec<Stored>,
        pool: StringPool,
        tables: Items<Table>,
    ) -> Result<(), Error>
        requires names { HaveOwnNames stored.items }
        requires sound { is_sound_one self.old.database ≡ true }
        requires kept { AreKept pool tables (stored_in stored.items self.old.streams) true }
        ensures ok { OnOk result (self.new
            ≡ kept_of pool tables (stored_in stored.items self.old.streams)) }
        ensures same { OnErr result (self.new ≡ self.old) }
        ensures kind { OnlyMemory result }
    {
        store_all(&mut self.streams, stored.into_iter())?;
        self.pool = pool;
        self.tables = tables;
        Ok(())
    }

    /// Stores the streams and takes the pool and the tables; where references widen, the wider database replaces this
    /// one. After an error nothing is changed.
    pub(crate) fn finish_tables(&mut self, new: TablesAnew) -> Result<(), Error>
        requires names { HaveOwnNames new.stored.items }
        requires sound { is_sound_one (base_with new.wide self.old).database ≡ true }
        requires kept { let streams = stored_in new.stored.items (base_with new.wide self.old).streams in
            AreKept new.pool new.tables streams true }
        ensures ok { let streams = stored_in new.stored.items (base_with new.wide self.old).streams in
            OnOk result (self.new ≡ kept_of new.pool new.tables streams) }
        ensures same { OnErr result (self.new ≡ self.old) }
        ensures kind { OnlyMemory result }
    {
        let TablesAnew {
            wide,
            stored,
            pool,
            tables,
        } = new;
        match wide {
            Some(wide) => {
                let mut base = wide;
                base.store_tables(stored, pool, tables)?;
                *self = base;
                Ok(())
            }
            None => self.store_tables(stored, pool, tables),
        }
    }

    pub(crate) fn tables_without(&self, name: &str) -> Result<Items<Table>, Error>
        ensures ok { IfOk result (λ tables. tables ≡ without_table_kept name.now (tables_listed self.now.database)) }
        ensures kind { OnlyMemory result }
    {
        copies_without(self.alloc, self.tables(), name)
    }
}
