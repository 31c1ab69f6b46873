//! Dropping a table, with the rows about it.

ghost use Rattle.std.specs.Prelude.{◌≡◌, ◌++◌, IfErr, IfOk, None, OnErr, OnOk, Some, false, true};
ghost use Rattle.msi_base.specs.Results.{OnlyMemory};
ghost use Rattle.msi_base.specs.Refusals.{AnswersFirst, IsRefusal, first_refusal, unless_refused};
ghost use Rattle.msi_database_schema.specs.Keys.{is_table_name as is_of_table};
ghost use Rattle.msi_database_schema.specs.System.{is_system_table as is_of_system};
ghost use Rattle.msi_database_changes.specs.Database.{is_sound as is_sound_one};
ghost use Rattle.msi_database_changes.specs.Drop as drops;
ghost use Rattle.msi_database_changes.specs.Drop.{drop_refusals, early_drop_refusals};
ghost use Rattle.msi_database_changes.specs.Storing.{HaveOwnNames};
ghost use Rattle.msi_database_changes.specs.Texts.{in_use};
ghost use Rattle.msi_database.specs.Dropping.{about_given_back, own_stream, rows_given_back};
ghost use Rattle.msi_database.specs.Dropping.{system_stream};
ghost use Rattle.msi_database.specs.Listed.{IsKnown};
ghost use Rattle.msi_database.specs.Making.{Leaves, Makes, TellsUse, base_with};

use crate::changing::TablesAnew;
use crate::database::Database;
use crate::reasons;
use msi_base::errors::{Error, ErrorKind};
use msi_database_changes::Stored;
use msi_database_changes::drop::rows_without;
use msi_database_changes::texts::PoolInUse;
use msi_database_schema::names::is_table_name;
use msi_database_schema::system::{COLUMNS, TABLES, VALIDATION, is_system_table};
use msi_database_storage::stream_of;
use msi_table::Table;

/// A drop that goes on: the pool, and the streams to be stored.
#[derive(Drop)]
struct Dropping {
    pool: PoolInUse,
    stored: Vec<Stored>,
}

/// What a drop makes, and whether it used the pool.
#[derive(Drop)]
struct Dropped {
    made: TablesAnew,
    is_pool_used: bool,
}

impl Database {
    fn refuse_drop(&self, name: &str) -> Result<(), Error>
        ensures sound { OnOk result (is_sound_one self.now.database ≡ true) }
        ensures free { OnOk result (is_of_system name.now ≡ false) }
        ensures named { OnOk result (is_of_table name.now ≡ true) }
        ensures kind { let refusals = drop_refusals self.now.database name.now in
            IfErr result (IsRefusal {A = Unit {0}} (unless_refused refusals tt)) }
        ensures early { IfErr result (λ kind. first_refusal (drop_refusals self.now.database name.now) ≡ Some kind) }
        ensures passed { OnOk result (first_refusal (drop_refusals self.now.database name.now) ≡ None) }
    {
        self.refuse_change(is_system_table(name))?;
        if !is_table_name(name) {
            return Err(Error::new(ErrorKind::InvalidInput, reasons::TABLE_NAME));
        }
        Ok(())
    }

    pub(crate) fn table_to_drop(&self, name: &str) -> Result<&Table, Error>
        ensures sound { OnOk result (is_sound_one self.now.database ≡ true) }
        ensures free { OnOk result (is_of_system name.now ≡ false) }
        ensures named { OnOk result (is_of_table name.now ≡ true) }
        ensures known { IfOk result (λ table. IsKnown self.now.database name.now table.now) }
        ensures kind { IfErr result (IsRefusal (drops.drop_table self.now.database name.now)) }
        ensures early { IfErr result (λ kind.
            first_refusal (early_drop_refusals self.now.database name.now) ≡ Some kind) }
        ensures passed { OnOk result (first_refusal (early_drop_refusals self.now.database name.now) ≡ None) }
    {
        self.refuse_drop(name)?;
        match self.known_table(name) {
            Some(table) => Ok(table),
            None => Err(Error::new(ErrorKind::NotFound, reasons::NO_TABLE)),
        }
    }

    /// Begins with the table itself: the texts of its rows are given back, and its stream is to go.
    fn drop_rows(&self, dropping: &mut Dropping, table: &Table) -> Result<(), Error>
        requires sound { is_sound_one self.now.database ≡ true }
        requires known { IsKnown self.now.database table.now.name table.now }
        ensures pool { OnOk result (in_use dropping.new.pool
            ≡ rows_given_back self.now.database table.now.name (in_use dropping.old.pool)) }
        ensures page { dropping.new.pool.pool.page ≡ dropping.old.pool.pool.page }
        ensures long { dropping.new.pool.pool.long ≡ dropping.old.pool.pool.long }
        ensures stored { OnOk result (dropping.new.stored.items
            ≡ dropping.old.stored.items ++ own_stream table.now.name) }
        ensures kind { OnlyMemory result }
    {
        let held = self.sound_rows(table)?;
        dropping.pool.release_rows(held.as_slice())?;
        let gone = stream_of(self.alloc, table, Vec::new(self.alloc))?;
        dropping.stored.push(gone)?;
        Ok(())
    }

    /// Goes on with a system table, where it is one: the texts of its rows about the table `name` are given back, and
    /// the stream of the others is to be stored.
    fn forget(&self, dropping: &mut Dropping, name: &str, system: &str) -> Result<(), Error>
        requires sound { is_sound_one self.now.database ≡ true }
        ensures pool { OnOk result (in_use dropping.new.pool
            ≡ about_given_back self.now.database name.now system.now (in_use dropping.old.pool)) }
        ensures page { dropping.new.pool.pool.page ≡ dropping.old.pool.pool.page }
        ensures long { dropping.new.pool.pool.long ≡ dropping.old.pool.pool.long }
        ensures stored { OnOk result (dropping.new.stored.items
            ≡ dropping.old.stored.items ++ system_stream self.now.database name.now system.now) }
        ensures kind { OnlyMemory result }
    {
        let Some(table) = self.known_table(system) else {
            return Ok(());
        };
        let held = self.sound_rows(table)?;
        let rows = rows_without(self.alloc, &self.pool, &mut dropping.pool, name, held)?;
        let others = stream_of(self.alloc, table, rows)?;
        dropping.stored.push(others)?;
        Ok(())
    }

    fn dropped(&self, name: &str, table: &Table) -> Result<Dropped, Error>
        requires sound { is_sound_one self.now.database ≡ true }
        requires free { is_of_system name.now ≡ false }
        requires named { is_of_table name.now ≡ true }
        requires known { IsKnown self.now.database name.now table.now }
        ensures ok { let change = drops.drop_table self.now.database name.now in IfOk result (λ dropped.
            Makes self.now change (base_with dropped.made.wide self.now) dropped.made.pool
            dropped.made.tables dropped.made.stored.items) }
        ensures used { IfOk result (λ dropped.
            TellsUse (drops.drop_table self.now.database name.now) dropped.is_pool_used) }
        ensures names { IfOk result (λ dropped. HaveOwnNames dropped.made.stored.items) }
        ensures kind { OnlyMemory result }
    {
        let mut dropping = Dropping {
            pool: PoolInUse::new(self.pool.clone()?),
            stored: Vec::new(self.alloc),
        };
        self.drop_rows(&mut dropping, table)?;
        self.forget(&mut dropping, name, VALIDATION)?;
        self.forget(&mut dropping, name, COLUMNS)?;
        self.forget(&mut dropping, name, TABLES)?;
        let tables = self.tables_without(name)?;
        let Dropping { pool, stored } = dropping;
        let is_pool_used = pool.is_used();
        Ok(Dropped {
            made: TablesAnew {
                wide: None,
                stored,
                pool: pool.into_pool(),
                tables,
            },
            is_pool_used,
        })
    }

    fn table_dropped(&self, name: &str) -> Result<Dropped, Error>
        ensures ok { let change = drops.drop_table self.now.database name.now in IfOk result (λ dropped.
            Makes self.now change (base_with dropped.made.wide self.now) dropped.made.pool
            dropped.made.tables dropped.made.stored.items) }
        ensures used { IfOk result (λ dropped.
            TellsUse (drops.drop_table self.now.database name.now) dropped.is_pool_used) }
        ensures names { IfOk result (λ dropped. HaveOwnNames dropped.made.stored.items) }
        ensures kind { IfErr result (IsRefusal (drops.drop_table self.now.database name.now)) }
        ensures early { AnswersFirst (early_drop_refusals self.now.database name.now) result }
    {
        let table = self.table_to_drop(name)?;
        self.dropped(name, table)
    }

    /// Drops a table with all its rows, and deletes the rows about it from the system tables. It returns whether a
    /// text was given back to the pool.
    ///
    /// # Errors
    /// Fails with the first of these that applies: `InvalidData` if the database isn't sound; `InvalidInput` for a
    /// system table, and for a name that no table may have; `NotFound` if there is no such table. If none applies, it
    /// fails with `OutOfMemory`, which never comes in place of the others. Then nothing has changed.
    pub fn drop_table(&mut self, name: &str) -> Result<bool, Error>
        ensures ok { OnOk result (Leaves self.old (drops.drop_table self.old.database name.now) self.new) }
        ensures used { IfOk result (TellsUse (drops.drop_table self.old.database name.now)) }
        ensures same { OnErr result (self.new ≡ self.old) }
        ensures kind { IfErr result (IsRefusal (drops.drop_table self.old.database name.now)) }
        ensures early { AnswersFirst (early_drop_refusals self.old.database name.now) result }
    {
        let Dropped { made, is_pool_used } = self.table_dropped(name)?;
        self.finish_tables(made)?;
        Ok(is_pool_used)
    }
}
