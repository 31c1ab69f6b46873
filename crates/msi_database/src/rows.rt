//! Changes of a table's rows: rows are inserted, updated and deleted.

ghost use Rattle.std.specs.Prelude.{◌≡◌, IfErr, IfOk, None, OnErr, OnOk, Some, false, true};
ghost use Rattle.msi_base.specs.Results.{OnlyMemory};
ghost use Rattle.msi_base.specs.Refusals.{AnswersFirst, IsRefusal, first_refusal};
ghost use Rattle.msi_query.specs.Selection.{condition_names, has_columns};
ghost use Rattle.msi_database_schema.specs.System.{is_system_table as is_of_system};
ghost use Rattle.msi_database_changes.specs.Database.{is_sound as is_sound_one};
ghost use Rattle.msi_database_changes.specs.Delete as deletes;
ghost use Rattle.msi_database_changes.specs.Delete.{early_delete_refusals};
ghost use Rattle.msi_database_changes.specs.Insert as inserts;
ghost use Rattle.msi_database_changes.specs.Insert.{early_insert_refusals};
ghost use Rattle.msi_database_changes.specs.RowUpdates.{update_of};
ghost use Rattle.msi_database_changes.specs.Update as updates;
ghost use Rattle.msi_database_changes.specs.Update.{early_update_refusals, set_refusals};
ghost use Rattle.msi_database.specs.Listed.{IsKnown};
ghost use Rattle.msi_database.specs.Making.{Leaves, MakesRows, TellsUse, base_with, delete_of, insert_of};

use crate::changing::RowsAnew;
use crate::database::Database;
use msi_base::errors::Error;
use msi_database_changes::delete::{refuse_delete, remaining_rows};
use msi_database_changes::insert::{add_rows, refuse_new_rows, refuse_rows, whole_rows};
use msi_database_changes::texts::PoolInUse;
use msi_database_changes::update::{is_barred, refuse_collisions, refuse_sets, updated_rows};
use msi_database_schema::system::is_system_table;
use msi_query::parts::{
    DeleteParts, InsertParts, UpdateParts, delete_parts, insert_parts, update_parts,
};
use msi_query::{Delete, Insert, Update};
use msi_table::Table;

impl Database {
    fn table_to_insert_into(&self, insert: &InsertParts) -> Result<&Table, Error>
        ensures sound { OnOk result (is_sound_one self.now.database ≡ true) }
        ensures free { OnOk result (is_of_system insert.now.table ≡ false) }
        ensures known { IfOk result (λ table. IsKnown self.now.database insert.now.table table.now) }
        ensures kind { IfErr result (IsRefusal (inserts.insert_rows self.now.database (insert_of insert.now))) }
        ensures early { IfErr result (λ kind.
            first_refusal (early_insert_refusals self.now.database (insert_of insert.now)) ≡ Some kind) }
        ensures passed { OnOk result (first_refusal (early_insert_refusals self.now.database (insert_of insert.now))
            ≡ None) }
    {
        let name = insert.table.as_str();
        let table = self.table_to_change(name, is_system_table(name))?;
        let names = insert.columns.as_slice();
        refuse_new_rows(table.columns(), names, insert.rows.as_slice())?;
        Ok(table)
    }

    fn inserted(&self, insert: InsertParts, table: &Table) -> Result<RowsAnew, Error>
        requires sound { is_sound_one self.now.database ≡ true }
        requires free { is_of_system insert.table ≡ false }
        requires known { IsKnown self.now.database insert.table table.now }
        requires passed { first_refusal (early_insert_refusals self.now.database (insert_of insert)) ≡ None }
        ensures ok { let change = inserts.insert_rows self.now.database (insert_of insert) in
            IfOk result (λ new.
            MakesRows self.now change (base_with new.wide self.now) new.pool new.stored) }
        ensures used { IfOk result (λ new.
            TellsUse (inserts.insert_rows self.now.database (insert_of insert)) new.is_pool_used) }
        ensures kind { IfErr result (IsRefusal (inserts.insert_rows self.now.database (insert_of insert))) }
    {
        let InsertParts {
            table: _,
            columns: named,
            rows,
        } = insert;
        let columns = table.columns();
        let held = self.sound_rows(table)?;
        let names = named.as_slice();
        let values = whole_rows(self.alloc, columns, names, rows.into_vec())?;
        let rows = held.as_slice();
        refuse_rows(self.alloc, &self.pool, columns, rows, values.as_slice())?;
        let mut pool = PoolInUse::new(self.pool.clone()?);
        let all = add_rows(self.alloc, columns, &mut pool, held, values)?;
        self.rows_anew(table, all, pool)
    }

    fn rows_inserted(&self, insert: InsertParts) -> Result<RowsAnew, Error>
        ensures ok { let change = inserts.insert_rows self.now.database (insert_of insert) in
            IfOk result (λ new.
            MakesRows self.now change (base_with new.wide self.now) new.pool new.stored) }
        ensures used { IfOk result (λ new.
            TellsUse (inserts.insert_rows self.now.database (insert_of insert)) new.is_pool_used) }
        ensures kind { IfErr result (IsRefusal (inserts.insert_rows self.now.database (insert_of insert))) }
        ensures early { AnswersFirst (early_insert_refusals self.now.database (insert_of insert)) result }
    {
        let table = self.table_to_insert_into(&insert)?;
        self.inserted(insert, table)
    }

    fn table_to_update(&self, update: &UpdateParts) -> Result<&Table, Error>
        ensures sound { OnOk result (is_sound_one self.now.database ≡ true) }
        ensures free { OnOk result (updates.is_update_barred (update_of update.now) ≡ false) }
        ensures known { IfOk result (λ table. IsKnown self.now.database update.now.table table.now) }
        ensures fits { IfOk result (λ table.
            first_refusal (set_refusals table.now.columns (update_of update.now)) ≡ None) }
        ensures kind { IfErr result (IsRefusal (updates.update_rows self.now.database (update_of update.now))) }
        ensures early { IfErr result (λ kind.
            first_refusal (early_update_refusals self.now.database (update_of update.now)) ≡ Some kind) }
        ensures passed { OnOk result (first_refusal (early_update_refusals self.now.database (update_of update.now))
            ≡ None) }
    {
        let name = update.table.as_str();
        let table = self.table_to_change(name, is_barred(update))?;
        refuse_sets(table.columns(), update)?;
        Ok(table)
    }

    fn updated(&self, update: &UpdateParts, table: &Table) -> Result<RowsAnew, Error>
        requires sound { is_sound_one self.now.database ≡ true }
        requires free { updates.is_update_barred (update_of update.now) ≡ false }
        requires known { IsKnown self.now.database update.now.table table.now }
        requires fits { first_refusal (set_refusals table.now.columns (update_of update.now)) ≡ None }
        ensures ok { let change = updates.update_rows self.now.database (update_of update.now) in
            IfOk result (λ new.
            MakesRows self.now change (base_with new.wide self.now) new.pool new.stored) }
        ensures used { IfOk result (λ new.
            TellsUse (updates.update_rows self.now.database (update_of update.now)) new.is_pool_used) }
        ensures kind { IfErr result (IsRefusal (updates.update_rows self.now.database (update_of update.now))) }
    {
        let columns = table.columns();
        let held = self.sound_rows(table)?;
        refuse_collisions(self.alloc, &self.pool, columns, held.as_slice(), update)?;
        let mut pool = PoolInUse::new(self.pool.clone()?);
        let all = updated_rows(self.alloc, &self.pool, &mut pool, columns, update, held)?;
        self.rows_anew(table, all, pool)
    }

    fn rows_updated(&self, update: &UpdateParts) -> Result<RowsAnew, Error>
        ensures ok { let change = updates.update_rows self.now.database (update_of update.now) in
            IfOk result (λ new.
            MakesRows self.now change (base_with new.wide self.now) new.pool new.stored) }
        ensures used { IfOk result (λ new.
            TellsUse (updates.update_rows self.now.database (update_of update.now)) new.is_pool_used) }
        ensures kind { IfErr result (IsRefusal (updates.update_rows self.now.database (update_of update.now))) }
        ensures early { AnswersFirst (early_update_refusals self.now.database (update_of update.now)) result }
    {
        let table = self.table_to_update(update)?;
        self.updated(update, table)
    }

    fn table_to_delete_from(&self, delete: &DeleteParts) -> Result<&Table, Error>
        ensures sound { OnOk result (is_sound_one self.now.database ≡ true) }
        ensures free { OnOk result (is_of_system delete.now.table ≡ false) }
        ensures known { IfOk result (λ table. IsKnown self.now.database delete.now.table table.now) }
        ensures fits { IfOk result (λ table.
            has_columns table.now.columns (condition_names delete.now.condition) ≡ true) }
        ensures kind { IfErr result (IsRefusal (deletes.delete_rows self.now.database (delete_of delete.now))) }
        ensures early { IfErr result (λ kind.
            first_refusal (early_delete_refusals self.now.database (delete_of delete.now)) ≡ Some kind) }
        ensures passed { OnOk result (first_refusal (early_delete_refusals self.now.database (delete_of delete.now))
            ≡ None) }
    {
        let name = delete.table.as_str();
        let table = self.table_to_change(name, is_system_table(name))?;
        refuse_delete(table.columns(), delete)?;
        Ok(table)
    }

    fn deleted(&self, delete: &DeleteParts, table: &Table) -> Result<RowsAnew, Error>
        requires sound { is_sound_one self.now.database ≡ true }
        requires free { is_of_system delete.now.table ≡ false }
        requires known { IsKnown self.now.database delete.now.table table.now }
        requires fits { has_columns table.now.columns (condition_names delete.now.condition) ≡ true }
        ensures ok { let change = deletes.delete_rows self.now.database (delete_of delete.now) in
            IfOk result (λ new.
            MakesRows self.now change (base_with new.wide self.now) new.pool new.stored) }
        ensures used { IfOk result (λ new.
            TellsUse (deletes.delete_rows self.now.database (delete_of delete.now)) new.is_pool_used) }
        ensures kind { OnlyMemory result }
    {
        let columns = table.columns();
        let held = self.sound_rows(table)?;
        let mut pool = PoolInUse::new(self.pool.clone()?);
        let all = remaining_rows(self.alloc, &self.pool, &mut pool, columns, delete, held)?;
        self.rows_anew(table, all, pool)
    }

    fn rows_deleted(&self, delete: &DeleteParts) -> Result<RowsAnew, Error>
        ensures ok { let change = deletes.delete_rows self.now.database (delete_of delete.now) in
            IfOk result (λ new.
            MakesRows self.now change (base_with new.wide self.now) new.pool new.stored) }
        ensures used { IfOk result (λ new.
            TellsUse (deletes.delete_rows self.now.database (delete_of delete.now)) new.is_pool_used) }
        ensures kind { IfErr result (IsRefusal (deletes.delete_rows self.now.database (delete_of delete.now))) }
        ensures early { AnswersFirst (early_delete_refusals self.now.database (delete_of delete.now)) result }
    {
        let table = self.table_to_delete_from(delete)?;
        self.deleted(delete, table)
    }

    /// Inserts rows into a table, with null for the columns that the query doesn't name, if it names some. The pool's
    /// texts and the table's stream change together, at the end. Returns whether a text was taken from the pool or
    /// given back.
    ///
    /// # Errors
    /// Fails with the first of these that applies: `InvalidData` if the database isn't sound; `InvalidInput` for a
    /// system table; `NotFound` if there is no such table; `InvalidInput` if the query names a column that isn't there
    /// or one twice, or if columns are named and a row has more or fewer values than names; `InvalidInput` if a row
    /// doesn't fit the columns; `InvalidData` if two of the table's rows share a key; row by row `AlreadyExists` if the
    /// table has its key, and `InvalidInput` if an earlier new row has it; `InvalidInput` if the table would have more
    /// than 65536 rows, and if the pool is full. If none applies, it fails with `OutOfMemory`, which may also come in
    /// place of the refusals for keys, for the number of rows, and of the pool. Then nothing has changed.
    pub fn insert_rows(&mut self, query: Insert) -> Result<bool, Error>
        ensures ok { OnOk result (Leaves self.old (inserts.insert_rows self.old.database query) self.new) }
        ensures used { IfOk result (TellsUse (inserts.insert_rows self.old.database query)) }
        ensures same { OnErr result (self.new ≡ self.old) }
        ensures kind { IfErr result (IsRefusal (inserts.insert_rows self.old.database query)) }
        ensures early { AnswersFirst (early_insert_refusals self.old.database query) result }
    {
        let new = self.rows_inserted(insert_parts(query))?;
        self.finish_rows(new)
    }

    /// Sets columns in the rows of a table that meet the condition. Returns whether a text was taken from the pool or
    /// given back.
    ///
    /// # Errors
    /// Fails with the first of these that applies: `InvalidData` if the database isn't sound; `InvalidInput` for a
    /// system table, but for Description in `_Validation`; `NotFound` if there is no such table; `InvalidInput` if a
    /// column that is set isn't there or doesn't take its value, and if a column of the condition isn't there;
    /// `AlreadyExists` if two rows would share a key; `InvalidInput` if the pool is full. If none applies, it fails
    /// with `OutOfMemory`, which may also come in place of the last two. Then nothing has changed.
    pub fn update_rows(&mut self, query: Update) -> Result<bool, Error>
        ensures ok { OnOk result (Leaves self.old (updates.update_rows self.old.database query) self.new) }
        ensures used { IfOk result (TellsUse (updates.update_rows self.old.database query)) }
        ensures same { OnErr result (self.new ≡ self.old) }
        ensures kind { IfErr result (IsRefusal (updates.update_rows self.old.database query)) }
        ensures early { AnswersFirst (early_update_refusals self.old.database query) result }
    {
        // Without `?` here the parts are dropped once, and not on each way out.
        let made = self.rows_updated(&update_parts(query));
        let new = made?;
        self.finish_rows(new)
    }

    /// Deletes the rows of a table that meet the condition. Returns whether a text was taken from the pool or given
    /// back.
    ///
    /// # Errors
    /// Fails with the first of these that applies: `InvalidData` if the database isn't sound; `InvalidInput` for a
    /// system table; `NotFound` if there is no such table; `InvalidInput` if a column of the condition isn't there.
    /// If none applies, it fails with `OutOfMemory`, which never comes in place of the others. Then nothing has
    /// changed.
    pub fn delete_rows(&mut self, query: Delete) -> Result<bool, Error>
        ensures ok { OnOk result (Leaves self.old (deletes.delete_rows self.old.database query) self.new) }
        ensures used { IfOk result (TellsUse (deletes.delete_rows self.old.database query)) }
        ensures same { OnErr result (self.new ≡ self.old) }
        ensures kind { IfErr result (IsRefusal (deletes.delete_rows self.old.database query)) }
        ensures early { AnswersFirst (early_delete_refusals self.old.database query) result }
    {
        // Without `?` here the parts are dropped once, and not on each way out.
        let made = self.rows_deleted(&delete_parts(query));
        let new = made?;
        self.finish_rows(new)
    }
}
