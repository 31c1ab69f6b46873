//! Changes of a package's tables.

ghost use Rattle.std.specs.Prelude.{◌≡◌, ◌++◌, IfErr, OnErr, OnOk};
ghost use Rattle.msi_base.specs.Refusals.{AnswersFirst, IsRefusal, unless_refused};
ghost use Rattle.msi_database.specs.Changes.{sound_refusal};
ghost use Rattle.msi_database.specs.AddColumn as adds;
ghost use Rattle.msi_database.specs.AddColumn.{early_column_refusals};
ghost use Rattle.msi_database.specs.Create as creates;
ghost use Rattle.msi_database.specs.Delete as deletes;
ghost use Rattle.msi_database.specs.Delete.{early_delete_refusals};
ghost use Rattle.msi_database.specs.Drop as drops;
ghost use Rattle.msi_database.specs.Drop.{early_drop_refusals};
ghost use Rattle.msi_database.specs.Insert as inserts;
ghost use Rattle.msi_database.specs.Insert.{early_insert_refusals};
ghost use Rattle.msi_database.specs.Update as updates;
ghost use Rattle.msi_database.specs.Update.{early_update_refusals};
ghost use Rattle.msi_database.specs.Creating.{create_refusals};
ghost use Rattle.msi.specs.State.{parts_of};
ghost use Rattle.msi.specs.Steps.{changing, storage_refusal, with_page};
ghost use Rattle.msi.specs.Whole.{Leaves, with_state};

use crate::package::{Package, settle};
use msi_base::codepage::CodePage;
use msi_base::errors::Error;
use msi_base::text::Items;
use msi_container_device::Source;
use msi_query::{Delete, Insert, Update};
use msi_table_values::column::Column;
use std::convert::AsStr;

impl<F: Source> Package<F> {
    /// Sets the code page of the texts of the database. It takes no memory.
    ///
    /// # Errors
    /// Fails with `InvalidInput` if storages lie below the root, and otherwise with `InvalidData` if the package
    /// isn't sound. Then nothing has changed.
    pub fn set_database_codepage(&mut self, page: CodePage) -> Result<(), Error>
        ensures kind { let s = self.old.state in
            result ≡ unless_refused (storage_refusal (parts_of s) ++ sound_refusal s.kept.database) tt }
        ensures ok { OnOk result (self.new ≡ with_state (with_page page self.old.state) self.old) }
        ensures same { OnErr result (self.new ≡ self.old) }
    {
        self.check_storages()?;
        settle(&mut self.database, &mut self.open, &mut self.current);
        self.database.set_codepage(page)?;
        self.is_unwritten = true;
        self.is_pool_changed = true;
        Ok(())
    }

    /// Inserts rows into a table. If the query names columns, the others get null.
    ///
    /// # Errors
    /// Fails with the first of these that applies: `InvalidInput` if storages lie below the root; `InvalidData` if
    /// the package isn't sound; `InvalidInput` for a system table; `NotFound` if there is none; `InvalidInput` if
    /// the query names a column that isn't there, or one twice, or if columns are named and a row has more or fewer
    /// values than names; row by row `InvalidInput` for a wrong number of values and for an invalid one, as null is
    /// where a column is neither named nor nullable; `InvalidData` if two stored rows share a key; row by row
    /// `AlreadyExists` if the key is stored, and `InvalidInput` if an earlier new row has it; `InvalidInput` above
    /// 65536 rows, and if the pool has no place left. If none applies, it fails with `OutOfMemory`, which may also come
    /// in place of the refusals for keys, for the number of rows, and of the pool. Then nothing has changed.
    pub fn insert_rows(&mut self, query: Insert) -> Result<(), Error>
        ensures ok { let change = changing (parts_of self.old.state) (λ d. inserts.insert_rows d query) in
            OnOk result (Leaves self.old change self.new) }
        ensures same { OnErr result (self.new ≡ self.old) }
        ensures kind { let change = changing (parts_of self.old.state) (λ d. inserts.insert_rows d query) in
            IfErr result (IsRefusal change) }
        ensures early { let s = self.old.state in
            AnswersFirst (storage_refusal (parts_of s) ++ early_insert_refusals s.kept.database query) result }
    {
        self.check_storages()?;
        settle(&mut self.database, &mut self.open, &mut self.current);
        let is_pool_used = self.database.insert_rows(query)?;
        self.note_change(is_pool_used);
        Ok(())
    }

    /// Sets columns in the rows of a table that meet a condition.
    ///
    /// # Errors
    /// Fails with the first of these that applies: `InvalidInput` if storages lie below the root; `InvalidData` if
    /// the package isn't sound; `InvalidInput` for a system table, but for Description in `_Validation`; `NotFound`
    /// if there is none; `InvalidInput` if a column that is set isn't there or doesn't take its value, and if one of
    /// the condition isn't there; `AlreadyExists` if two rows would share a key; `InvalidInput` if the pool has no
    /// place left. If none applies, it fails with `OutOfMemory`, which may also come in place of the last two. Then
    /// nothing has changed.
    pub fn update_rows(&mut self, query: Update) -> Result<(), Error>
        ensures ok { let change = changing (parts_of self.old.state) (λ d. updates.update_rows d query) in
            OnOk result (Leaves self.old change self.new) }
        ensures same { OnErr result (self.new ≡ self.old) }
        ensures kind { let change = changing (parts_of self.old.state) (λ d. updates.update_rows d query) in
            IfErr result (IsRefusal change) }
        ensures early { let s = self.old.state in
            AnswersFirst (storage_refusal (parts_of s) ++ early_update_refusals s.kept.database query) result }
    {
        self.check_storages()?;
        settle(&mut self.database, &mut self.open, &mut self.current);
        let is_pool_used = self.database.update_rows(query)?;
        self.note_change(is_pool_used);
        Ok(())
    }

    /// Deletes the rows of a table that meet a condition.
    ///
    /// # Errors
    /// Fails with the first of these that applies: `InvalidInput` if storages lie below the root; `InvalidData` if
    /// the package isn't sound; `InvalidInput` for a system table; `NotFound` if there is none; `InvalidInput` if a
    /// column of the condition isn't there. If none applies, it fails with `OutOfMemory`, which never comes in place
    /// of the others. Then nothing has changed.
    pub fn delete_rows(&mut self, query: Delete) -> Result<(), Error>
        ensures ok { let change = changing (parts_of self.old.state) (λ d. deletes.delete_rows d query) in
            OnOk result (Leaves self.old change self.new) }
        ensures same { OnErr result (self.new ≡ self.old) }
        ensures kind { let change = changing (parts_of self.old.state) (λ d. deletes.delete_rows d query) in
            IfErr result (IsRefusal change) }
        ensures early { let s = self.old.state in
            AnswersFirst (storage_refusal (parts_of s) ++ early_delete_refusals s.kept.database query) result }
    {
        self.check_storages()?;
        settle(&mut self.database, &mut self.open, &mut self.current);
        let is_pool_used = self.database.delete_rows(query)?;
        self.note_change(is_pool_used);
        Ok(())
    }

    /// Creates a table without rows.
    ///
    /// # Errors
    /// Fails with the first of these that applies: `InvalidInput` if storages lie below the root; `InvalidData` if
    /// the package isn't sound; `InvalidInput` for a name that no table may have, for no columns or more than 32 of
    /// them, if none is of the key, if a column's name is no identifier or repeated, if a length is above 255, if a
    /// binary column is of the key or localizable, and if one of a column's values has a `;`; `AlreadyExists` if
    /// there is a table of this name; `NotFound` if `_Validation` isn't there; then as for the rows that describe the
    /// table, put into `_Columns`, `_Tables` and `_Validation` in turn. If none applies, it fails with `OutOfMemory`,
    /// which may also come in place of the refusals of these rows. Then nothing has changed.
    pub fn create_table<S: AsStr + Drop>(
        &mut self,
        name: S,
        columns: Vec<Column>,
    ) -> Result<(), Error>
        ensures ok { let change = changing (parts_of self.old.state)
            (λ d. creates.create_table d (S.text name) columns.items) in
            OnOk result (Leaves self.old change self.new) }
        ensures same { OnErr result (self.new ≡ self.old) }
        ensures kind { let change = changing (parts_of self.old.state)
            (λ d. creates.create_table d (S.text name) columns.items) in
            IfErr result (IsRefusal change) }
        ensures early { let s = self.old.state in AnswersFirst
            (storage_refusal (parts_of s) ++ create_refusals s.kept.database (S.text name) columns.items) result }
    {
        self.make_table(name.as_str(), Items::from_vec(columns))
    }

    fn make_table(&mut self, name: &str, columns: Items<Column>) -> Result<(), Error>
        ensures ok { let change = changing (parts_of self.old.state)
            (λ d. creates.create_table d name.now columns) in
            OnOk result (Leaves self.old change self.new) }
        ensures same { OnErr result (self.new ≡ self.old) }
        ensures kind { let change = changing (parts_of self.old.state)
            (λ d. creates.create_table d name.now columns) in
            IfErr result (IsRefusal change) }
        ensures early { let s = self.old.state in
            AnswersFirst (storage_refusal (parts_of s) ++ create_refusals s.kept.database name.now columns) result }
    {
        self.check_storages()?;
        settle(&mut self.database, &mut self.open, &mut self.current);
        let is_pool_used = self.database.create_table(name, columns)?;
        self.note_change(is_pool_used);
        Ok(())
    }

    /// Drops a table, with its rows and all that describes it.
    ///
    /// # Errors
    /// Fails with the first of these that applies: `InvalidInput` if storages lie below the root; `InvalidData` if
    /// the package isn't sound; `InvalidInput` for a system table and for a name that no table may have; `NotFound`
    /// if there is none. If none applies, it fails with `OutOfMemory`, which never comes in place of the others. Then
    /// nothing has changed.
    pub fn drop_table(&mut self, name: &str) -> Result<(), Error>
        ensures ok { let change = changing (parts_of self.old.state) (λ d. drops.drop_table d name.now) in
            OnOk result (Leaves self.old change self.new) }
        ensures same { OnErr result (self.new ≡ self.old) }
        ensures kind { let change = changing (parts_of self.old.state) (λ d. drops.drop_table d name.now) in
            IfErr result (IsRefusal change) }
        ensures early { let s = self.old.state in
            AnswersFirst (storage_refusal (parts_of s) ++ early_drop_refusals s.kept.database name.now) result }
    {
        self.check_storages()?;
        settle(&mut self.database, &mut self.open, &mut self.current);
        let is_pool_used = self.database.drop_table(name)?;
        self.note_change(is_pool_used);
        Ok(())
    }

    /// Adds a column at the end of a table. Each of its rows has null there.
    ///
    /// # Errors
    /// Fails with the first of these that applies: `InvalidInput` if storages lie below the root; `InvalidData` if
    /// the package isn't sound; `InvalidInput` for a system table and for a name that no table may have; `NotFound`
    /// if there is none; `InvalidInput` if the column is of the key, not nullable or binary, and if `create_table`
    /// refuses the table's columns with it; `NotFound` if `_Validation` isn't there; then as for the rows that describe
    /// the column, put into `_Columns` and `_Validation` in turn. If none applies, it fails with `OutOfMemory`, which
    /// may also come in place of the refusals of these rows. Then nothing has changed.
    pub fn add_column(&mut self, table: &str, column: Column) -> Result<(), Error>
        ensures ok { let change = changing (parts_of self.old.state)
            (λ d. adds.add_column d table.now column) in
            OnOk result (Leaves self.old change self.new) }
        ensures same { OnErr result (self.new ≡ self.old) }
        ensures kind { let change = changing (parts_of self.old.state)
            (λ d. adds.add_column d table.now column) in
            IfErr result (IsRefusal change) }
        ensures early { let s = self.old.state in AnswersFirst
            (storage_refusal (parts_of s) ++ early_column_refusals s.kept.database table.now column) result }
    {
        self.check_storages()?;
        settle(&mut self.database, &mut self.open, &mut self.current);
        let is_pool_used = self.database.add_column(table, column)?;
        self.note_change(is_pool_used);
        Ok(())
    }
}
