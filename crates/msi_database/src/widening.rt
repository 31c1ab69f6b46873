//! A database whose references to texts take three bytes, made beside one in which they take two.

ghost use Rattle.std.specs.Prelude.{◌≡◌, ℕ, IfOk, List, OnOk, length, map, true};
ghost use Rattle.std.specs.FinMap.{entries};
ghost use Rattle.std.specs.List.{fold};
ghost use Rattle.msi_base.specs.Results.{OnlyMemory};
ghost use Rattle.msi_container_format.specs.Names.{is_name_length};
ghost use Rattle.msi_table_cells.specs.TableCells.{TableCells};
ghost use Rattle.msi_table.specs.Tables.{CanStore, long_table_of};
ghost use Rattle.msi_database_schema.specs.Keys.{table_key as key_of};
ghost use Rattle.msi_database_changes.specs.Database.{is_sound as is_sound_one};
ghost use Rattle.msi_database_changes.specs.Insert.{table_with};
ghost use Rattle.msi_database_storage.specs.Kept.{kept_widened};
ghost use Rattle.msi_database_storage.specs.Widening.{unlisted_table, with_long_rows};

use crate::database::Database;
use msi_base::errors::Error;
use msi_base::text::Items;
use msi_container_format::contents::{Bytes, StreamMap};
use msi_database_schema::system::{VALIDATION, validation_columns};
use msi_database_schema::{named_table, short_table_key};
use msi_database_storage::{copied_streams, stored_rows};
use msi_table::Table;
use msi_table::parts::{long_table, write_long_rows};
use msi_table_cells::cell::ValueRef;
use std::alloc::Global;

impl Database {
    fn store_tables_long(&self, streams: &mut StreamMap) -> Result<(), Error>
        requires { is_sound_one self.now.database ≡ true }
        ensures ok { OnOk result (entries streams.new
            ≡ fold with_long_rows (entries streams.old) self.now.database.tables) }
        ensures kind { OnlyMemory result }
    {
        for table in self.tables() {
            let rows = self.sound_rows(table)?;
            store_long(self.alloc, streams, table, rows.as_slice())?;
        }
        Ok(())
    }

    /// Stores the rows of the stream of `_Validation` with long references, where it is no table.
    fn store_unlisted_long(&self, streams: &mut StreamMap) -> Result<(), Error>
        requires { is_sound_one self.now.database ≡ true }
        ensures ok { OnOk result (entries streams.new
            ≡ with_long_rows (entries streams.old) (unlisted_table self.now.database)) }
        ensures kind { OnlyMemory result }
    {
        let long = self.pool.long_string_refs();
        if self.has_table(VALIDATION) {
            return Ok(());
        }
        let columns = validation_columns(self.alloc)?;
        let validation = named_table(self.alloc, VALIDATION, columns, long)?;
        let rows = stored_rows(self.alloc, &self.streams, &validation)?;
        store_long(self.alloc, streams, &validation, rows.as_slice())
    }

    /// Makes the same database with references of three bytes beside this one: the rows of its tables are stored anew,
    /// and all other streams are copied.
    pub(crate) fn widened(&self) -> Result<Database, Error>
        requires { is_sound_one self.now.database ≡ true }
        ensures ok { IfOk result (λ wide. wide ≡ kept_widened self.now) }
        ensures kind { OnlyMemory result }
    {
        let mut streams = copied_streams(self.alloc, &self.streams)?;
        self.store_tables_long(&mut streams)?;
        self.store_unlisted_long(&mut streams)?;
        let tables = long_tables(self.alloc, self.tables())?;
        let mut pool = self.pool.clone()?;
        pool.widen();
        Ok(Database {
            alloc: self.alloc,
            pool,
            tables,
            streams,
            is_sound: true,
        })
    }
}

/// Copies of tables with long references.
fn long_tables(alloc: Global, tables: &[Table]) -> Result<Items<Table>, Error>
    ensures ok { IfOk result (λ long. long ≡ map long_table_of tables.now) }
    ensures kind { OnlyMemory result }
{
    let mut long = Vec::with_capacity(alloc, tables.len())?;
    for table in tables {
        long.push(long_table(alloc, table)?)?;
    }
    Ok(Items::from_vec(long))
}

/// Stores the rows of a table with long references, in the order that they have. Where there is no row, the stream
/// stays.
fn store_long(
    alloc: Global,
    streams: &mut StreamMap,
    table: &Table,
    rows: &[Items<ValueRef>],
) -> Result<(), Error>
    requires named { is_name_length (length (key_of table.now.name)) ≡ true }
    requires storable { CanStore table.now rows.now }
    ensures ok { let t : List ℕ × TableCells = (table.now.name, table_with table.now.columns rows.now) in
        OnOk result (entries streams.new ≡ with_long_rows (entries streams.old) t) }
    ensures kind { OnlyMemory result }
{
    if rows.is_empty() {
        return Ok(());
    }
    let bytes = write_long_rows(alloc, table, rows)?;
    streams.insert(short_table_key(table.name()), Bytes::from_vec(bytes))?;
    Ok(())
}
