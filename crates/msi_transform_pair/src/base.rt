//! The databases of which a transform is made.

ghost use Rattle.std.specs.Prelude.{◌≡◌, ◌≤◌, [], IfOk, filter, length, map, not, option_map, unwrap_or};
ghost use Rattle.std.specs.FinMap.{entries};
ghost use Rattle.msi_base.specs.Results.{OnlyMemory};
ghost use Rattle.msi_database_changes.specs.Database.{has_table};
ghost use Rattle.msi_database_schema.specs.System.{is_schema_table as is_of_schema};
ghost use Rattle.msi_database_storage.specs.Kept.{AreAsLong, kept_of};
ghost use Rattle.msi_database_storage.specs.StreamNames.{HaveShortNames};
ghost use Rattle.msi_table_values.specs.Columns.{most_columns};
ghost use Rattle.msi_transform_schema.specs.SchemaApplying.{system_rows};
ghost use Rattle.msi_transform_pair.specs.Pair.{columns_in_table, names_beside as beside, told_names as names_told};
ghost use Rattle.msi_transform_pair.specs.Names.{names_in};

use msi_base::errors::Error;
use msi_base::text::Items;
use msi_container_format::contents::StreamMap;
use msi_database_schema::system::is_schema_table;
use msi_database_storage::listing::table_named;
use msi_database_storage::table_rows;
use msi_pool::stringpool::StringPool;
use msi_table::Table;
use msi_table::parts::StoredRows;
use msi_table_cells::cell::ValueRef;
use msi_table_values::column::Column;
use std::alloc::Global;
use std::marker::Model;

/// The parts of a database of which a transform is made, borrowed: the id of its pool's page as it is stored, its pool,
/// tables and streams.
#[derive(Drop)]
pub struct Base<'a> {
    pub alloc: Global,
    page_id: u32,
    pool: &'a StringPool,
    tables: &'a [Table],
    streams: &'a StreamMap,
}

impl<'a> Model for Base<'a> {
    ghost use Rattle.std.specs.FinMap.{entries};
    ghost use Rattle.msi_database_storage.specs.Kept.{AreAsLong, kept_of};
    ghost use Rattle.msi_database_storage.specs.StreamNames.{HaveShortNames};
    ghost use Rattle.msi_transform_pair.specs.Pair.{Side};

    ghost Value = { Side };

    ghost view = { λ b. record {
      page_id = b.page_id;
      kept = kept_of b.pool.now b.tables.now (entries b.streams.now);
    } };

    ghost invariant = { λ b. HaveShortNames (entries b.streams.now) × AreAsLong b.pool.now.long b.tables.now };
}

impl<'a> Base<'a> {
    /// Returns a database of these parts. The references of all tables are as long as those of the pool. `page_id` is
    /// the id of the pool's page, or 0 where it is neutral.
    pub fn new(
        alloc: Global,
        page_id: u32,
        pool: &'a StringPool,
        tables: &'a [Table],
        streams: &'a StreamMap,
    ) -> Base<'a>
        requires names { HaveShortNames (entries streams.now) }
        requires long { AreAsLong pool.now.long tables.now }
        ensures { result ≡ record { page_id = page_id; kept = kept_of pool.now tables.now (entries streams.now) } }
    {
        Base {
            alloc,
            page_id,
            pool,
            tables,
            streams,
        }
    }

    pub fn page_id(&self) -> u32
        ensures { result ≡ self.now.page_id }
    {
        self.page_id
    }

    pub fn pool(&self) -> &'a StringPool
        ensures { result.now ≡ self.now.kept.database.pool }
    {
        self.pool
    }

    pub fn streams(&self) -> &'a StreamMap
        ensures { entries result.now ≡ self.now.kept.streams }
    {
        self.streams
    }

    /// Returns the names of the tables.
    pub fn names(&self) -> Result<Vec<&'a str>, Error>
        ensures ok { IfOk result (λ names. names_in names.items ≡ map (λ t. t.0) self.now.kept.database.tables) }
        ensures kind { OnlyMemory result }
    {
        names_of_tables(self.alloc, self.tables)
    }

    /// Returns the names of the tables, but for `_Tables` and `_Columns`.
    pub fn told_names(&self) -> Result<Vec<&'a str>, Error>
        ensures ok { IfOk result (λ names. names_in names.items ≡ names_told self.now.kept) }
        ensures kind { OnlyMemory result }
    {
        let all = self.names()?;
        names_of_rows(self.alloc, all.as_slice())
    }

    /// Returns the names of the tables that another database hasn't.
    pub fn names_beside(&self, other: &Base) -> Result<Vec<&'a str>, Error>
        ensures ok { IfOk result (λ names.
            names_in names.items ≡ beside self.now.kept.database other.now.kept.database) }
        ensures kind { OnlyMemory result }
    {
        let all = self.names()?;
        names_missing(self.alloc, all.as_slice(), other)
    }

    pub fn has_table(&self, name: &str) -> bool
        ensures { result ≡ has_table name.now self.now.kept.database }
    {
        table_named(self.tables, name).is_some()
    }

    /// Returns the columns of a table: none where there is no such table.
    pub fn columns_of(&self, name: &str) -> &'a [Column]
        ensures value { result.now ≡ columns_in_table self.now.kept name.now }
        ensures few { length result.now ≤ most_columns }
    {
        match table_named(self.tables, name) {
            Some(table) => table.columns(),
            None => &[],
        }
    }

    /// Returns the rows of a table where they stand in its stream, if there is such a table and its stream can be read.
    pub fn stored_rows_of(&self, name: &str) -> Option<StoredRows<'a>>
        ensures { unwrap_or (option_map (λ stored. stored.rows) result) []
            ≡ system_rows self.now.kept.database name.now }
    {
        match table_named(self.tables, name) {
            Some(table) => table_rows(self.streams, table),
            None => None,
        }
    }

    /// Returns the rows of a table: none where there is no such table, or its stream can't be read.
    pub fn rows_of(&self, name: &str) -> Result<Vec<Items<ValueRef>>, Error>
        ensures ok { IfOk result (λ rows. rows.items ≡ system_rows self.now.kept.database name.now) }
        ensures kind { OnlyMemory result }
    {
        let Some(table) = table_named(self.tables, name) else {
            return Ok(Vec::new(self.alloc));
        };
        match table_rows(self.streams, table) {
            Some(rows) => rows.all(self.alloc),
            None => Ok(Vec::new(self.alloc)),
        }
    }
}

fn names_of_tables<'a>(alloc: Global, tables: &'a [Table]) -> Result<Vec<&'a str>, Error>
    ensures ok { IfOk result (λ names. names_in names.items ≡ map (λ t. t.name) tables.now) }
    ensures kind { OnlyMemory result }
{
    let mut names = Vec::with_capacity(alloc, tables.len())?;
    for table in tables {
        names.push(table.name())?;
    }
    Ok(names)
}

fn names_of_rows<'a>(alloc: Global, all: &[&'a str]) -> Result<Vec<&'a str>, Error>
    ensures ok { IfOk result (λ names.
        names_in names.items ≡ filter (λ name. not (is_of_schema name)) (names_in all.now)) }
    ensures kind { OnlyMemory result }
{
    let mut names = Vec::new(alloc);
    for name in all {
        if is_schema_table(name) {
            continue;
        }
        names.push(*name)?;
    }
    Ok(names)
}

fn names_missing<'a>(alloc: Global, all: &[&'a str], other: &Base) -> Result<Vec<&'a str>, Error>
    ensures ok { IfOk result (λ names. names_in names.items
        ≡ filter (λ name. not (has_table name other.now.kept.database)) (names_in all.now)) }
    ensures kind { OnlyMemory result }
{
    let mut names = Vec::new(alloc);
    for name in all {
        if other.has_table(name) {
            continue;
        }
        names.push(*name)?;
    }
    Ok(names)
}
