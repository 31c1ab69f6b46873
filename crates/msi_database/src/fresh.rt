//! A new database: `_Validation`, described by itself.

ghost use Rattle.std.specs.Prelude.{◌≡◌, ◌∷◌, [], IfOk, OnOk, Some, false, is_some, length, true};
ghost use Rattle.msi_container_format.specs.Names.{is_name_length};
ghost use Rattle.msi_base.specs.Results.{OnlyMemory};
ghost use Rattle.msi_database_schema.specs.Keys.{table_key as key_of};
ghost use Rattle.msi_database_changes.specs.Insert.{cells_added};
ghost use Rattle.msi_database_changes.specs.Texts.{in_use};
ghost use Rattle.msi_database.specs.Fresh.{fresh};
ghost use Rattle.msi_database.specs.FreshParts.{Begins, CanBegin, columns_table, fresh_pool, fresh_stored};
ghost use Rattle.msi_database.specs.FreshParts.{tables_table, unused_pool, validation_table};

use crate::database::Database;
use msi_base::codepage::CodePage;
use msi_base::errors::Error;
use msi_base::text::Items;
use msi_container_format::contents::StreamMap;
use msi_database_changes::insert::add_rows;
use msi_database_changes::texts::PoolInUse;
use msi_database_changes::{Stored, store_all};
use msi_database_schema::description::{tables_row, validation_rows};
use msi_database_schema::system::{
    COLUMNS, TABLES, VALIDATION, columns_columns, tables_columns, validation_columns,
};
use msi_database_schema::{column_rows, named_table};
use msi_database_storage::stream_of;
use msi_pool::stringpool::StringPool;
use msi_table::Table;
use msi_table_cells::cell::ValueRef;
use msi_table_values::column::Column;
use msi_table_values::value::Value;
use std::alloc::Global;

impl Database {
    /// Returns a new database, in UTF-8: it has `_Validation` alone, beside the two tables that are always there.
    ///
    /// # Errors
    /// Fails with `OutOfMemory`.
    pub fn new(alloc: Global) -> Result<Database, Error>
        ensures ok { IfOk result (λ database. database ≡ fresh) }
        ensures kind { OnlyMemory result }
    {
        let NewTables {
            tables,
            stored,
            pool,
        } = new_tables(alloc)?;
        let mut streams = StreamMap::new(alloc);
        store_all(&mut streams, stored.into_iter())?;
        Ok(Database {
            alloc,
            pool,
            tables,
            streams,
            is_sound: true,
        })
    }
}

/// What a new database is made of.
#[derive(Drop)]
struct NewTables {
    /// The system tables.
    tables: Items<Table>,
    /// Their streams, whose rows describe `_Validation`.
    stored: Vec<Stored>,
    /// The pool, with the texts of those rows.
    pool: StringPool,
}

/// The tables of a new database.
#[derive(Drop)]
struct SystemTables {
    columns: Table,
    tables: Table,
    validation: Table,
}

fn system_tables(alloc: Global) -> Result<SystemTables, Error>
    ensures columns { IfOk result (λ system. system.columns ≡ columns_table) }
    ensures tables { IfOk result (λ system. system.tables ≡ tables_table) }
    ensures validation { IfOk result (λ system. system.validation ≡ validation_table) }
    ensures kind { OnlyMemory result }
{
    Ok(SystemTables {
        columns: named_table(alloc, COLUMNS, columns_columns(alloc)?, false)?,
        tables: named_table(alloc, TABLES, tables_columns(alloc)?, false)?,
        validation: named_table(alloc, VALIDATION, validation_columns(alloc)?, false)?,
    })
}

fn first_cells(
    alloc: Global,
    columns: &[Column],
    pool: &mut PoolInUse,
    rows: Vec<Items<Value>>,
) -> Result<Vec<Items<ValueRef>>, Error>
    requires { is_some (cells_added pool.old.pool.long columns.now (in_use pool.old) [] rows.items) ≡ true }
    ensures ok { IfOk result (λ all.
        cells_added pool.old.pool.long columns.now (in_use pool.old) [] rows.items
        ≡ Some (all.items, in_use pool.new)) }
    ensures kind { OnlyMemory result }
    ensures page { pool.new.pool.page ≡ pool.old.pool.page }
    ensures long { pool.new.pool.long ≡ pool.old.pool.long }
{
    add_rows(alloc, columns, pool, Vec::new(alloc), rows)
}

fn first_rows(
    alloc: Global,
    table: &Table,
    pool: &mut PoolInUse,
    rows: Vec<Items<Value>>,
) -> Result<Stored, Error>
    requires long { table.now.long ≡ pool.old.pool.long }
    requires named { is_name_length (length (key_of table.now.name)) ≡ true }
    requires fits { CanBegin table.now (in_use pool.old) rows.items }
    ensures ok { IfOk result (λ stored. Begins table.now (in_use pool.old) rows.items stored (in_use pool.new)) }
    ensures kind { OnlyMemory result }
    ensures page { pool.new.pool.page ≡ pool.old.pool.page }
    ensures long { pool.new.pool.long ≡ pool.old.pool.long }
{
    let all = first_cells(alloc, table.columns(), pool, rows)?;
    stream_of(alloc, table, all)
}

fn described_streams(
    alloc: Global,
    system: &SystemTables,
    pool: &mut PoolInUse,
) -> Result<Vec<Stored>, Error>
    requires columns { system.now.columns ≡ columns_table }
    requires tables { system.now.tables ≡ tables_table }
    requires validation { system.now.validation ≡ validation_table }
    requires pool { pool.old ≡ unused_pool }
    ensures ok { IfOk result (λ stored. stored.items ≡ fresh_stored) }
    ensures pool { OnOk result (pool.new.pool ≡ fresh_pool) }
    ensures kind { OnlyMemory result }
{
    let described = column_rows(alloc, VALIDATION, system.validation.columns())?;
    let columns = first_rows(alloc, &system.columns, pool, described)?;
    let listed = Vec::from_array(alloc, [tables_row(alloc, VALIDATION)?])?;
    let tables = first_rows(alloc, &system.tables, pool, listed)?;
    let validated = validation_rows(alloc, VALIDATION, system.validation.columns())?;
    let validation = first_rows(alloc, &system.validation, pool, validated)?;
    Ok(Vec::from_array(alloc, [columns, tables, validation])?)
}

/// Returns the tables of a new database, in UTF-8, with the streams that describe `_Validation` and the pool of their
/// texts.
fn new_tables(alloc: Global) -> Result<NewTables, Error>
    ensures tables { IfOk result (λ new. new.tables ≡ columns_table ∷ tables_table ∷ validation_table ∷ []) }
    ensures stored { IfOk result (λ new. new.stored.items ≡ fresh_stored) }
    ensures pool { IfOk result (λ new. new.pool ≡ fresh_pool) }
    ensures kind { OnlyMemory result }
{
    let system = system_tables(alloc)?;
    let mut pool = PoolInUse::new(StringPool::new(alloc, CodePage::Utf8));
    let stored = described_streams(alloc, &system, &mut pool)?;
    let SystemTables {
        columns,
        tables,
        validation,
    } = system;
    let tables = Vec::from_array(alloc, [columns, tables, validation])?;
    Ok(NewTables {
        tables: Items::from_vec(tables),
        stored,
        pool: pool.into_pool(),
    })
}
