//! The tables that the rows of the system tables describe, read from the streams of a container's root.

ghost use Rattle.std.specs.Prelude.{◌≡◌, [], ◌<◌, ◌≤◌, All, IfErr, IfOk, Some, if◌then◌else◌, is_some, length};
ghost use Rattle.std.specs.FinMap.{entries};
ghost use Rattle.msi_base.specs.declared.errors.ErrorKind.TheVariants.{InvalidData};
ghost use Rattle.msi_base.specs.Results.{OnlyMemory};
ghost use Rattle.msi_table_values.specs.Columns.{most_columns};
ghost use Rattle.msi_base.specs.Refusals.{IsRefusal, or_refused};
ghost use Rattle.msi_database_schema.specs.Schema.{table_with};
ghost use Rattle.msi_database_schema.specs.System.{validation_columns as columns_of_validation, validation_name};
ghost use Rattle.msi_database_storage.specs.Agreement.{described_by, schema_in};
ghost use Rattle.msi_database_storage.specs.Kept.{AreAsLong, schema_listed, table_kept_at};
ghost use Rattle.msi_database_storage.specs.StreamNames.{HaveShortNames, HoldBytes};
ghost use Rattle.msi_database_storage.specs.Streams.{stored_rows as rows_stored};

use crate::decoding::stored_rows;
use crate::listing::table_named;
use msi_base::errors::Error;
use msi_base::text::Items;
use msi_container_format::contents::StreamMap;
use msi_database_schema::named_table;
use msi_database_schema::schema::tables_of_cells;
use msi_database_schema::system::{
    COLUMNS, TABLES, VALIDATION, columns_columns, tables_columns, validation_columns,
};
use msi_pool::stringpool::StringPool;
use msi_table::Table;
use msi_table_cells::cell::ValueRef;
use msi_table_values::column::Column;
use std::alloc::Global;

/// The tables that the system tables describe, and what is read for that of `_Validation`.
#[derive(Drop)]
pub struct DescribedTables {
    /// `_Validation`, of its standard columns.
    pub standard: Table,
    /// The tables, in the order of their names.
    pub tables: Items<Table>,
    /// The rows of the stream of `_Validation`, by its standard columns.
    pub validation: Vec<Items<ValueRef>>,
}

fn look_at_bytes(bytes: &[u8])
    ensures { All (λ b. b < 256) bytes.now }
{}

/// Goes over streams: each has a name that a container can hold, and bytes.
pub fn look_at(streams: &StreamMap)
    ensures names { HaveShortNames (entries streams.now) }
    ensures bytes { HoldBytes (entries streams.now) }
{
    for (name, bytes) in streams.iter() {
        let _units = name.units();
        look_at_bytes(bytes.as_slice());
    }
}

fn described_rows(
    alloc: Global,
    pool: &StringPool,
    streams: &StreamMap,
    name: &str,
    columns: Items<Column>,
) -> Result<Vec<Items<ValueRef>>, Error>
    requires names { HaveShortNames (entries streams.now) }
    requires few { length columns ≤ most_columns }
    ensures ok { IfOk result (λ rows.
        rows_stored (entries streams.now) pool.now.long columns name.now ≡ Some rows.items) }
    ensures kind { IfErr result (IsRefusal (or_refused InvalidData
        (described_by (entries streams.now) pool.now columns name.now))) }
{
    let table = named_table(alloc, name, columns, pool.long_string_refs())?;
    stored_rows(alloc, streams, &table)
}

/// Reads the rows of `_Tables` and `_Columns` from their streams; those of `_Validation` are `validation`.
fn tables_beside(
    alloc: Global,
    pool: &StringPool,
    streams: &StreamMap,
    validation: &[Items<ValueRef>],
) -> Result<Items<Table>, Error>
    requires names { HaveShortNames (entries streams.now) }
    requires bytes { HoldBytes (entries streams.now) }
    requires validation { rows_stored (entries streams.now) pool.now.long columns_of_validation validation_name
        ≡ Some validation.now }
    ensures ok { let schema = schema_in (entries streams.now) pool.now in
        IfOk result (λ tables. schema ≡ Some (schema_listed tables)) }
    ensures long { IfOk result (AreAsLong pool.now.long) }
    ensures kind { let schema = schema_in (entries streams.now) pool.now in
        IfErr result (IsRefusal (or_refused InvalidData schema)) }
{
    let tables = described_rows(alloc, pool, streams, TABLES, tables_columns(alloc)?)?;
    let columns = described_rows(alloc, pool, streams, COLUMNS, columns_columns(alloc)?)?;
    tables_of_cells(
        alloc,
        pool,
        tables.as_slice(),
        columns.as_slice(),
        validation,
    )
}

fn standard_table(alloc: Global, pool: &StringPool) -> Result<Table, Error>
    ensures ok { IfOk result (λ table. table ≡ table_with pool.now.long (validation_name, columns_of_validation)) }
    ensures kind { OnlyMemory result }
{
    let columns = validation_columns(alloc)?;
    named_table(alloc, VALIDATION, columns, pool.long_string_refs())
}

/// Returns the tables that the rows of the system tables describe, and the rows of `_Validation`. They are read of the
/// streams of a container's root, which `look_at` goes over before; a missing stream has no rows.
///
/// # Errors
/// Fails with `InvalidData` if a stream can't be read, and if the rows describe no tables, or with `OutOfMemory`.
pub fn tables_in(
    alloc: Global,
    pool: &StringPool,
    streams: &StreamMap,
) -> Result<DescribedTables, Error>
    requires names { HaveShortNames (entries streams.now) }
    requires bytes { HoldBytes (entries streams.now) }
    ensures standard { IfOk result (λ described.
        described.standard ≡ table_with pool.now.long (validation_name, columns_of_validation)) }
    ensures validation { IfOk result (λ described.
        rows_stored (entries streams.now) pool.now.long columns_of_validation validation_name
        ≡ Some described.validation.items) }
    ensures ok { let schema = schema_in (entries streams.now) pool.now in
        IfOk result (λ described. schema ≡ Some (schema_listed described.tables)) }
    ensures long { IfOk result (λ described. AreAsLong pool.now.long described.tables) }
    ensures kind { let schema = schema_in (entries streams.now) pool.now in
        IfErr result (IsRefusal (or_refused InvalidData schema)) }
{
    let standard = standard_table(alloc, pool)?;
    let validation = stored_rows(alloc, streams, &standard)?;
    let tables = tables_beside(alloc, pool, streams, validation.as_slice())?;
    Ok(DescribedTables {
        standard,
        tables,
        validation,
    })
}

/// The rows of the stream of `_Validation` that are kept beside the tables: all where it is no table, else none.
pub fn unlisted_rows(
    alloc: Global,
    tables: &[Table],
    validation: Vec<Items<ValueRef>>,
) -> Vec<Items<ValueRef>>
    ensures { result.items ≡ (if is_some (table_kept_at validation_name tables.now) then [] else validation.items) }
{
    if table_named(tables, VALIDATION).is_some() {
        Vec::new(alloc)
    } else {
        validation
    }
}
