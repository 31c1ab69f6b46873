//! What becomes of the stream of a table that is stored.

ghost use Rattle.std.specs.Prelude.{◌≡◌, IfOk, Some, length, true};
ghost use Rattle.msi_container_format.specs.Names.{is_name_length};
ghost use Rattle.msi_base.specs.Results.{OnlyMemory};
ghost use Rattle.msi_table.specs.Tables.{CanStore};
ghost use Rattle.msi_database_schema.specs.Keys.{is_table_name, table_key as key_of};
ghost use Rattle.msi_database_storage.specs.Storing.{stream_gone};
ghost use Rattle.msi_database_changes.specs.Insert.{table_with};
ghost use Rattle.msi_database_storage.specs.Streams.{stream_of_rows, table_stream};

use msi_base::errors::Error;
use msi_base::text::Items;
use msi_container_format::contents::Bytes;
use msi_database_changes::Stored;
use msi_database_schema::short_table_key;
use msi_table::Table;
use msi_table::parts::{write_ordered_rows, write_rows};
use msi_table_cells::cell::ValueRef;
use std::alloc::Global;

/// Returns the stream of a table whose rows become these: none where there is no row. The table has a name that a
/// stream can have, which `table_key` checks, and the rows fit it, which `fits_table` checks.
///
/// # Errors
/// Fails with `OutOfMemory`.
pub fn stream_of(alloc: Global, table: &Table, rows: Vec<Items<ValueRef>>) -> Result<Stored, Error>
    requires named { is_name_length (length (key_of table.now.name)) ≡ true }
    requires storable { CanStore table.now rows.items }
    ensures name { IfOk result (λ stored. stored.name ≡ key_of table.now.name) }
    ensures bytes { IfOk result (λ stored. stored.bytes ≡ stream_of_rows table.now.long table.now.columns rows.items) }
    ensures kind { OnlyMemory result }
{
    let name = short_table_key(table.name());
    if rows.is_empty() {
        return Ok(Stored { name, bytes: None });
    }
    let bytes = write_rows(alloc, table, rows)?;
    Ok(Stored {
        name,
        bytes: Some(Bytes::from_vec(bytes)),
    })
}

/// Returns the stream of a table whose rows become these, in the order that they have: none where there is no row. The
/// table has a name that a stream can have, and the rows fit it, which `fits_table` checks.
///
/// # Errors
/// Fails with `OutOfMemory`.
pub fn ordered_stream_of(
    alloc: Global,
    table: &Table,
    rows: &[Items<ValueRef>],
) -> Result<Stored, Error>
    requires named { is_name_length (length (key_of table.now.name)) ≡ true }
    requires storable { CanStore table.now rows.now }
    ensures name { IfOk result (λ stored. stored.name ≡ key_of table.now.name) }
    ensures bytes { let held = table_with table.now.columns rows.now in
        IfOk result (λ stored. stored.bytes ≡ table_stream table.now.long (Some held)) }
    ensures kind { OnlyMemory result }
{
    let name = short_table_key(table.name());
    if rows.is_empty() {
        return Ok(Stored { name, bytes: None });
    }
    let bytes = write_ordered_rows(alloc, table, rows)?;
    Ok(Stored {
        name,
        bytes: Some(Bytes::from_vec(bytes)),
    })
}

/// That a table has no stream.
pub fn no_stream(name: &str) -> Stored
    requires { is_table_name name.now ≡ true }
    ensures { result ≡ stream_gone name.now }
{
    Stored {
        name: short_table_key(name),
        bytes: None,
    }
}
