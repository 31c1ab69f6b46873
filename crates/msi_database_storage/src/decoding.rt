//! Rows of tables, read from the streams of a container.

ghost use Rattle.std.specs.Prelude.{◌≡◌, [], IfErr, IfOk, Some, is_some, option_map, unwrap_or};
ghost use Rattle.std.specs.FinMap.{entries};
ghost use Rattle.msi_base.specs.declared.errors.ErrorKind.TheVariants.{InvalidData};
ghost use Rattle.msi_base.specs.Refusals.{IsRefusal, or_refused};
ghost use Rattle.msi_table.specs.Rows.{table_rows as rows_with};
ghost use Rattle.msi_database_schema.specs.Keys.{table_key as key_of};
ghost use Rattle.msi_database_storage.specs.StreamNames.{HaveShortNames};
ghost use Rattle.msi_database_storage.specs.Streams.{stored_rows as rows_stored, stream_at};

use msi_base::errors::Error;
use msi_base::text::Items;
use msi_container_format::contents::StreamMap;
use msi_database_schema::names::table_key;
use msi_table::Table;
use msi_table::parts::{StoredRows, can_read_rows, read_rows, rows_in_place};
use msi_table_cells::cell::ValueRef;
use std::alloc::Global;

/// Returns the bytes of a table's stream: none where it doesn't exist.
pub fn stream_bytes<'a>(streams: &'a StreamMap, name: &str) -> &'a [u8]
    requires { HaveShortNames (entries streams.now) }
    ensures { result.now ≡ unwrap_or (stream_at (key_of name.now) (entries streams.now)) [] }
{
    let Some(key) = table_key(name) else {
        return &[];
    };
    match streams.get(&key) {
        Some(bytes) => bytes.as_slice(),
        None => &[],
    }
}

/// Returns whether the stream of a table can be read. One without a stream can, too. The streams' names are a
/// container's, as each `Name` is. It takes no memory.
pub fn is_readable(streams: &StreamMap, table: &Table) -> bool
    requires { HaveShortNames (entries streams.now) }
    ensures { result ≡ is_some (rows_stored (entries streams.now) table.now.long table.now.columns table.now.name) }
{
    can_read_rows(table, stream_bytes(streams, table.name()))
}

/// Returns the rows that the stream of a table encodes. A table without a stream has none. The streams' names are a
/// container's, as each `Name` is.
///
/// # Errors
/// Fails with `InvalidData` if the stream can't be read, or with `OutOfMemory`.
pub fn stored_rows(
    alloc: Global,
    streams: &StreamMap,
    table: &Table,
) -> Result<Vec<Items<ValueRef>>, Error>
    requires { HaveShortNames (entries streams.now) }
    ensures ok { IfOk result (λ rows.
        rows_stored (entries streams.now) table.now.long table.now.columns table.now.name ≡ Some rows.items) }
    ensures kind { IfErr result (IsRefusal (or_refused InvalidData
        (rows_stored (entries streams.now) table.now.long table.now.columns table.now.name))) }
{
    let bytes = stream_bytes(streams, table.name());
    read_rows(alloc, table, bytes)
}

/// Returns the columns of a table, and its rows where they stand in its stream, if that can be read. A table without a
/// stream has no rows. The streams' names are a container's, as each `Name` is. It takes no memory.
pub fn table_rows<'a>(streams: &'a StreamMap, table: &'a Table) -> Option<StoredRows<'a>>
    requires { HaveShortNames (entries streams.now) }
    ensures { let t = table.now in result
        ≡ option_map (rows_with t.columns) (rows_stored (entries streams.now) t.long t.columns t.name) }
{
    rows_in_place(table, stream_bytes(streams, table.name()))
}
