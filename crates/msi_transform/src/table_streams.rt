//! The streams of tables among those of a container, taken out of them by the tables' names.

ghost use Rattle.std.specs.Prelude.{◌≡◌, ◌++◌, IfOk, OnOk, bytes_eq, option_to_list};
ghost use Rattle.std.specs.FinMap.{entries};
ghost use Rattle.msi_base.specs.Results.{OnlyMemory};
ghost use Rattle.msi_database_schema.specs.Keys.{table_key as key_of_table};
ghost use Rattle.msi_database_storage.specs.Streams.{stream_at, without_stream};
ghost use Rattle.msi_transform.specs.TableStreams.{records_taken, table_stream_of, table_streams_among};
ghost use Rattle.msi_transform.specs.TableStreams.{with_records, without_tables};
ghost use Rattle.msi_transform.specs.TransformFiles.{others_among, records_among, text_of_key};

use crate::records_by_table::RecordsByTable;
use msi_base::errors::Error;
use msi_base::text::Text;
use msi_container_format::contents::StreamMap;
use msi_container_format::name::Name;
use msi_container_format::streamname::decode;
use msi_database_schema::names::{is_pool_name, table_key};
use std::alloc::Global;

/// The stream of a table: its name in the container, and the table's.
#[derive(Drop)]
pub(crate) struct TableStream {
    key: Name,
    name: Text,
}

/// Takes the streams of tables out of these, and returns the records: those of all but the pool's. It takes the streams
/// times a logarithm. After an error any streams may be left.
///
/// # Errors
/// Fails with `OutOfMemory`.
pub fn take_records(alloc: Global, streams: &mut StreamMap) -> Result<RecordsByTable, Error>
    ensures tables { IfOk result (λ tables. entries tables ≡ records_among (entries streams.old)) }
    ensures streams { OnOk result (entries streams.new ≡ others_among (entries streams.old)) }
    ensures kind { OnlyMemory result }
{
    let found = table_streams(alloc, streams)?;
    take_each(alloc, streams, found)
}

fn table_streams(alloc: Global, streams: &StreamMap) -> Result<Vec<TableStream>, Error>
    ensures ok { IfOk result (λ found. found.items ≡ table_streams_among (entries streams.now)) }
    ensures kind { OnlyMemory result }
{
    let mut found = Vec::new(alloc);
    for (key, _) in streams.iter() {
        push_table_stream(alloc, &mut found, key)?;
    }
    Ok(found)
}

/// Adds the stream of a name to those of tables, if it is one.
fn push_table_stream(alloc: Global, found: &mut Vec<TableStream>, key: &Name) -> Result<(), Error>
    ensures ok { OnOk result (found.new.items ≡ found.old.items ++ option_to_list (table_stream_of key.now)) }
    ensures kind { OnlyMemory result }
{
    let name = name_of(alloc, key)?;
    if is_key_of(key, name.as_str()) {
        found.push(TableStream {
            key: key.duplicate(),
            name,
        })?;
    }
    Ok(())
}

/// Returns the text that a container's name stands for.
fn name_of(alloc: Global, key: &Name) -> Result<Text, Error>
    ensures ok { IfOk result (λ name. name ≡ text_of_key key.now) }
    ensures kind { OnlyMemory result }
{
    let encoded = key.to_text(alloc)?;
    let (name, _) = decode(alloc, encoded.as_str())?;
    Ok(Text::from_string(name))
}

fn is_key_of(key: &Name, name: &str) -> bool
    ensures { result ≡ bytes_eq (key_of_table name.now) key.now }
{
    let units = key.units();
    match table_key(name) {
        Some(encoded) => encoded.units() == units,
        None => false,
    }
}

fn take_each(
    alloc: Global,
    streams: &mut StreamMap,
    found: Vec<TableStream>,
) -> Result<RecordsByTable, Error>
    ensures tables { IfOk result (λ tables. entries tables ≡ records_taken found.items (entries streams.old)) }
    ensures streams { OnOk result (entries streams.new ≡ without_tables found.items (entries streams.old)) }
    ensures kind { OnlyMemory result }
{
    let mut tables = RecordsByTable::new(alloc);
    let mut left = found;
    while let Some(stream) = left.pop() {
        take_one(streams, &mut tables, stream)?;
    }
    Ok(tables)
}

fn take_one(
    streams: &mut StreamMap,
    tables: &mut RecordsByTable,
    stream: TableStream,
) -> Result<(), Error>
    ensures tables { OnOk result (entries tables.new
        ≡ with_records stream (stream_at stream.key (entries streams.old)) (entries tables.old)) }
    ensures streams { OnOk result (entries streams.new ≡ without_stream stream.key (entries streams.old)) }
    ensures kind { OnlyMemory result }
{
    let TableStream { key, name } = stream;
    if let Some(bytes) = streams.remove(&key) {
        if !is_pool_name(name.as_str()) {
            tables.insert(name.into_string(), bytes)?;
        }
    }
    Ok(())
}
