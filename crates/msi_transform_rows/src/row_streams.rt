//! The streams of rows: a row with cells of streams has one, whose name is the table's and the key's values.

ghost use Rattle.std.specs.Prelude.{◌≡◌, ◌++◌, ◌∷◌, IfErr, IfOk, OnOk, Ok, Some, string_bytes};
ghost use Rattle.std.specs.Prelude.{option_and_then, option_copied, option_to_list};
ghost use Rattle.std.specs.FinMap.{entries};
ghost use Rattle.msi_base.specs.Refusals.{IsRefusal, or_refused};
ghost use Rattle.msi_base.specs.declared.errors.ErrorKind.TheVariants.{NotFound};
ghost use Rattle.msi_database_storage.specs.Streams.{stream_at};
ghost use Rattle.msi_base.specs.Results.{OnlyMemory};
ghost use Rattle.msi_table_values.specs.Views.{seen_value};
ghost use Rattle.msi_database_changes.specs.Views.{seen_row};
ghost use Rattle.msi_transform_rows.specs.RowStreams.{has_streams as some_stream, is_of_streams as holds_stream};
ghost use Rattle.msi_transform_rows.specs.RowStreams.{key_text, row_stream as name_of_stream, row_stream_gone};
ghost use Rattle.msi_transform_rows.specs.RowStreams.{row_stream_stored};
ghost use Rattle.msi_transform_rows.specs.RowStreams.{name_of_text, stored_as, stream_text as text_of_stream};
ghost use Rattle.msi_transform_rows.specs.RowStreams.{told_beside, type_in, told_by_changes as told_of_changes};
ghost use Rattle.msi_transform_rows.specs.RowStreams.{told_by_row as told_of_row};
ghost use Rattle.msi_transform.specs.Transforms.{TransformDef};

use crate::reasons;
use crate::row::RowStream;
use msi_base::errors::{Error, ErrorKind};
use msi_container_format::contents::{Bytes, StreamMap};
use msi_container_format::name::Name;
use msi_container_format::parts::packed_name;
use msi_container_format::streamname::is_valid;
use msi_database_changes::Stored;
use msi_database_changes::keys::Key;
use msi_table_cells::cell::ValueRef;
use msi_table_values::column::{Column, ColumnType};
use msi_table_values::parts::ValueView;
use std::alloc::{AllocError, Global};

/// Returns whether a column's cells stand for streams.
pub fn is_of_streams(coltype: ColumnType) -> bool
    ensures { result ≡ holds_stream coltype }
{
    matches!(coltype, ColumnType::Binary)
}

/// Returns whether one of the columns is of streams.
pub fn has_streams(columns: &[Column]) -> bool
    ensures { result ≡ some_stream columns.now }
{
    columns.iter().any(|column| is_of_streams(column.coltype()))
}

fn push_key_value(text: &mut String, value: ValueView) -> Result<(), AllocError>
    ensures { OnOk result (string_bytes text.new ≡ string_bytes text.old ++ 46 ∷ key_text (seen_value value.entry)) }
{
    text.push('.')?;
    match value {
        ValueView::Null | ValueView::Binary => Ok(()),
        ValueView::Int(number) => write!(text, "{number}"),
        ValueView::Str(part) => text.push_str(part),
    }
}

/// Returns the text that names the stream of a row: its table's name and the values of its key.
///
/// # Errors
/// Fails if memory is refused.
pub fn stream_text(alloc: Global, table: &str, key: &[ValueView]) -> Result<String, AllocError>
    ensures { IfOk result (λ text. string_bytes text ≡ text_of_stream table.now (seen_row key.now)) }
{
    let mut text = String::from_str(alloc, table)?;
    for value in key {
        push_key_value(&mut text, *value)?;
    }
    Ok(text)
}

fn stream_name(text: &str) -> Option<Name>
    ensures { result ≡ name_of_text text.now }
{
    if !is_valid(text, false) {
        return None;
    }
    packed_name(text, false)
}

/// Returns the container's name of a row's stream, if it may have one.
///
/// # Errors
/// Fails with `OutOfMemory`.
pub fn row_stream(alloc: Global, table: &str, key: &Key) -> Result<Option<Name>, Error>
    ensures ok { IfOk result (λ name. name ≡ name_of_stream table.now key.now) }
    ensures kind { OnlyMemory result }
{
    let text = stream_text(alloc, table, key.values())?;
    Ok(stream_name(text.as_str()))
}

/// What a row's cells of streams say, where those before this one said so much: a stream comes where one of them isn't
/// null.
fn told_with(told: Option<RowStream>, coltype: ColumnType, cell: ValueRef) -> Option<RowStream>
    ensures { result ≡ told_beside told (coltype, cell) }
{
    if !is_of_streams(coltype) {
        return told;
    }
    match cell {
        ValueRef::Binary => Some(RowStream::Brought),
        ValueRef::Null | ValueRef::Int(_) | ValueRef::Str(_) => {
            Some(told.unwrap_or(RowStream::Gone))
        }
    }
}

/// Returns what the cells of a whole row say of its stream.
pub(crate) fn told_by_row(columns: &[Column], cells: &[ValueRef]) -> Option<RowStream>
    ensures { result ≡ told_of_row columns.now cells.now }
{
    let mut told = None;
    for i in 0..columns.len().min(cells.len()) {
        told = told_with(told, columns[i].coltype(), cells[i]);
    }
    told
}

/// Returns the type of a column, and that of short numbers past the last.
pub(crate) fn type_at(columns: &[Column], place: usize) -> ColumnType
    ensures { result ≡ type_in columns.now place }
{
    match columns.get(place) {
        Some(column) => column.coltype(),
        None => ColumnType::Int16,
    }
}

/// Returns what cells say of a row's stream, each behind the index of its column.
pub(crate) fn told_by_changes(
    columns: &[Column],
    changes: &[(usize, ValueRef)],
) -> Option<RowStream>
    ensures { result ≡ told_of_changes columns.now changes.now }
{
    let mut told = None;
    for (place, cell) in changes {
        told = told_with(told, type_at(columns, *place), *cell);
    }
    told
}

fn stored(name: Option<Name>, bytes: Option<Bytes>) -> Option<Stored>
    ensures { option_to_list result ≡ stored_as name bytes }
{
    let name = name?;
    Some(Stored { name, bytes })
}

fn stream_named<'a>(streams: &'a StreamMap, name: &Option<Name>) -> Option<&'a Bytes>
    ensures { option_copied result ≡ option_and_then (λ name. stream_at name (entries streams.now)) name.now }
{
    match name {
        Some(name) => streams.get(name),
        None => None,
    }
}

/// Returns the bytes of a stream, shared. Fails with `NotFound` if there is none.
fn shared_stream(streams: &StreamMap, name: &Option<Name>) -> Result<Bytes, Error>
    ensures ok { IfOk result (λ bytes.
        option_and_then (λ name. stream_at name (entries streams.now)) name.now ≡ Some bytes) }
    ensures kind { let bytes = option_and_then (λ name. stream_at name (entries streams.now)) name.now in
        IfErr result (IsRefusal (or_refused NotFound bytes)) }
{
    match stream_named(streams, name) {
        Some(bytes) => Ok(bytes.clone()?),
        None => Err(Error::new(ErrorKind::NotFound, reasons::STREAM_MISSING)),
    }
}

/// Returns that the stream of a row goes, if it may have one.
///
/// # Errors
/// Fails with `OutOfMemory`.
pub fn gone_row_stream(alloc: Global, table: &str, key: &Key) -> Result<Option<Stored>, Error>
    ensures ok { IfOk result (λ stored. option_to_list stored ≡ row_stream_gone table.now key.now) }
    ensures kind { OnlyMemory result }
{
    Ok(stored(row_stream(alloc, table, key)?, None))
}

/// Returns what becomes of the stream of a row, if it changes: it goes, or gets the bytes that the streams of a
/// transform have for it.
///
/// # Errors
/// Fails with `NotFound` if the transform is to bring the stream and has none for it, or with `OutOfMemory`.
pub(crate) fn stored_row_stream(
    alloc: Global,
    streams: &StreamMap,
    table: &str,
    key: &Key,
    stream: RowStream,
) -> Result<Option<Stored>, Error>
    ensures ok { IfOk result (λ stored. (t : TransformDef) → t.streams ≡ entries streams.now
        → row_stream_stored t table.now key.now stream ≡ Ok (option_to_list stored)) }
    ensures kind { IfErr result (λ kind. (t : TransformDef) → t.streams ≡ entries streams.now
        → IsRefusal (row_stream_stored t table.now key.now stream) kind) }
{
    match stream {
        RowStream::AsBefore => Ok(None),
        RowStream::Gone => gone_row_stream(alloc, table, key),
        RowStream::Brought => {
            let name = row_stream(alloc, table, key)?;
            let bytes = shared_stream(streams, &name)?;
            Ok(stored(name, Some(bytes)))
        }
    }
}
