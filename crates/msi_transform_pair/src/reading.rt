//! The rows of a database's tables, as a transform tells them.

ghost use Rattle.std.specs.Prelude.{◌≡◌, ◌++◌, IfOk, OnOk, map, option_and_then, option_copied, replicate};
ghost use Rattle.std.specs.FinMap.{entries, put};
ghost use Rattle.msi_base.specs.Results.{OnlyMemory};
ghost use Rattle.msi_database_changes.specs.Views.{seen_row};
ghost use Rattle.msi_database_storage.specs.Streams.{stream_at};
ghost use Rattle.msi_table_cells.specs.CellValues.{row_values};
ghost use Rattle.msi_table_values.specs.Views.{seen_value};
ghost use Rattle.msi_table_values.specs.declared.value.Value.TheVariants.{Null};
ghost use Rattle.msi_transform_rows.specs.KeyOfRows.{key_cmp};
ghost use Rattle.msi_transform_pair.specs.Pair.{by_keys, stream_of_row as row_stream_in, told_row as row_told};
ghost use Rattle.msi_transform_pair.specs.Pair.{told_rows as rows_told, told_row_with, told_stream as stream_told};
ghost use Rattle.msi_transform_pair.specs.Pair.{told_value as value_told, told_values as values_told};

use crate::base::Base;
use crate::seen::SeenValues;
use crate::told::{ToldRow, ToldRows};
use msi_base::errors::Error;
use msi_base::text::Items;
use msi_container_format::contents::{Bytes, StreamMap};
use msi_container_format::name::Name;
use msi_database_changes::keys::Key;
use msi_database_changes::views::views_of_cells;
use msi_table_cells::cell::ValueRef;
use msi_table_values::column::Column;
use msi_table_values::parts::ValueView;
use msi_transform_rows::row_streams::{has_streams, is_of_streams, row_stream};
use std::alloc::Global;

fn stream_named<'a>(streams: &'a StreamMap, name: &Option<Name>) -> Option<&'a Bytes>
    ensures { option_copied result ≡ option_and_then (λ name. stream_at name (entries streams.now)) name.now }
{
    match name {
        Some(name) => streams.get(name),
        None => None,
    }
}

/// Returns the stream of a row, if there is one under its name.
fn stream_of_row<'a>(
    base: &Base<'a>,
    table: &str,
    key: &Key<'a>,
) -> Result<Option<&'a Bytes>, Error>
    ensures ok { IfOk result (λ stream. option_copied stream ≡ row_stream_in base.now.kept table.now key.now) }
    ensures kind { OnlyMemory result }
{
    let name = row_stream(base.alloc, table, key)?;
    Ok(stream_named(base.streams(), &name))
}

/// Returns the stream of a row, if its table has columns of streams and there is one.
fn told_stream<'a>(
    base: &Base<'a>,
    table: &str,
    columns: &[Column],
    key: &Key<'a>,
) -> Result<Option<&'a Bytes>, Error>
    ensures ok { IfOk result (λ stream.
        option_copied stream ≡ stream_told base.now.kept table.now columns.now key.now) }
    ensures kind { OnlyMemory result }
{
    if !has_streams(columns) {
        return Ok(None);
    }
    stream_of_row(base, table, key)
}

fn told_value<'a>(there: bool, column: &Column, value: ValueView<'a>) -> ValueView<'a>
    ensures { seen_value result ≡ value_told there (column.now, seen_value value.entry) }
{
    if !is_of_streams(column.coltype()) {
        return value;
    }
    if there {
        ValueView::Binary
    } else {
        ValueView::Null
    }
}

fn told_values<'a>(
    alloc: Global,
    there: bool,
    columns: &[Column],
    values: &[ValueView<'a>],
) -> Result<Vec<ValueView<'a>>, Error>
    ensures ok { IfOk result (λ told. seen_row told.items ≡ values_told there columns.now (seen_row values.now)) }
    ensures kind { OnlyMemory result }
{
    let mut told = Vec::new(alloc);
    for i in 0..columns.len().min(values.len()) {
        told.push(told_value(there, &columns[i], values[i]))?;
    }
    Ok(told)
}

fn push_nulls(values: &mut Vec<ValueView>, count: usize) -> Result<(), Error>
    ensures ok { OnOk result (seen_row values.new.items ≡ seen_row values.old.items ++ replicate count Null) }
    ensures kind { OnlyMemory result }
{
    for i in 0..count {
        values.push(ValueView::Null)?;
    }
    Ok(())
}

fn told_row_of<'a>(
    alloc: Global,
    stream: Option<&'a Bytes>,
    columns: &[Column],
    added: usize,
    values: &[ValueView<'a>],
) -> Result<ToldRow<'a>, Error>
    ensures ok { IfOk result (λ row.
        row ≡ told_row_with (option_copied stream.entry) columns.now added (seen_row values.now)) }
    ensures kind { OnlyMemory result }
{
    let mut told = told_values(alloc, stream.is_some(), columns, values)?;
    push_nulls(&mut told, added)?;
    Ok(ToldRow::new(SeenValues::from_vec(told), stream))
}

fn told_row<'a>(
    base: &Base<'a>,
    table: &str,
    columns: &[Column],
    added: usize,
    cells: &[ValueRef],
) -> Result<(Key<'a>, ToldRow<'a>), Error>
    ensures key { let values = row_values base.now.kept.database.pool.places cells.now in
        IfOk result (λ entry. entry.0 ≡ (row_told base.now.kept table.now columns.now added values).0) }
    ensures row { let values = row_values base.now.kept.database.pool.places cells.now in
        IfOk result (λ entry. entry.1 ≡ (row_told base.now.kept table.now columns.now added values).1) }
    ensures kind { OnlyMemory result }
{
    let views = views_of_cells(base.alloc, base.pool(), cells)?;
    let key = Key::of_row(base.alloc, columns, views.as_slice())?;
    let stream = told_stream(base, table, columns, &key)?;
    let row = told_row_of(base.alloc, stream, columns, added, views.as_slice())?;
    Ok((key, row))
}

fn put_row<'a>(
    base: &Base<'a>,
    table: &str,
    columns: &[Column],
    added: usize,
    rows: &mut ToldRows<'a>,
    cells: &Items<ValueRef>,
) -> Result<(), Error>
    ensures ok { let values = row_values base.now.kept.database.pool.places cells.now in
        let row = row_told base.now.kept table.now columns.now added values in
        OnOk result (entries rows.new ≡ put key_cmp row.0 row.1 (entries rows.old)) }
    ensures kind { OnlyMemory result }
{
    let (key, row) = told_row(base, table, columns, added, cells.as_slice())?;
    rows.insert(key, row)
}

/// Returns rows of cells by their keys: of two with one key the first.
///
/// # Errors
/// Fails with `OutOfMemory`.
pub fn rows_by_keys<'a>(
    base: &Base<'a>,
    table: &str,
    columns: &[Column],
    added: usize,
    cells: &[Items<ValueRef>],
) -> Result<ToldRows<'a>, Error>
    ensures ok { let values = map (row_values base.now.kept.database.pool.places) cells.now in IfOk result (λ rows.
        entries rows ≡ by_keys (map (row_told base.now.kept table.now columns.now added) values)) }
    ensures kind { OnlyMemory result }
{
    let mut rows = ToldRows::new(base.alloc);
    for i in 0..cells.len() {
        put_row(
            base,
            table,
            columns,
            added,
            &mut rows,
            &cells[cells.len() - 1 - i],
        )?;
    }
    Ok(rows)
}

/// Returns the rows of a table as a transform tells them, with null in each of so many columns that are added.
///
/// # Errors
/// Fails with `OutOfMemory`.
pub fn told_rows<'a>(base: &Base<'a>, table: &str, added: usize) -> Result<ToldRows<'a>, Error>
    ensures ok { IfOk result (λ rows. entries rows ≡ rows_told base.now.kept table.now added) }
    ensures kind { OnlyMemory result }
{
    let cells = base.rows_of(table)?;
    rows_by_keys(base, table, base.columns_of(table), added, cells.as_slice())
}
