//! Streams of rows for which files give null. A cell of a column of streams doesn't record it, so that it is null means
//! that the package has no such stream.

use crate::rows::{columns_of, package_row};
use msipkg_import_files::GivenTable;
use msipkg_packages::has_null_streams;
use msipkg_packages::msi::{Column, ColumnType, Error, Package, Value, ValueView};
use msipkg_packages::output::{Failure, Opened, push_key};
use std::alloc::{AllocError, Global};

/// Removes the streams of rows for which tables give null. A row for which a table gives a stream in another column
/// keeps its stream, and so do all rows of a table with a column of streams that doesn't take null.
pub(crate) fn remove_null_streams(
    alloc: Global,
    package: &mut Package<Opened>,
    tables: &[GivenTable],
) -> Result<(), Failure> {
    for table in tables {
        let names = null_names(alloc, columns_of(package, table.name.as_str()), table)?;
        remove_all(package, names.as_slice())?;
    }
    Ok(())
}

fn remove_all(package: &mut Package<Opened>, names: &[String]) -> Result<(), Error> {
    for name in names {
        if package.has_stream(name.as_str()) {
            package.remove_stream(name.as_str())?;
        }
    }
    Ok(())
}

fn null_names(alloc: Global, columns: &[Column], table: &GivenTable) -> Result<Vec<String>, Error> {
    let mut names = Vec::new(alloc);
    if !may_lack_streams(columns) {
        return Ok(names);
    }
    for row in &table.rows {
        if is_null(columns, table, row.as_slice()) {
            let values = package_row(alloc, columns, table, row.as_slice())?;
            names.push(stream_name(alloc, columns, table, values.as_slice())?)?;
        }
    }
    Ok(names)
}

/// Returns whether there are columns of streams, all of which take null.
fn may_lack_streams(columns: &[Column]) -> bool {
    let mut streams = columns
        .iter()
        .filter(|column| matches!(column.coltype(), ColumnType::Binary));
    match streams.next() {
        Some(first) => has_null_streams(first) && streams.all(|column| has_null_streams(column)),
        None => false,
    }
}

/// Returns whether a table gives null for the stream of a row.
fn is_null(columns: &[Column], table: &GivenTable, row: &[Value]) -> bool {
    let mut is_given = false;
    for column in columns {
        match given_stream(column, table, row) {
            Some(value) if is_null_value(value) => is_given = true,
            Some(_) => return false,
            None => {}
        }
    }
    is_given
}

/// Returns the value that a table gives in a row for a column of streams that takes null.
fn given_stream<'a>(column: &Column, table: &GivenTable, row: &'a [Value]) -> Option<&'a Value> {
    if !has_null_streams(column) {
        return None;
    }
    row.get(table.place_of(column.name())?)
}

/// Returns whether a value is null or the empty text, which means null.
fn is_null_value(value: &Value) -> bool {
    match value {
        Value::Null => true,
        Value::Str(text) => text.as_str().is_empty(),
        Value::Int(_) | Value::Binary => false,
    }
}

fn stream_name(
    alloc: Global,
    columns: &[Column],
    table: &GivenTable,
    values: &[Value],
) -> Result<String, AllocError> {
    let mut name = String::from_str(alloc, table.name.as_str())?;
    for (column, value) in columns.iter().zip(values.iter()) {
        if column.is_primary_key() {
            name.push('.')?;
            push_key(ValueView::of(value), &mut name)?;
        }
    }
    Ok(name)
}
