//! The null cells of the columns of streams that a query selects.

use crate::selected::{selected_tables, wide_select};
use msipkg_packages::msi::{Column, Select, Table};
use msipkg_packages::output::{Failure, NullCells};
use msipkg_packages::{PackageTables, StreamColumn, has_null_streams, null_cells_in};
use std::alloc::{AllocError, Global};

/// Returns the null cells of the rows that a query selects, which have these columns. The rows are gone over, with all
/// columns, only if one that is selected may have such cells. Those of a table whose key a query in brackets leaves out
/// aren't known, nor those of rows that count once.
pub(crate) fn null_cells<P: PackageTables>(
    alloc: Global,
    package: &P,
    query: &Select,
    columns: &[Column],
) -> Result<NullCells, Failure> {
    if !columns.iter().any(|column| has_null_streams(column)) {
        return Ok(NullCells::new(alloc));
    }
    let Some(wide) = wide_select(alloc, query)? else {
        return Ok(NullCells::new(alloc));
    };
    let rows = package.select_rows(wide)?;
    let tables = selected_tables(alloc, package, query)?;
    let streams = stream_columns(alloc, columns, rows.columns(), tables.as_slice())?;
    Ok(null_cells_in(alloc, package, streams.as_slice(), rows)?)
}

/// Returns those of the selected columns that may have null cells, if it is known which table each is of.
fn stream_columns<'a>(
    alloc: Global,
    columns: &[Column],
    all: &[Column],
    tables: &[&'a Table],
) -> Result<Vec<StreamColumn<'a>>, AllocError> {
    let mut streams = Vec::new(alloc);
    for (place, column) in columns.iter().enumerate() {
        let mut found = found_columns(alloc, place, column.name(), all, tables)?;
        if let Some(stream) = found.pop()
            && found.is_empty()
        {
            streams.push(stream)?;
        }
    }
    Ok(streams)
}

/// Returns what the selected column of a place and a name is in each table that has such a column, with streams and
/// null, and whose key is among all columns.
fn found_columns<'a>(
    alloc: Global,
    place: usize,
    name: &str,
    all: &[Column],
    tables: &[&'a Table],
) -> Result<Vec<StreamColumn<'a>>, AllocError> {
    let mut found = Vec::new(alloc);
    for table in tables {
        if let Some(front) = front_of(table, name)
            && let Some(keys) = key_places(alloc, table, front, all)?
        {
            let table = table.name();
            found.push(StreamColumn { place, table, keys })?;
        }
    }
    Ok(found)
}

/// Returns what stands in front of the names of a table's columns, if a column of streams that takes null has a name
/// with it: nothing, or in joins the name of the table and a dot.
fn front_of<'a>(table: &Table, name: &'a str) -> Option<&'a str> {
    if has_stream_column(table, name) {
        return Some("");
    }
    let own = name.strip_prefix(table.name())?.strip_prefix('.')?;
    if has_stream_column(table, own) {
        name.strip_suffix(own)
    } else {
        None
    }
}

fn has_stream_column(table: &Table, name: &str) -> bool {
    table
        .get_column(name)
        .is_some_and(|column| has_null_streams(column))
}

/// Returns the places of the key of a table among all columns, where its names have this text in front, if all are
/// there.
fn key_places(
    alloc: Global,
    table: &Table,
    front: &str,
    all: &[Column],
) -> Result<Option<Vec<usize>>, AllocError> {
    let mut places = Vec::new(alloc);
    for key in table.columns() {
        if !key.is_primary_key() {
            continue;
        }
        match place_named(all, front, key.name()) {
            Some(place) => places.push(place)?,
            None => return Ok(None),
        }
    }
    Ok(Some(places))
}

fn place_named(all: &[Column], front: &str, name: &str) -> Option<usize> {
    all.iter()
        .position(|column| column.name().strip_prefix(front) == Some(name))
}
