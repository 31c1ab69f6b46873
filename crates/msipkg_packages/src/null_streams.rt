//! Which cells of columns of streams are null. A cell doesn't record it: rows have a stream there, whatever is stored.
//! So a cell is null if its column takes null and the package has no stream of its row's name, such as `Icon.App`.

use crate::output::{Failure, NullCells, stream_name_by};
use crate::tables::{PackageTables, rows_of};
use msi::{Column, ColumnType, Rows, Table};
use std::alloc::{AllocError, Global};

/// A column of streams, among the columns of rows, whose cells may be null.
pub struct StreamColumn<'a> {
    /// The place of the column in the rows that are shown.
    pub place: usize,
    /// The name of its table.
    pub table: &'a str,
    /// The places of the table's key in the rows that are gone over.
    pub keys: Vec<usize>,
}

/// Written out, so that a function that owns one calls one drop, and its proof doesn't go through those of the parts.
impl Drop for StreamColumn<'_> {
    fn drop(self) {
        let StreamColumn {
            place: _,
            table: _,
            keys: _,
        } = self;
    }
}

/// Returns whether a column has streams and takes null.
pub fn has_null_streams(column: &Column) -> bool {
    matches!(column.coltype(), ColumnType::Binary) && column.is_nullable()
}

/// Returns the null cells in the columns of streams of a table. Rows are only gone over if there is a column of streams
/// that takes null.
///
/// # Errors
/// Fails as `rows_of` does.
pub fn null_cells_of<P: PackageTables>(
    alloc: Global,
    package: &P,
    table: &Table,
) -> Result<NullCells, Failure> {
    let columns = stream_columns(alloc, table)?;
    if columns.is_empty() {
        return Ok(NullCells::new(alloc));
    }
    let rows = rows_of(alloc, package, table.name())?;
    Ok(null_cells_in(alloc, package, columns.as_slice(), rows)?)
}

fn stream_columns(alloc: Global, table: &Table) -> Result<Vec<StreamColumn<'_>>, AllocError> {
    let mut columns = Vec::new(alloc);
    for (place, column) in table.columns().iter().enumerate() {
        if has_null_streams(column) {
            columns.push(StreamColumn {
                place,
                table: table.name(),
                keys: key_places(alloc, table.columns())?,
            })?;
        }
    }
    Ok(columns)
}

fn key_places(alloc: Global, columns: &[Column]) -> Result<Vec<usize>, AllocError> {
    let mut places = Vec::new(alloc);
    for (place, column) in columns.iter().enumerate() {
        if column.is_primary_key() {
            places.push(place)?;
        }
    }
    Ok(places)
}

/// Returns the null cells in columns of streams, by the keys that are among the values of rows.
///
/// # Errors
/// Fails if memory is refused.
pub fn null_cells_in<P: PackageTables>(
    alloc: Global,
    package: &P,
    columns: &[StreamColumn<'_>],
    mut rows: Rows<'_>,
) -> Result<NullCells, AllocError> {
    let mut nulls = NullCells::new(alloc);
    for number in 0..rows.len() {
        add_nulls(alloc, package, columns, &rows, number, &mut nulls)?;
        rows.advance();
    }
    Ok(nulls)
}

fn add_nulls<P: PackageTables>(
    alloc: Global,
    package: &P,
    columns: &[StreamColumn<'_>],
    rows: &Rows<'_>,
    number: usize,
    nulls: &mut NullCells,
) -> Result<(), AllocError> {
    for column in columns {
        if !has_stream(alloc, package, column, rows)? {
            nulls.add(number, column.place)?;
        }
    }
    Ok(())
}

fn has_stream<P: PackageTables>(
    alloc: Global,
    package: &P,
    column: &StreamColumn<'_>,
    rows: &Rows<'_>,
) -> Result<bool, AllocError> {
    match stream_name_by(alloc, column.table, column.keys.as_slice(), rows)? {
        Some(name) => Ok(package.has_stream(name.as_str())),
        None => Ok(false),
    }
}
