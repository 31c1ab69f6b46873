//! Rows that files give, as a package's table has them.

use msi_exchange::csv_value;
use msipkg_import_files::GivenTable;
use msipkg_packages::has_null_streams;
use msipkg_packages::msi::{Column, Error, Package, Value};
use msipkg_packages::output::{Failure, Opened, near_text, said, shown_value};
use std::alloc::{AllocError, Global};

/// Returns the columns of a package's table, or none if it has no such table.
pub fn columns_of<'a>(package: &'a Package<Opened>, name: &str) -> &'a [Column] {
    match package.get_table(name) {
        Some(table) => table.columns(),
        None => &[],
    }
}

/// Returns the rows of a table with a value for each of these columns, which is found by its name, and is null if it is
/// missing. Fails at a name that none of these columns has or that occurs twice.
pub(crate) fn package_rows(
    alloc: Global,
    columns: &[Column],
    table: &GivenTable,
) -> Result<Vec<Vec<Value>>, Failure> {
    check_names(alloc, columns, table)?;
    let mut rows = Vec::with_capacity(alloc, table.rows.len())?;
    for row in &table.rows {
        rows.push(package_row(alloc, columns, table, row.as_slice())?)?;
    }
    Ok(rows)
}

fn check_names(alloc: Global, columns: &[Column], table: &GivenTable) -> Result<(), Failure> {
    for i in 0..table.columns.len() {
        let name = table.columns[i].name.as_str();
        if table.place_of(name) != Some(i) {
            return Err(table.at_column(alloc, Failure::rule("it is there twice"), name));
        }
        if !columns.iter().any(|column| column.name() == name) {
            let failure = said(missing_column(alloc, columns, name));
            return Err(table.at_column(alloc, failure, name));
        }
    }
    Ok(())
}

fn missing_column(alloc: Global, columns: &[Column], name: &str) -> Result<String, AllocError> {
    let mut names = Vec::with_capacity(alloc, columns.len())?;
    for column in columns {
        names.push(column.name())?;
    }
    let near = near_text(alloc, name, names.as_slice())?;
    format!(in alloc; "the package's table has no such column{near}")
}

pub(crate) fn package_row(
    alloc: Global,
    columns: &[Column],
    table: &GivenTable,
    row: &[Value],
) -> Result<Vec<Value>, Error> {
    let mut values = Vec::with_capacity(alloc, columns.len())?;
    for column in columns {
        let given = match table.place_of(column.name()) {
            Some(place) => row.get(place),
            None => None,
        };
        values.push(package_value(alloc, column, given)?)?;
    }
    Ok(values)
}

/// Returns the value of a column, where null in a column of streams that takes it is a cell whose stream doesn't exist.
fn package_value(alloc: Global, column: &Column, given: Option<&Value>) -> Result<Value, Error> {
    match value_given(alloc, column, given)? {
        Value::Null if has_null_streams(column) => Ok(Value::Binary),
        value => Ok(value),
    }
}

/// Returns the value of a column, or null if none is given. A text is read as a field of CSV: the empty one is null,
/// too, since the installer knows no empty text. One that the column doesn't take is left to be refused.
fn value_given(alloc: Global, column: &Column, given: Option<&Value>) -> Result<Value, Error> {
    match given {
        None => Ok(Value::Null),
        Some(Value::Str(text)) => csv_value(alloc, column.coltype(), text.as_str()),
        Some(value) => value.clone(alloc),
    }
}

pub(crate) fn check_rows(
    alloc: Global,
    columns: &[Column],
    table: &GivenTable,
    rows: &[Vec<Value>],
) -> Result<(), Failure> {
    for i in 0..rows.len() {
        check_row(alloc, columns, table, i, rows[i].as_slice())?;
    }
    Ok(())
}

/// Refuses a row if it has a value that its column doesn't take. The number of the row is counted from 0.
pub(crate) fn check_row(
    alloc: Global,
    columns: &[Column],
    table: &GivenTable,
    number: usize,
    row: &[Value],
) -> Result<(), Failure> {
    match refused_value(columns, row) {
        Some((column, value)) => {
            let failure = said(refusal(alloc, value));
            Err(table.at_row(alloc, failure, number, column))
        }
        None => Ok(()),
    }
}

fn refusal(alloc: Global, value: &Value) -> Result<String, AllocError> {
    let shown = shown_value(alloc, value)?;
    format!(in alloc; "the column doesn't take {shown}")
}

fn refused_value<'a>(columns: &'a [Column], row: &'a [Value]) -> Option<(&'a str, &'a Value)> {
    let (column, value) = columns
        .iter()
        .zip(row.iter())
        .find(|(column, value)| !column.is_valid_value(value))?;
    Some((column.name(), value))
}
