//! Tables from JSON, as `export` writes them.

use crate::given::{GivenColumn, GivenTable};
use crate::json_packages::{items_in, text_in};
use msi_exchange::json_value;
use msi_table::{ColumnType, Value};
use msipkg_format::Failure;
use serde_json::Value as Json;
use std::alloc::Global;

pub(crate) fn table_of(alloc: Global, path: &str, item: &Json) -> Result<GivenTable, Failure> {
    let mut table = GivenTable::new(alloc, path, text_in(item, "table").unwrap_or(""))?;
    read_columns(alloc, item, &mut table)?;
    read_rows(alloc, item, &mut table)?;
    Ok(table)
}

/// Adds the columns. What their values are limited to is in rows of `_Validation`, too, and is taken from there.
fn read_columns(alloc: Global, item: &Json, table: &mut GivenTable) -> Result<(), Failure> {
    let Some(columns) = items_in(item, "columns") else {
        return Err(table.at_table(alloc, Failure::rule("it has no list of columns")));
    };
    for column in columns {
        let column = column_of(alloc, column, table)?;
        table.columns.push(column)?;
    }
    Ok(())
}

fn column_of(alloc: Global, item: &Json, table: &GivenTable) -> Result<GivenColumn, Failure> {
    let name = text_in(item, "column").unwrap_or("");
    let Some((letter, coltype)) = type_in(text_in(item, "type").unwrap_or("")) else {
        let failure = Failure::rule("its type has to be one such as s72, i2 or v0");
        return Err(table.at_column(alloc, failure, name));
    };
    let mut column = GivenColumn::new(alloc, name, coltype)?;
    // The letter says so of texts alone.
    column.is_localizable = letter.eq_ignore_ascii_case(&b'l') || is_true(item, "localizable");
    column.is_nullable = letter.is_ascii_uppercase();
    column.is_key = is_true(item, "key");
    Ok(column)
}

/// Reads a type that the installer writes as a letter and a length, as `s72`, and returns its letter too.
fn type_in(text: &str) -> Option<(u8, ColumnType)> {
    let letter = text.as_bytes().first().copied()?;
    let length = text.get(1..)?.parse::<u16>().ok()?;
    let coltype = match (letter.to_ascii_lowercase(), length) {
        (b's' | b'l', length) => ColumnType::Str(usize::from(length)),
        (b'i', 2) => ColumnType::Int16,
        (b'i', 4) => ColumnType::Int32,
        (b'v', 0) => ColumnType::Binary,
        _ => return None,
    };
    Some((letter, coltype))
}

fn is_true(object: &Json, name: &str) -> bool {
    match object.get(name) {
        Some(value) => value.as_bool() == Some(true),
        None => false,
    }
}

fn read_rows(alloc: Global, item: &Json, table: &mut GivenTable) -> Result<(), Failure> {
    let Some(rows) = items_in(item, "rows") else {
        return Err(table.at_table(alloc, Failure::rule("it has no list of rows")));
    };
    for row in rows {
        let row = row_of(alloc, row, table)?;
        table.add_row(alloc, row)?;
    }
    Ok(())
}

fn row_of(alloc: Global, item: &Json, table: &GivenTable) -> Result<Vec<Value>, Failure> {
    let Some(items) = item.as_array() else {
        let failure = Failure::rule("it has to be a list of values");
        return Err(table.at_row(alloc, failure, table.rows.len(), ""));
    };
    let mut row = Vec::with_capacity(alloc, items.len())?;
    for item in items {
        let Some(value) = json_value(alloc, item)? else {
            let failure = Failure::rule(
                "a value has to be null, a text, a number of 32 bits, or true for a stream",
            );
            let column = table.column_at(row.len());
            return Err(table.at_row(alloc, failure, table.rows.len(), column));
        };
        row.push(value)?;
    }
    Ok(row)
}
