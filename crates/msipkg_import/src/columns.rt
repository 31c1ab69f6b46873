//! The columns of tables that are created.

use crate::rules::rule_about;
use msipkg_import_files::{GivenColumn, GivenTable};
use msipkg_packages::msi::{Category, Column, ColumnBuilder, ColumnType, Error, Table, Value};
use std::alloc::Global;

/// How many columns are built at most: one more than a table may have, so that one with too many is refused, however
/// many a file gives.
const MOST_BUILT: usize = 33;

pub(crate) fn built_columns(
    alloc: Global,
    rules: &[Vec<Value>],
    table: &GivenTable,
) -> Result<Vec<Column>, Error> {
    let mut columns = Vec::new(alloc);
    for column in table.columns.iter().take(MOST_BUILT) {
        columns.push(built_column(alloc, rules, table.name.as_str(), column)?)?;
    }
    Ok(columns)
}

/// Returns the columns of a table, those that rows of `_Validation` are about as these describe them.
pub(crate) fn described_columns(
    alloc: Global,
    rules: &[Vec<Value>],
    table: &Table,
) -> Result<Vec<Column>, Error> {
    let mut columns = Vec::with_capacity(alloc, table.columns().len())?;
    for column in table.columns() {
        columns.push(described_column(alloc, rules, table.name(), column)?)?;
    }
    Ok(columns)
}

fn described_column(
    alloc: Global,
    rules: &[Vec<Value>],
    table: &str,
    column: &Column,
) -> Result<Column, Error> {
    if rule_about(rules, table, column.name()).is_empty() {
        return column.clone(alloc);
    }
    let given = GivenColumn {
        name: String::from_str(alloc, column.name())?,
        coltype: column.coltype(),
        is_key: column.is_primary_key(),
        is_nullable: column.is_nullable(),
        is_localizable: column.is_localizable(),
    };
    built_column(alloc, rules, table, &given)
}

fn built_column(
    alloc: Global,
    rules: &[Vec<Value>],
    table: &str,
    column: &GivenColumn,
) -> Result<Column, Error> {
    let rule = rule_about(rules, table, column.name.as_str());
    let builder = flagged(column, Column::build(alloc, column.name.as_str())?);
    let builder = limited(alloc, rule, builder)?;
    Ok(match column.coltype {
        ColumnType::Int16 => builder.int16(),
        ColumnType::Int32 => builder.int32(),
        ColumnType::Str(length) => builder.string(length),
        ColumnType::Binary => builder.binary(),
    })
}

fn flagged(column: &GivenColumn, mut builder: ColumnBuilder) -> ColumnBuilder {
    if column.is_key {
        builder = builder.primary_key();
    }
    if column.is_nullable {
        builder = builder.nullable();
    }
    if column.is_localizable {
        builder = builder.localizable();
    }
    builder
}

/// Limits the values of a column to what a row of `_Validation` says of them.
fn limited(alloc: Global, rule: &[Value], builder: ColumnBuilder) -> Result<ColumnBuilder, Error> {
    let [_, _, _, least, greatest, table, column, category, set, _] = rule else {
        return Ok(builder);
    };
    let builder = match (least, greatest) {
        (Value::Int(least), Value::Int(greatest)) => builder.range(*least, *greatest),
        _ => builder,
    };
    let builder = match category.as_str().unwrap_or("").parse::<Category>() {
        Ok(category) => builder.category(category),
        Err(_) => builder,
    };
    let builder = match (table, column) {
        (Value::Str(table), Value::Int(column)) => builder.foreign_key(table.as_str(), *column)?,
        _ => builder,
    };
    match set {
        Value::Str(set) => listed(alloc, set.as_str(), builder),
        _ => Ok(builder),
    }
}

/// Limits the values of a column to the texts between the semicolons of a text.
fn listed(alloc: Global, set: &str, builder: ColumnBuilder) -> Result<ColumnBuilder, Error> {
    let texts = set.split(';').collect::<Vec<&str>>(alloc)?;
    builder.enum_values(texts.as_slice())
}
