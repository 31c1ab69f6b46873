//! The rows that describe a table, in `_Tables`, `_Columns` and `_Validation` (MSI SDK, "System tables").

ghost use Rattle.std.specs.Prelude.{◌≡◌, ◌≤◌, IfOk, IsTrue, codes, if◌then◌else◌, length, option_map};
ghost use Rattle.msi_categories.specs.Categories.{category_name};
ghost use Rattle.msi_base.specs.Results.{OnlyMemory};
ghost use Rattle.msi_table_values.specs.Columns.{HasShortLength, most_columns, type_bits as bits_of};
ghost use Rattle.msi_database_schema.specs.Description.{column_row as row_of_column, column_rows as rows_of_columns};
ghost use Rattle.msi_database_schema.specs.Description.{has_short_length as is_of_short_length};
ghost use Rattle.msi_database_schema.specs.Description.{have_short_lengths as are_of_short_lengths, int_or_null};
ghost use Rattle.msi_database_schema.specs.Description.{joined_values, tables_row as row_of_table, text_or_null};
ghost use Rattle.msi_database_schema.specs.Description.{validation_row as validating_row};
ghost use Rattle.msi_database_schema.specs.Description.{validation_rows as validating_rows};

use msi_base::errors::Error;
use msi_base::text::{IntoText, Items, Text};
use msi_table_values::column::{Column, ColumnType};
use msi_table_values::parts::type_bits;
use msi_table_values::value::Value;
use std::alloc::Global;

/// Returns whether the bits of a column's type hold the length of its texts: it is below 256.
pub fn has_short_length(column: &Column) -> bool
    ensures value { result ≡ is_of_short_length column.now }
    ensures short { IsTrue result → HasShortLength column.now.coltype }
{
    match column.coltype() {
        ColumnType::Str(length) => length < 256,
        _ => true,
    }
}

/// Returns whether the bits of each column's type hold the length of its texts.
pub fn have_short_lengths(columns: &[Column]) -> bool
    ensures { result ≡ are_of_short_lengths columns.now }
{
    columns.iter().all(has_short_length)
}

/// Returns the row of `_Tables` that lists a table.
///
/// # Errors
/// Fails with `OutOfMemory`.
pub fn tables_row(alloc: Global, name: &str) -> Result<Items<Value>, Error>
    ensures ok { IfOk result (λ row. row ≡ row_of_table name.now) }
    ensures kind { OnlyMemory result }
{
    let name = Value::Str(name.into_text(alloc)?);
    Ok(Items::from_vec(Vec::from_array(alloc, [name])?))
}

/// Returns the row of `_Columns` that describes a table's column, whose number counts from 1 on. The bits of its type
/// have to hold its length, which `has_short_length` checks.
///
/// # Errors
/// Fails with `OutOfMemory`.
pub fn column_row(
    alloc: Global,
    table: &str,
    number: u16,
    column: &Column,
) -> Result<Items<Value>, Error>
    requires { HasShortLength column.now.coltype }
    ensures ok { IfOk result (λ row. row ≡ row_of_column table.now (number, column.now)) }
    ensures kind { OnlyMemory result }
{
    let table = table.into_text(alloc)?;
    let name = column.name().into_text(alloc)?;
    let row = [
        Value::Str(table),
        Value::Int(i32::from(number)),
        Value::Str(name),
        Value::Int(i32::from(type_bits(column))),
    ];
    Ok(Items::from_vec(Vec::from_array(alloc, row)?))
}

/// Returns the rows of `_Columns` that describe a table's columns, in order. The bits of their types have to hold
/// their lengths, which `have_short_lengths` checks, and a table has at most 32767 columns.
///
/// # Errors
/// Fails with `OutOfMemory`.
pub fn column_rows(
    alloc: Global,
    table: &str,
    columns: &[Column],
) -> Result<Vec<Items<Value>>, Error>
    requires short { IsTrue (are_of_short_lengths columns.now) }
    requires few { length columns.now ≤ most_columns }
    ensures ok { IfOk result (λ rows. rows.items ≡ rows_of_columns table.now columns.now) }
    ensures kind { OnlyMemory result }
{
    let mut rows = Vec::new(alloc);
    for i in 0..columns.len() {
        rows.push(column_row(alloc, table, i as u16 + 1, &columns[i])?)?;
    }
    Ok(rows)
}

/// Joins texts with semicolons, or returns null where there are none.
fn joined(alloc: Global, texts: &[Text]) -> Result<Value, Error>
    ensures ok { IfOk result (λ value. value ≡ text_or_null (joined_values texts.now)) }
    ensures kind { OnlyMemory result }
{
    let Some((first, others)) = texts.split_first() else {
        return Ok(Value::Null);
    };
    let mut text = String::from_str(alloc, first.as_str())?;
    for other in others {
        text.push(';')?;
        text.push_str(other.as_str())?;
    }
    Ok(Value::Str(Text::from_string(text)))
}

fn listed_values(alloc: Global, column: &Column) -> Result<Value, Error>
    ensures ok { IfOk result (λ value. value ≡ text_or_null (joined_values column.now.enum_values)) }
    ensures kind { OnlyMemory result }
{
    match column.enum_values() {
        Some(texts) => joined(alloc, texts),
        None => Ok(Value::Null),
    }
}

fn least(column: &Column) -> Value
    ensures { result ≡ int_or_null (option_map (λ range. range.0) column.now.value_range) }
{
    match column.value_range() {
        Some((least, _)) => Value::Int(least),
        None => Value::Null,
    }
}

fn greatest(column: &Column) -> Value
    ensures { result ≡ int_or_null (option_map (λ range. range.1) column.now.value_range) }
{
    match column.value_range() {
        Some((_, greatest)) => Value::Int(greatest),
        None => Value::Null,
    }
}

fn key_table(alloc: Global, column: &Column) -> Result<Value, Error>
    ensures ok { IfOk result (λ value. value ≡ text_or_null (option_map (λ key. key.0) column.now.foreign_key)) }
    ensures kind { OnlyMemory result }
{
    match column.foreign_key() {
        Some((table, _)) => Ok(Value::Str(table.into_text(alloc)?)),
        None => Ok(Value::Null),
    }
}

fn key_column(column: &Column) -> Value
    ensures { result ≡ int_or_null (option_map (λ key. key.1) column.now.foreign_key) }
{
    match column.foreign_key() {
        Some((_, number)) => Value::Int(number),
        None => Value::Null,
    }
}

fn category(alloc: Global, column: &Column) -> Result<Value, Error>
    ensures ok { IfOk result (λ value. value ≡ text_or_null (option_map category_name column.now.category)) }
    ensures kind { OnlyMemory result }
{
    match column.category() {
        Some(category) => Ok(Value::Str(category.name().into_text(alloc)?)),
        None => Ok(Value::Null),
    }
}

fn nullability(column: &Column) -> &'static str
    ensures { result.now ≡ (if column.now.is_nullable then codes "Y" else codes "N") }
{
    if column.is_nullable() { "Y" } else { "N" }
}

/// Returns the row of `_Validation` that describes a table's column.
///
/// # Errors
/// Fails with `OutOfMemory`.
pub fn validation_row(alloc: Global, table: &str, column: &Column) -> Result<Items<Value>, Error>
    ensures ok { IfOk result (λ row. row ≡ validating_row table.now column.now) }
    ensures kind { OnlyMemory result }
{
    let table = table.into_text(alloc)?;
    let name = column.name().into_text(alloc)?;
    let nullable = nullability(column).into_text(alloc)?;
    let key_table = key_table(alloc, column)?;
    let category = category(alloc, column)?;
    let listed = listed_values(alloc, column)?;
    let row = [
        Value::Str(table),
        Value::Str(name),
        Value::Str(nullable),
        least(column),
        greatest(column),
        key_table,
        key_column(column),
        category,
        listed,
        Value::Null,
    ];
    Ok(Items::from_vec(Vec::from_array(alloc, row)?))
}

/// Returns the rows of `_Validation` that describe a table's columns, in order.
///
/// # Errors
/// Fails with `OutOfMemory`.
pub fn validation_rows(
    alloc: Global,
    table: &str,
    columns: &[Column],
) -> Result<Vec<Items<Value>>, Error>
    ensures ok { IfOk result (λ rows. rows.items ≡ validating_rows table.now columns.now) }
    ensures kind { OnlyMemory result }
{
    let mut rows = Vec::new(alloc);
    for column in columns {
        rows.push(validation_row(alloc, table, column)?)?;
    }
    Ok(rows)
}
