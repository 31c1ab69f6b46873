//! Creating a table: why a name and columns are refused.

ghost use Rattle.std.specs.Prelude.{◌≡◌, ◌≤◌, ◌<◌, ◌==◌, ◌&&◌, ◌||◌, ◌∷◌, IsTrue, OnOk, bytes_eq, length, true, Err};
ghost use Rattle.std.specs.List.{AllByRecursion, list_all, list_any};
ghost use Rattle.msi_categories.specs.CategoryRules.{is_identifier};
ghost use Rattle.msi_base.specs.declared.errors.ErrorKind.TheVariants.{InvalidInput};
ghost use Rattle.msi_base.specs.Lists.{has_pair};
ghost use Rattle.msi_base.specs.Refusals.{unless_refused};
ghost use Rattle.msi_table_values.specs.Columns.{HasShortLength, most_columns};
ghost use Rattle.msi_database_schema.specs.Description.{have_short_lengths};
ghost use Rattle.msi_database_schema.specs.Keys.{is_table_name as is_name_of_table};
ghost use Rattle.msi_database_changes.specs.Create.{column_refusals, columns_are_named, is_binary, is_too_long};
ghost use Rattle.msi_database_changes.specs.Create.{new_table_refusals};
ghost use Rattle.msi_database_changes.specs.AddColumn.{new_column_refusals};

use crate::reasons;
use msi_base::errors::{Error, ErrorKind, Reason};
use msi_base::text::{Items, Text};
use msi_categories::category::Category;
use msi_database_schema::names::is_table_name;
use msi_table_cells::cell::ValueRef;
use msi_table_values::column::{Column, ColumnType};
use msi_table_values::value::Value;
use std::marker::Model;

/// The most columns that a table may be created with.
const MOST_COLUMNS: usize = 32;

/// The most characters to which a column may limit its texts.
const MOST_CHARACTERS: usize = 255;

/// The rows of the system tables with those that describe a new table. Contracts see the rows of each.
#[derive(Drop)]
pub struct SystemRows {
    pub columns: Vec<Items<ValueRef>>,
    pub tables: Vec<Items<ValueRef>>,
    pub validation: Vec<Items<ValueRef>>,
}

impl Model for SystemRows {
    ghost use Rattle.msi_database_changes.specs.Create.{SystemRows as SystemRowsOf};

    ghost Value = { SystemRowsOf };

    ghost view = { λ r. record {
      columns = r.columns.items;
      tables = r.tables.items;
      validation = r.validation.items;
    } };
}

fn is_name_of(name: &str, columns: &[Column]) -> bool
    ensures { result ≡ list_any (λ c. bytes_eq name.now c.name) columns.now }
{
    columns.iter().any(|column| name == column.name())
}

fn repeats_name(columns: &[Column]) -> bool
    ensures { result ≡ has_pair (λ c d. bytes_eq c.name d.name) columns.now }
{
    match columns {
        [] => false,
        [first, others @ ..] => is_name_of(first.name(), others) || repeats_name(others),
    }
}

fn has_identifiers(columns: &[Column]) -> bool
    ensures { result ≡ list_all (λ c. is_identifier c.name) columns.now }
{
    columns
        .iter()
        .all(|column| Category::Identifier.validate(column.name()))
}

fn are_named(columns: &[Column]) -> bool
    ensures { result ≡ columns_are_named columns.now }
{
    has_identifiers(columns) && !repeats_name(columns)
}

fn has_key(columns: &[Column]) -> bool
    ensures { result ≡ list_any (λ c. c.is_primary_key) columns.now }
{
    columns.iter().any(Column::is_primary_key)
}

/// Returns whether a column limits its texts to a number of characters that its type's bits don't hold.
fn is_long(column: &Column) -> bool
    ensures { result ≡ is_too_long column.now.coltype }
{
    match column.coltype() {
        ColumnType::Str(length) => length > MOST_CHARACTERS,
        _ => false,
    }
}

fn has_long(columns: &[Column]) -> bool
    ensures { result ≡ list_any (λ c. is_too_long c.coltype) columns.now }
{
    columns.iter().any(is_long)
}

/// Returns whether a column of streams is a key or localizable, which its type's bits don't hold.
fn is_marked_binary(column: &Column) -> bool
    ensures { result ≡ (is_binary column.now.coltype && (column.now.is_primary_key || column.now.is_localizable)) }
{
    matches!(column.coltype(), ColumnType::Binary)
        && (column.is_primary_key() || column.is_localizable())
}

fn has_marked_binary(columns: &[Column]) -> bool
    ensures { result ≡ list_any (λ c. is_binary c.coltype && (c.is_primary_key || c.is_localizable)) columns.now }
{
    columns.iter().any(is_marked_binary)
}

fn has_semicolon(text: &Text) -> bool
    ensures { result ≡ list_any (λ b. b == 59) text.now }
{
    text.as_str().as_bytes().iter().any(|byte| *byte == b';')
}

/// Returns whether one of the texts that a column takes has a semicolon, which is their separator.
fn lists_semicolon(column: &Column) -> bool
    ensures { result ≡ list_any (list_any (λ b. b == 59)) column.now.enum_values }
{
    match column.enum_values() {
        Some(texts) => texts.iter().any(has_semicolon),
        None => false,
    }
}

fn has_listed_semicolon(columns: &[Column]) -> bool
    ensures { result ≡ list_any (λ c. list_any (list_any (λ b. b == 59)) c.enum_values) columns.now }
{
    columns.iter().any(lists_semicolon)
}

fn refused(reason: Reason) -> Result<(), Error>
    ensures { result ≡ Err InvalidInput }
{
    Err(Error::new(ErrorKind::InvalidInput, reason))
}

/// Refuses columns of which no table is made.
///
/// # Errors
/// Fails with `InvalidInput` if there are none or more than 32, if none is a key, if a name is no identifier or
/// repeats, if a column limits its texts to more than 255 characters, if a column of streams is a key or localizable,
/// or if a listed text has a semicolon.
pub fn refuse_columns(columns: &[Column]) -> Result<(), Error>
    ensures value { result ≡ unless_refused (column_refusals columns.now) tt }
    ensures few { OnOk result (length columns.now ≤ 32) }
    ensures short { OnOk result (AllByRecursion (λ c. HasShortLength c.coltype) columns.now) }
{
    if columns.is_empty() || columns.len() > MOST_COLUMNS {
        return refused(reasons::COLUMN_COUNT);
    }
    if !has_key(columns) {
        return refused(reasons::NO_KEY);
    }
    if !are_named(columns) {
        return refused(reasons::COLUMN_NAMES);
    }
    if has_long(columns) {
        return refused(reasons::COLUMN_LENGTH);
    }
    if has_marked_binary(columns) {
        return refused(reasons::BINARY_MARKED);
    }
    if has_listed_semicolon(columns) {
        return refused(reasons::SEMICOLON);
    }
    Ok(())
}

fn are_named_with(columns: &[Column], column: &Column) -> bool
    ensures { result ≡ columns_are_named (column.now ∷ columns.now) }
{
    let is_identifier = Category::Identifier.validate(column.name());
    let is_there = is_name_of(column.name(), columns);
    (is_identifier && has_identifiers(columns)) && !(is_there || repeats_name(columns))
}

/// Refuses a column that is no key and takes null, if a table of these columns and of it can't be made.
fn refuse_beside(columns: &[Column], column: &Column) -> Result<(), Error>
    ensures value { result ≡ unless_refused (column_refusals (column.now ∷ columns.now)) tt }
    ensures few { OnOk result (length columns.now < 32) }
    ensures short { OnOk result (HasShortLength column.now.coltype) }
{
    if columns.len() >= MOST_COLUMNS {
        return refused(reasons::COLUMN_COUNT);
    }
    if !(column.is_primary_key() || has_key(columns)) {
        return refused(reasons::NO_KEY);
    }
    if !are_named_with(columns, column) {
        return refused(reasons::COLUMN_NAMES);
    }
    if is_long(column) || has_long(columns) {
        return refused(reasons::COLUMN_LENGTH);
    }
    if is_marked_binary(column) || has_marked_binary(columns) {
        return refused(reasons::BINARY_MARKED);
    }
    if lists_semicolon(column) || has_listed_semicolon(columns) {
        return refused(reasons::SEMICOLON);
    }
    Ok(())
}

/// Refuses a column that isn't added to a table of these columns.
///
/// # Errors
/// Fails with `InvalidInput` if the column is a key or doesn't take null, as none of streams does; and for the table's
/// columns with it as `refuse_columns` does.
pub fn refuse_new_column(columns: &[Column], column: &Column) -> Result<(), Error>
    ensures value { result ≡ unless_refused (new_column_refusals columns.now column.now) tt }
    ensures few { OnOk result (length columns.now < 32) }
    ensures short { OnOk result (HasShortLength column.now.coltype) }
{
    if column.is_primary_key() || !column.is_valid_value(&Value::Null) {
        return refused(reasons::NO_NULL);
    }
    refuse_beside(columns, column)
}

/// Refuses a name and columns of which no table is made.
///
/// # Errors
/// `InvalidInput` where no table may have the name, and for columns as `refuse_columns` does.
pub fn refuse_table(name: &str, columns: &[Column]) -> Result<(), Error>
    ensures value { result ≡ unless_refused (new_table_refusals name.now columns.now) tt }
    ensures named { OnOk result (is_name_of_table name.now ≡ true) }
    ensures few { OnOk result (length columns.now ≤ most_columns) }
    ensures short { OnOk result (IsTrue (have_short_lengths columns.now)) }
{
    if !is_table_name(name) {
        return Err(Error::new(ErrorKind::InvalidInput, reasons::TABLE_NAME));
    }
    refuse_columns(columns)
}
