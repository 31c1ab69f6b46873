//! Whether the rows of the system tables break a rule.

ghost use Rattle.std.specs.Prelude.{◌≡◌, ◌≤◌, ◌+◌, ◌&&◌, ◌||◌, [], IfOk, bytes_eq, not};
ghost use Rattle.std.specs.List.{list_any};
ghost use Rattle.std.specs.List.Sorted.{IsSorted};
ghost use Rattle.msi_base.specs.Lists.{has_pair};
ghost use Rattle.msi_base.specs.Results.{OnlyMemory};
ghost use Rattle.msi_database_schema.specs.Keys.{is_pool_name as is_of_pool_name};
ghost use Rattle.msi_database_schema.specs.RowOrders.{by_texts, has_faulty_row, listing, rows_of, shares_key};
ghost use Rattle.msi_database_schema.specs.Schema.{counted, describes_column as is_described};
ghost use Rattle.msi_database_schema.specs.Schema.{has_long_number as has_long, has_odd_name as has_odd};
ghost use Rattle.msi_database_schema.specs.Schema.{has_null as has_one_null, is_faulty as breaks_rule};
ghost use Rattle.msi_database_schema.specs.Schema.{is_of_16_bits as fits_16_bits, lacks_value as lacks_one};
ghost use Rattle.msi_database_schema.specs.Schema.{listed_names, number_of, share_key, text_at as text_in, value_at};
ghost use Rattle.msi_table_values.specs.Values.{is_text};
ghost use Rattle.msi_database_schema.specs.System.{is_schema_table as is_of_schema};

use crate::names::is_pool_name;
use crate::orders::{find_by_texts, has_repeat, sort_by_texts};
use crate::rows::{SchemaRow, holds_null, is_null_at, is_text_at, number_at, text_at};
use crate::system::{COLUMN_NAME, COLUMN_NUMBER, COLUMN_TYPE, NULLABLE, is_schema_table};
use msi_base::errors::Error;

fn is_of_16_bits(number: i32) -> bool
    ensures { result ≡ fits_16_bits number }
{
    -32768 <= number && number <= 32767
}

/// Returns whether a row of `_Columns` has a number that no cell of 16 bits holds.
fn is_long(row: &SchemaRow) -> bool
    ensures { result ≡ not (fits_16_bits (number_of (value_at 1 row.now))
        && fits_16_bits (number_of (value_at 3 row.now))) }
{
    !(is_of_16_bits(number_at(row, COLUMN_NUMBER)) && is_of_16_bits(number_at(row, COLUMN_TYPE)))
}

fn has_long_number(rows: &[SchemaRow]) -> bool
    ensures { result ≡ has_long rows.now }
{
    rows.iter().any(is_long)
}

/// Returns whether a row of `_Tables` has no text for a name.
fn is_odd(row: &SchemaRow) -> bool
    ensures { result ≡ not (is_text (value_at 0 row.now)) }
{
    !is_text_at(row, 0)
}

fn has_odd_name(rows: &[SchemaRow]) -> bool
    ensures { result ≡ has_odd rows.now }
{
    rows.iter().any(is_odd)
}

/// Returns whether rows of `_Tables` and `_Columns` have values that can't come from cells.
pub(crate) fn has_odd_value(tables: &[SchemaRow], columns: &[SchemaRow]) -> bool
    ensures { result ≡ (has_odd tables.now || has_long columns.now) }
{
    has_odd_name(tables) || has_long_number(columns)
}

fn has_null(rows: &[SchemaRow]) -> bool
    ensures { result ≡ has_one_null rows.now }
{
    rows.iter().any(holds_null)
}

/// Returns whether a row is about neither `_Tables` nor `_Columns`.
pub(crate) fn is_counted(row: &SchemaRow) -> bool
    ensures { result ≡ not (is_of_schema (text_in 0 row.now)) }
{
    !is_schema_table(text_at(row, 0))
}

/// Returns whether a row of `_Tables` lists a stream of the string pool.
fn is_of_pool(row: &SchemaRow) -> bool
    ensures { result ≡ (not (is_of_schema (text_in 0 row.now)) && is_of_pool_name (text_in 0 row.now)) }
{
    is_counted(row) && is_pool_name(text_at(row, 0))
}

fn lists_pool(tables: &[SchemaRow]) -> bool
    ensures { result ≡ list_any
        (λ row. not (is_of_schema (text_in 0 row)) && is_of_pool_name (text_in 0 row)) tables.now }
{
    tables.iter().any(is_of_pool)
}

/// Returns whether a row of `_Columns` is about a table that isn't listed; the rows of `_Tables` have to be in the
/// order of their names.
fn is_unlisted(tables: &[SchemaRow], row: &SchemaRow) -> bool
    requires { IsSorted (by_texts 0) tables.now }
    ensures { result ≡ (not (is_of_schema (text_in 0 row.now))
        && not (list_any (bytes_eq (text_in 0 row.now)) (listed_names (listing tables.now [])))) }
{
    let table = text_at(row, 0);
    is_counted(row) && find_by_texts(tables, 0, table, table).is_none()
}

fn has_unlisted(tables: &[SchemaRow], columns: &[SchemaRow]) -> bool
    requires { IsSorted (by_texts 0) tables.now }
    ensures { result ≡ list_any (λ row. not (is_of_schema (text_in 0 row))
        && not (list_any (bytes_eq (text_in 0 row)) (listed_names (listing tables.now [])))) columns.now }
{
    columns.iter().any(|row| is_unlisted(tables, row))
}

/// Returns whether a row of `_Validation` is about a column that `_Columns` describes; the rows of `_Columns` have to
/// be in the order of their tables and names.
fn describes_column(columns: &[SchemaRow], row: &SchemaRow) -> bool
    requires { IsSorted (by_texts 2) columns.now }
    ensures { result ≡ is_described (listing [] columns.now) row.now }
{
    is_counted(row)
        && find_by_texts(columns, COLUMN_NAME, text_at(row, 0), text_at(row, 1)).is_some()
}

/// Returns whether a row of `_Validation` lacks a value that it needs; the rows of `_Columns` have to be in the order
/// of their tables and names.
fn lacks_value(columns: &[SchemaRow], row: &SchemaRow) -> bool
    requires { IsSorted (by_texts 2) columns.now }
    ensures { result ≡ lacks_one (listing [] columns.now) row.now }
{
    is_null_at(row, 0)
        || is_null_at(row, 1)
        || (describes_column(columns, row) && is_null_at(row, NULLABLE))
}

fn has_lack(columns: &[SchemaRow], validation: &[SchemaRow]) -> bool
    requires { IsSorted (by_texts 2) columns.now }
    ensures { result ≡ list_any (lacks_one (listing [] columns.now)) validation.now }
{
    validation.iter().any(|row| lacks_value(columns, row))
}

fn repeats_counted(rows: Vec<SchemaRow>, place: usize) -> Result<bool, Error>
    requires { place ≤ 1 }
    ensures ok { IfOk result (λ found. found ≡ has_pair (share_key (place + 1)) (counted rows.entry.items)) }
    ensures kind { OnlyMemory result }
{
    let mut rows = rows;
    rows.retain(is_counted);
    has_repeat(rows, place)
}

/// Checks the rules that each row decides alone: the rows of `_Tables` have to be in the order of their names, those of
/// `_Columns` in the order of their tables and names.
fn has_fault_in_row(tables: &[SchemaRow], columns: &[SchemaRow], validation: &[SchemaRow]) -> bool
    requires by_name { IsSorted (by_texts 0) tables.now }
    requires by_column { IsSorted (by_texts 2) columns.now }
    ensures { let s = rows_of tables.now columns.now validation.now in result ≡ has_faulty_row s }
{
    has_null(tables)
        || has_null(columns)
        || has_lack(columns, validation)
        || lists_pool(tables)
        || has_unlisted(tables, columns)
}

fn has_shared_key(
    tables: Vec<SchemaRow>,
    columns: Vec<SchemaRow>,
    validation: Vec<SchemaRow>,
) -> Result<bool, Error>
    ensures ok { let s = rows_of tables.entry.items columns.entry.items validation.entry.items in IfOk result
        (λ found. found ≡ shares_key s) }
    ensures kind { OnlyMemory result }
{
    if repeats_counted(tables, 0)? {
        return Ok(true);
    }
    if repeats_counted(columns, 1)? {
        return Ok(true);
    }
    has_repeat(validation, 1)
}

/// The order of the rows doesn't matter.
pub(crate) fn is_faulty(
    tables: Vec<SchemaRow>,
    columns: Vec<SchemaRow>,
    validation: Vec<SchemaRow>,
) -> Result<bool, Error>
    ensures ok { let s = rows_of tables.entry.items columns.entry.items validation.entry.items in IfOk result
        (λ found. found ≡ breaks_rule s) }
    ensures kind { OnlyMemory result }
{
    let mut tables = tables;
    let mut columns = columns;
    sort_by_texts(&mut tables, 0)?;
    sort_by_texts(&mut columns, COLUMN_NAME)?;
    if has_fault_in_row(tables.as_slice(), columns.as_slice(), validation.as_slice()) {
        return Ok(true);
    }
    has_shared_key(tables, columns, validation)
}
