//! A column from its row of `_Columns` and its row of `_Validation` (MSI SDK, "_Columns table" and "_Validation
//! table").

ghost use Rattle.std.specs.Prelude.{◌≡◌, ◌≤◌, [], IfOk, Some, bytes_eq, codes, false, if◌then◌else◌, length};
ghost use Rattle.std.specs.Prelude.{option_and_then, option_map, true};
ghost use Rattle.std.specs.Option.{option_map_or};
ghost use Rattle.std.specs.List.Sorted.{IsSorted};
ghost use Rattle.msi_base.specs.Results.{Gives, OnlyMemory};
ghost use Rattle.msi_base.specs.declared.errors.ErrorKind.TheVariants.{InvalidData};
ghost use Rattle.msi_table_values.specs.Columns.{begun_column, most_columns};
ghost use Rattle.msi_database_schema.specs.RowOrders.{by_numbers, by_texts, describing};
ghost use Rattle.msi_database_schema.specs.Schema.{bits_in as bits_of_row, both_set, category_named};
ghost use Rattle.msi_database_schema.specs.Schema.{column_of_row as column_described, columns_of, described};
ghost use Rattle.msi_database_schema.specs.Schema.{has_long_number, is_of_16_bits, number_of, numbered_row};
ghost use Rattle.msi_database_schema.specs.Schema.{text_at as text_in, text_of, validation_row, value_at, values_in};
ghost use Rattle.msi_database_schema.specs.System.{is_schema_table};

use crate::orders::{count_about, find_by_number, find_by_texts};
use crate::reasons;
use crate::rows::{SchemaRow, is_null_at, number_at, shared_text_at, shared_values_at, text_at};
use crate::system::{
    CATEGORY, COLUMN_NAME, COLUMN_TYPE, KEY_COLUMN, KEY_TABLE, MAX_VALUE, MIN_VALUE, NULLABLE, SET,
};
use msi_base::errors::{Error, ErrorKind};
use msi_base::shared_text::SharedText;
use msi_base::text::Items;
use msi_categories::category::Category;
use msi_table::table::MAX_COLUMNS;
use msi_table_values::column::{Column, ColumnBuilder};
use msi_table_values::parts::{column_of_bits, with_shared_values};
use std::alloc::Global;

fn with_nullable(builder: ColumnBuilder, row: &SchemaRow) -> ColumnBuilder
    ensures { result ≡ (if bytes_eq (text_in 2 row.now) (codes "Y") then record builder { is_nullable = true }
        else builder) }
{
    if text_at(row, NULLABLE) == "Y" {
        builder.nullable()
    } else {
        builder
    }
}

fn with_range(builder: ColumnBuilder, row: &SchemaRow) -> ColumnBuilder
    ensures { result ≡ option_map_or (λ range. record builder { value_range = Some range })
        (both_set number_of number_of (value_at 3 row.now) (value_at 4 row.now)) builder }
{
    if is_null_at(row, MIN_VALUE) || is_null_at(row, MAX_VALUE) {
        builder
    } else {
        builder.range(number_at(row, MIN_VALUE), number_at(row, MAX_VALUE))
    }
}

fn with_foreign_key(
    alloc: Global,
    builder: ColumnBuilder,
    row: &SchemaRow,
) -> Result<ColumnBuilder, Error>
    ensures ok { IfOk result (λ referring. referring ≡ option_map_or (λ key. record builder { foreign_key = Some key })
        (both_set text_of number_of (value_at 5 row.now) (value_at 6 row.now)) builder) }
    ensures kind { OnlyMemory result }
{
    if is_null_at(row, KEY_TABLE) || is_null_at(row, KEY_COLUMN) {
        return Ok(builder);
    }
    builder.foreign_key(
        shared_text_at(alloc, row, KEY_TABLE)?,
        number_at(row, KEY_COLUMN),
    )
}

fn with_category(builder: ColumnBuilder, row: &SchemaRow) -> ColumnBuilder
    ensures { result ≡ option_map_or (λ category. record builder { category = Some category })
        (category_named (text_in 7 row.now)) builder }
{
    match text_at(row, CATEGORY).parse::<Category>() {
        Ok(category) => builder.category(category),
        Err(_) => builder,
    }
}

fn with_values(builder: ColumnBuilder, row: &SchemaRow) -> Result<ColumnBuilder, Error>
    ensures ok { IfOk result (λ listing. listing ≡ record builder { enum_values = values_in (value_at 8 row.now) }) }
    ensures kind { OnlyMemory result }
{
    Ok(with_shared_values(builder, shared_values_at(row, SET)?))
}

fn described_column(
    alloc: Global,
    name: SharedText,
    row: &SchemaRow,
) -> Result<ColumnBuilder, Error>
    ensures ok { IfOk result (λ builder. builder ≡ described (Some row.now) (begun_column name)) }
    ensures kind { OnlyMemory result }
{
    let builder = with_nullable(Column::build(alloc, name)?, row);
    let builder = with_category(with_range(builder, row), row);
    let builder = with_foreign_key(alloc, builder, row)?;
    with_values(builder, row)
}

/// Returns the bits of a column's type from its row of `_Columns`, where negative numbers mean those from 32768 on.
fn bits_in(row: &SchemaRow) -> u16
    requires { is_of_16_bits (number_of (value_at 3 row.now)) ≡ true }
    ensures { result ≡ bits_of_row row.now }
{
    (number_at(row, COLUMN_TYPE) as i16).cast_unsigned()
}

/// The rows of `_Validation` have to be in the order of their tables and columns.
fn begun_column_of(
    alloc: Global,
    validation: &[SchemaRow],
    table: &str,
    name: SharedText,
) -> Result<ColumnBuilder, Error>
    requires { IsSorted (by_texts 1) validation.now }
    ensures ok { let about = validation_row (describing [] validation.now) table.now name in
        IfOk result (λ builder. builder ≡ described about (begun_column name)) }
    ensures kind { OnlyMemory result }
{
    match find_by_texts(validation, 1, table, name.as_str()) {
        Some(about) => described_column(alloc, name, about),
        None => Column::build(alloc, name),
    }
}

/// Returns the error for columns whose numbers aren't 1 to n.
fn misnumbered() -> Error
    ensures { result ≡ InvalidData }
{
    Error::new(ErrorKind::InvalidData, reasons::COLUMN_NUMBERS)
}

/// The rows of `_Validation` have to be in the order of their tables and columns; one about the column is used if it
/// exists. Fails with `InvalidData` where the bits name no type.
fn column_of_row(
    alloc: Global,
    validation: &[SchemaRow],
    table: &str,
    row: &SchemaRow,
) -> Result<Column, Error>
    requires by_name { IsSorted (by_texts 1) validation.now }
    requires short { is_of_16_bits (number_of (value_at 3 row.now)) ≡ true }
    ensures { let s = describing [] validation.now in Gives
        (λ column. column) result (column_described s table.now row.now) }
{
    let name = shared_text_at(alloc, row, COLUMN_NAME)?;
    let builder = begun_column_of(alloc, validation, table, name)?;
    column_of_bits(builder, bits_in(row))
}

/// The rows of `_Columns` have to be in the order of their tables and numbers, those of `_Validation` in the order of
/// their tables and columns. Fails with `InvalidData` where no row has the number, and where its bits name no type.
fn numbered_column(
    alloc: Global,
    columns: &[SchemaRow],
    validation: &[SchemaRow],
    table: &str,
    number: u16,
) -> Result<Column, Error>
    requires by_number { IsSorted by_numbers columns.now }
    requires by_name { IsSorted (by_texts 1) validation.now }
    requires short { has_long_number columns.now ≡ false }
    requires plain { is_schema_table table.now ≡ false }
    ensures { let s = describing columns.now validation.now in Gives (λ column. column) result
        (option_and_then (column_described s table.now) (numbered_row s table.now number)) }
{
    match find_by_number(columns, table, number) {
        Some(row) => column_of_row(alloc, validation, table, row),
        None => Err(misnumbered()),
    }
}

/// Serves tables other than `_Tables` and `_Columns`. The rows of `_Columns` have to be sorted by table and number,
/// those of `_Validation` by table and column. Fails with `InvalidData` where the numbers aren't 1 to n, n at least 1,
/// and where a row's bits name no type.
pub(crate) fn columns_of_table(
    alloc: Global,
    columns: &[SchemaRow],
    validation: &[SchemaRow],
    table: &str,
) -> Result<Items<Column>, Error>
    requires by_number { IsSorted by_numbers columns.now }
    requires by_name { IsSorted (by_texts 1) validation.now }
    requires short { has_long_number columns.now ≡ false }
    requires plain { is_schema_table table.now ≡ false }
    ensures gives { Gives (λ read. read) result (columns_of (describing columns.now validation.now) table.now) }
    ensures few { IfOk result (λ read. length read ≤ most_columns) }
{
    let count = count_about(columns, table);
    if count == 0 {
        return Err(misnumbered());
    }
    if count > MAX_COLUMNS {
        return Err(misnumbered());
    }
    let mut read = Vec::new(alloc);
    for i in 0..count {
        read.push(numbered_column(alloc, columns, validation, table, i as u16 + 1)?)?;
    }
    Ok(Items::from_vec(read))
}
