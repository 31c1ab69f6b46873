//! Tables from comma-separated values: a line with the names of columns, and then a line for each row.

use crate::given::{Given, GivenColumn, GivenTable};
use csv::{ReaderBuilder, StringRecord};
use msi_base::Error;
use msi_exchange::csv_value;
use msi_table::{ColumnType, Value};
use msipkg_format::Failure;
use std::alloc::{AllocError, Global};

/// How long the texts of a key are at most, where the table is created.
const KEY_LENGTH: usize = 255;

/// Adds the table of a text. If it is created, the first column is the key, columns with numbers alone hold numbers and
/// the others texts, and one with an empty field takes null. Fails if a line hasn't as many fields as the first.
pub(crate) fn read_csv(
    alloc: Global,
    path: &str,
    name: &str,
    bytes: &[u8],
    given: &mut Given,
) -> Result<(), Failure> {
    let mut table = GivenTable::new(alloc, path, name)?;
    read_records(alloc, bytes, &mut table)?;
    if table.columns.is_empty() {
        return Err(Failure::rule("its first line names no columns"));
    }
    describe_columns(&mut table);
    Ok(given.tables.push(table)?)
}

fn read_records(alloc: Global, bytes: &[u8], table: &mut GivenTable) -> Result<(), Failure> {
    let mut reader = ReaderBuilder::new()
        .has_headers(false)
        .flexible(true)
        .from_reader(alloc, bytes);
    let mut record = StringRecord::new(alloc);
    for _ in 0..u64::MAX {
        match reader.read_record(&mut record) {
            Ok(true) => add_record(alloc, &record, table)?,
            Ok(false) => break,
            Err(error) => return Err(Failure::shown(alloc, &error)),
        }
    }
    Ok(())
}

fn add_record(alloc: Global, record: &StringRecord, table: &mut GivenTable) -> Result<(), Failure> {
    if table.columns.is_empty() {
        return Ok(add_columns(alloc, record, &mut table.columns)?);
    }
    let row = row_of(alloc, record)?;
    table.add_row(alloc, row)
}

fn add_columns(
    alloc: Global,
    names: &StringRecord,
    columns: &mut Vec<GivenColumn>,
) -> Result<(), AllocError> {
    for name in names.iter() {
        columns.push(GivenColumn::new(alloc, name, ColumnType::Int32)?)?;
    }
    Ok(())
}

/// Returns the values of a record: texts and nulls, since the type of a column is known later.
fn row_of(alloc: Global, record: &StringRecord) -> Result<Vec<Value>, Error> {
    let mut row = Vec::with_capacity(alloc, record.len())?;
    for field in record.iter() {
        row.push(csv_value(alloc, ColumnType::Str(0), field)?)?;
    }
    Ok(row)
}

fn describe_columns(table: &mut GivenTable) {
    for i in 0..table.columns.len() {
        let rows = table.rows.as_slice();
        let coltype = type_of(rows, i);
        let is_nullable = i > 0 && rows.iter().any(|row| text_at(row.as_slice(), i).is_empty());
        if let Some(column) = table.columns.get_mut(i) {
            column.coltype = coltype;
            column.is_nullable = is_nullable;
            column.is_key = i == 0;
        }
    }
}

fn type_of(rows: &[Vec<Value>], place: usize) -> ColumnType {
    let mut texts = rows
        .iter()
        .map(|row| text_at(row.as_slice(), place))
        .filter(|text| !text.is_empty());
    match texts.next() {
        Some(first) if is_number(first) && texts.all(is_number) => ColumnType::Int32,
        _ => ColumnType::Str(if place == 0 { KEY_LENGTH } else { 0 }),
    }
}

fn text_at(row: &[Value], place: usize) -> &str {
    match row.get(place) {
        Some(Value::Str(text)) => text.as_str(),
        _ => "",
    }
}

/// Returns whether a text is a number of 32 bits as it prints. One with zeros in front, say, is no number.
fn is_number(text: &str) -> bool {
    let digits = text.strip_prefix('-').unwrap_or(text);
    let is_plain = text == "0" || digits.starts_with(|c: char| matches!(c, '1'..='9'));
    is_plain && text.parse::<i32>().is_ok()
}
