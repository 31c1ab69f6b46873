//! Which archives have a text.

ghost use Rattle.std.specs.Prelude.{◌≡◌, ◌≤◌, ◌+◌, length};
ghost use Rattle.std.specs.List.{list_all};
ghost use Rattle.msi_table_values.specs.declared.value.Value.TheVariants as value_of;
ghost use Rattle.msi_exchange.specs.Places.{Placed, first_wrong, first_wrong_pair};
ghost use Rattle.msi_exchange.specs.Writing.{Checks, can_write, has_column_fields};
ghost use Rattle.msi_exchange.specs.Writing.{has_field as has_field_of};
ghost use Rattle.msi_exchange.specs.Writing.{has_key_fields, has_row_fields, has_row_line, has_table_field};
ghost use Rattle.msi_exchange.specs.Writing.{has_value_field as has_value_field_of, has_width as has_width_of};
ghost use Rattle.msi_exchange.specs.Writing.{is_number_type as is_number_type_of};
ghost use Rattle.msi_exchange.specs.WrongPlaces.{archive_unwritable, column_unwritable, key_unwritable};
ghost use Rattle.msi_exchange.specs.WrongPlaces.{keys_unwritable, row_unwritable, value_unwritable};

use crate::archive::{Archive, ArchiveColumn};
use crate::characters::has_stand_in;
use crate::errors::{ArchiveError, Place, check, uneven};
use crate::keys::table_field;
use crate::reasons;
use crate::type_fields::u16_of;
use msi_base::errors::ErrorKind;
use msi_base::text::{Items, Text};
use msi_table_values::column::ColumnType;
use msi_table_values::value::Value;

fn has_field(text: &str) -> bool
    ensures { result ≡ has_field_of text.now }
{
    !text.is_empty() && !has_stand_in(text)
}

fn is_number_type(coltype: ColumnType) -> bool
    ensures { result ≡ is_number_type_of coltype }
{
    matches!(coltype, ColumnType::Int16 | ColumnType::Int32)
}

/// Whether a number, which always has 32 bits, has a field in a column of a type.
fn has_number_field(coltype: ColumnType, number: i32) -> bool
    ensures { result ≡ has_value_field_of coltype (value_of.Int number) }
{
    let _of_32_bits = number;
    is_number_type(coltype)
}

fn has_value_field(coltype: ColumnType, value: &Value) -> bool
    ensures { result ≡ has_value_field_of coltype value.now }
{
    match value {
        Value::Null => true,
        Value::Int(number) => has_number_field(coltype, *number),
        Value::Str(text) => !is_number_type(coltype) && has_field(text.as_str()),
        Value::Binary => false,
    }
}

/// Whether a type has a field: its width is below 2^16, and texts alone can be localized.
fn has_width(coltype: ColumnType, is_localizable: bool) -> bool
    ensures { result ≡ has_width_of coltype is_localizable }
{
    match coltype {
        ColumnType::Str(width) => width < 0x1_0000,
        _ => !is_localizable,
    }
}

/// Whether a table's name has a field. Without a page in front, a name that is read as a page has none.
fn is_writable_table(page: Option<u16>, table: &str) -> bool
    ensures { result ≡ has_table_field page table.now }
{
    has_field(table) && (page.is_some() || u16_of(table).is_none())
}

fn check_column(number: usize, column: &ArchiveColumn) -> Result<(), ArchiveError>
    ensures kind { Checks result (has_column_fields column.now) }
    ensures place { Placed result (column_unwritable number column.now) }
{
    let first = Place {
        line: 1,
        field: number,
    };
    check(has_field(column.name()), first, reasons::TEXT_UNWRITABLE)?;
    let second = Place {
        line: 2,
        field: number,
    };
    check(
        has_width(column.coltype(), column.is_localizable()),
        second,
        reasons::TYPE_UNWRITABLE,
    )
}

fn check_columns(columns: &[ArchiveColumn]) -> Result<(), ArchiveError>
    ensures kind { Checks result (list_all has_column_fields columns.now) }
    ensures place { Placed result (first_wrong column_unwritable 1 columns.now) }
{
    for i in 0..columns.len() {
        check_column(i + 1, &columns[i])?;
    }
    Ok(())
}

/// Refuses names of key columns of which one has no field. They are behind `before` others.
fn check_names(before: usize, names: &[Text]) -> Result<(), ArchiveError>
    requires { before ≤ 2 }
    ensures kind { Checks result (list_all has_field_of names.now) }
    ensures place { Placed result (first_wrong key_unwritable (before + 1) names.now) }
{
    for i in 0..names.len() {
        let place = Place {
            line: 3,
            field: before + i + 1,
        };
        check(
            has_field(names[i].as_str()),
            place,
            reasons::TEXT_UNWRITABLE,
        )?;
    }
    Ok(())
}

fn check_keys(archive: &Archive) -> Result<(), ArchiveError>
    ensures kind { Checks result (has_key_fields archive.now.head) }
    ensures place { Placed result (keys_unwritable archive.now.head) }
{
    let page = archive.page();
    let field = table_field(page);
    check(
        is_writable_table(page, archive.table()),
        Place { line: 3, field },
        reasons::TABLE_UNWRITABLE,
    )?;
    check_names(field, archive.keys())
}

fn check_values(line: usize, columns: &[ArchiveColumn], row: &[Value]) -> Result<(), ArchiveError>
    requires { length columns.now ≡ length row.now }
    ensures kind { Checks result (has_row_fields columns.now row.now) }
    ensures place { Placed result (first_wrong_pair (value_unwritable line) 1 columns.now row.now) }
{
    for i in 0..row.len() {
        let place = Place { line, field: i + 1 };
        check(
            has_value_field(columns[i].coltype(), &row[i]),
            place,
            reasons::VALUE_UNWRITABLE,
        )?;
    }
    Ok(())
}

/// Refuses a row whose line hasn't a value with a field for each column, or where there is no column.
pub(crate) fn check_row(
    line: usize,
    columns: &[ArchiveColumn],
    row: &[Value],
) -> Result<(), ArchiveError>
    ensures kind { Checks result (has_row_line columns.now row.now) }
    ensures place { Placed result (row_unwritable columns.now line row.now) }
{
    if columns.len() != row.len() {
        let place = uneven(line, columns.len(), row.len());
        return Err(ArchiveError::new(place, ErrorKind::InvalidInput, reasons::VALUES_OTHER));
    }
    check(
        !columns.is_empty(),
        Place { line, field: 1 },
        reasons::VALUES_OTHER,
    )?;
    check_values(line, columns, row)
}

fn check_rows(columns: &[ArchiveColumn], rows: &[Items<Value>]) -> Result<(), ArchiveError>
    ensures kind { Checks result (list_all (has_row_line columns.now) rows.now) }
    ensures place { Placed result (first_wrong (row_unwritable columns.now) 4 rows.now) }
{
    for i in 0..rows.len() {
        check_row(i + 4, columns, rows[i].as_slice())?;
    }
    Ok(())
}

/// Refuses an archive that has no text, at a place that has no field in the text that would be written.
pub(crate) fn check_archive(archive: &Archive) -> Result<(), ArchiveError>
    ensures kind { Checks result (can_write archive.now) }
    ensures place { Placed result (archive_unwritable archive.now) }
{
    check_columns(archive.columns())?;
    check_keys(archive)?;
    check_rows(archive.columns(), archive.rows())
}
