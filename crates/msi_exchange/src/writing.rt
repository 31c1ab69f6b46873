//! Writing an archive as its text.

ghost use Rattle.std.specs.Prelude.{◌≡◌, ◌++◌, ◌∷◌, [], IfOk, IfErr, OnErr, OnOk, if◌then◌else◌};
ghost use Rattle.std.specs.Prelude.{length, map, string_bytes, take, true};
ghost use Rattle.std.specs.List.{flat_map};
ghost use Rattle.msi_base.specs.declared.errors.ErrorKind.TheVariants.{InvalidInput, OutOfMemory};
ghost use Rattle.msi_exchange.specs.Places.{IsAt};
ghost use Rattle.msi_exchange.specs.TextArchives.{Means};
ghost use Rattle.msi_exchange.specs.Writing.{archive_text, can_write, key_fields, line_of, name_fields};
ghost use Rattle.msi_exchange.specs.Writing.{has_row_line, page_front, row_line, type_fields};
ghost use Rattle.msi_exchange.specs.Writing.{type_field as type_field_of};
ghost use Rattle.msi_exchange.specs.Writing.{type_letter as type_letter_of, type_width as type_width_of};
ghost use Rattle.msi_exchange.specs.Writing.{value_field as value_field_of};
ghost use Rattle.msi_exchange.specs.WrongPlaces.{archive_unwritable, row_unwritable};

use crate::archive::{Archive, ArchiveColumn};
use crate::characters::push_swapped;
use crate::errors::ArchiveError;
use crate::writable::{check_archive, check_row};
use itoa::Buffer;
use msi_base::text::Items;
use msi_table_values::column::ColumnType;
use msi_table_values::value::Value;
use std::alloc::{AllocError, Global};

fn push_value(text: &mut String, value: &Value) -> Result<(), AllocError>
    ensures ok { OnOk result (string_bytes text.new ≡ string_bytes text.old ++ value_field_of value.now) }
    ensures begins { take (length (string_bytes text.old)) (string_bytes text.new) ≡ string_bytes text.old }
{
    match value {
        Value::Int(number) => {
            let mut digits = Buffer::new();
            text.push_str(digits.format(*number))
        }
        Value::Str(plain) => push_swapped(text, plain.as_str()),
        Value::Null | Value::Binary => Ok(()),
    }
}

fn type_letter(coltype: ColumnType, is_localizable: bool) -> char
    ensures { result ≡ type_letter_of coltype is_localizable }
{
    match coltype {
        ColumnType::Str(_) => { if is_localizable { 'l' } else { 's' } }
        ColumnType::Binary => 'v',
        ColumnType::Int16 | ColumnType::Int32 => 'i',
    }
}

fn type_width(coltype: ColumnType) -> usize
    ensures { result ≡ type_width_of coltype }
{
    match coltype {
        ColumnType::Int16 => 2,
        ColumnType::Int32 => 4,
        ColumnType::Str(width) => width,
        ColumnType::Binary => 0,
    }
}

fn push_type(text: &mut String, column: &ArchiveColumn) -> Result<(), AllocError>
    ensures { OnOk result (string_bytes text.new ≡ string_bytes text.old ++ type_field_of column.now.field_type) }
{
    let letter = type_letter(column.coltype(), column.is_localizable());
    text.push(if column.is_nullable() {
        letter.to_ascii_uppercase()
    } else {
        letter
    })?;
    write!(text, "{}", type_width(column.coltype()))
}

fn push_names(text: &mut String, columns: &[ArchiveColumn]) -> Result<(), AllocError>
    ensures { OnOk result (string_bytes text.new ≡ string_bytes text.old ++ line_of (name_fields columns.now)) }
{
    let Some((first, others)) = columns.split_first() else {
        return text.push_str("\r\n");
    };
    push_swapped(text, first.name())?;
    for column in others {
        text.push('\t')?;
        push_swapped(text, column.name())?;
    }
    text.push_str("\r\n")
}

fn push_types(text: &mut String, columns: &[ArchiveColumn]) -> Result<(), AllocError>
    ensures { OnOk result (string_bytes text.new ≡ string_bytes text.old ++ line_of (type_fields columns.now)) }
{
    let Some((first, others)) = columns.split_first() else {
        return text.push_str("\r\n");
    };
    push_type(text, first)?;
    for column in others {
        text.push('\t')?;
        push_type(text, column)?;
    }
    text.push_str("\r\n")
}

fn push_page(text: &mut String, page: Option<u16>) -> Result<(), AllocError>
    ensures { OnOk result (string_bytes text.new ≡ string_bytes text.old ++ page_front page) }
{
    if let Some(number) = page {
        write!(text, "{number}")?;
        text.push('\t')?;
    }
    Ok(())
}

fn push_keys(text: &mut String, archive: &Archive) -> Result<(), AllocError>
    ensures { OnOk result (string_bytes text.new ≡ string_bytes text.old ++ line_of (key_fields archive.now.head)) }
{
    push_page(text, archive.page())?;
    push_swapped(text, archive.table())?;
    for key in archive.keys() {
        text.push('\t')?;
        push_swapped(text, key.as_str())?;
    }
    text.push_str("\r\n")
}

fn push_fields(text: &mut String, row: &[Value]) -> Result<(), AllocError>
    ensures ok { OnOk result (string_bytes text.new ≡ string_bytes text.old ++ row_line row.now) }
    ensures begins { take (length (string_bytes text.old)) (string_bytes text.new) ≡ string_bytes text.old }
{
    let Some((first, others)) = row.split_first() else {
        return text.push_str("\r\n");
    };
    push_value(text, first)?;
    for value in others {
        text.push('\t')?;
        push_value(text, value)?;
    }
    text.push_str("\r\n")
}

/// Appends the line of a row. If memory is refused, the text stays as it was.
fn push_row(text: &mut String, row: &[Value]) -> Result<(), AllocError>
    ensures ok { OnOk result (string_bytes text.new ≡ string_bytes text.old ++ row_line row.now) }
    ensures same { OnErr result (string_bytes text.new ≡ string_bytes text.old) }
{
    let held = text.len();
    let pushed = push_fields(text, row);
    if pushed.is_err() {
        text.truncate(held);
    }
    pushed
}

fn push_rows(text: &mut String, rows: &[Items<Value>]) -> Result<(), AllocError>
    ensures { OnOk result (string_bytes text.new ≡ string_bytes text.old ++ flat_map row_line rows.now) }
{
    for row in rows {
        push_row(text, row.as_slice())?;
    }
    Ok(())
}

fn text_of_archive(alloc: Global, archive: &Archive) -> Result<String, AllocError>
    ensures { IfOk result (λ text. string_bytes text ≡ archive_text archive.now) }
{
    let mut text = String::new(alloc);
    push_names(&mut text, archive.columns())?;
    push_types(&mut text, archive.columns())?;
    push_keys(&mut text, archive)?;
    push_rows(&mut text, archive.rows())?;
    Ok(text)
}

/// Returns the text of an archive: its lines end in a carriage return and a line feed. It is encoded in the page that
/// the archive names before it is stored as a file.
///
/// # Errors
/// Fails with `InvalidInput` if no text means the archive: a name or a text is empty or has one of the characters that
/// stand for control characters; a value isn't of its column's type, or there isn't one for each column; a width is
/// 2^16 or more, or a column is localizable that isn't of texts; or the table's name would be read as a code page. The
/// error has the first place in the text whose field can't be written: of the columns in turn, then of the third line,
/// then of the rows. Otherwise it fails with `OutOfMemory`, at no place.
pub fn write(alloc: Global, archive: &Archive) -> Result<String, ArchiveError>
    ensures ok { IfOk result (λ text. string_bytes text ≡ archive_text archive.now) }
    ensures reads_back { IfOk result (λ text. Means (string_bytes text) archive.now) }
    ensures kind { IfErr result (λ e. e.kind ≡ (if can_write archive.now then OutOfMemory else InvalidInput)) }
    ensures place { IfErr result (λ e. IsAt e.place e.kind (archive_unwritable archive.now)) }
{
    check_archive(archive)?;
    let text = text_of_archive(alloc, archive)?;
    Ok(text)
}

/// Writes the line of a row behind a text: the text of the archive without rows, and behind it the line of each row, is
/// the text of the archive. So the rows of a large table need not be held. Errors name the line by the number that is
/// given, which is 4 for the first row.
///
/// # Errors
/// Fails with `InvalidInput` if no line means the row: a text is empty or has one of the characters that stand for
/// control characters; a value isn't of its column's type, or there isn't one for each column; or there is no column.
/// The error has the first field that can't be written. Otherwise it fails with `OutOfMemory`, at no place. After an
/// error the text is as it was.
pub fn write_row(
    text: &mut String,
    line: usize,
    columns: &[ArchiveColumn],
    row: &[Value],
) -> Result<(), ArchiveError>
    ensures ok { OnOk result (string_bytes text.new ≡ string_bytes text.old ++ row_line row.now) }
    ensures only { OnOk result (has_row_line columns.now row.now ≡ true) }
    ensures kind { IfErr result (λ e.
        e.kind ≡ (if has_row_line columns.now row.now then OutOfMemory else InvalidInput)) }
    ensures place { IfErr result (λ e. IsAt e.place e.kind (row_unwritable columns.now line row.now)) }
    ensures same { OnErr result (string_bytes text.new ≡ string_bytes text.old) }
{
    check_row(line, columns, row)?;
    push_row(text, row)?;
    Ok(())
}
