//! Reading a text archive from its text.

ghost use Rattle.std.specs.Prelude.{◌≡◌, IfOk, Some, map};
ghost use Rattle.std.specs.Str.Lines.{lines};
ghost use Rattle.msi_exchange.specs.Archives.{ArchiveDef};
ghost use Rattle.msi_exchange.specs.Lists.{each, each_pair};
ghost use Rattle.msi_exchange.specs.Places.{Gives, Placed, first_wrong};
ghost use Rattle.msi_exchange.specs.Reading.{archive_in, archive_of, archive_of_lines, cell_in, row_in};
ghost use Rattle.msi_exchange.specs.TextArchives.{Means};
ghost use Rattle.msi_exchange.specs.WrongPlaces.{archive_wrong, cells_wrong, lines_wrong, row_wrong, text_wrong};

use crate::archive::{Archive, ArchiveColumn};
use crate::columns::columns_of;
use crate::errors::{ArchiveError, Place, uneven};
use crate::fields::{cell_at, fields_of};
use crate::keys::keys_of;
use crate::reasons;
use msi_base::errors::ErrorKind;
use msi_base::text::Items;
use msi_table_values::value::Value;
use std::alloc::{AllocError, Global};

fn lines_of<'a>(alloc: Global, text: &'a str) -> Result<Vec<&'a str>, AllocError>
    ensures { IfOk result (λ parts. map (λ line. line.now) parts.items ≡ lines text.now) }
{
    text.lines().collect(alloc)
}

fn row_with(
    alloc: Global,
    line: usize,
    columns: &[ArchiveColumn],
    fields: &[&str],
) -> Result<Vec<Value>, ArchiveError>
    ensures value { Gives (λ row. row.items) result
        (each_pair cell_in columns.now (map (λ field. field.now) fields.now)) }
    ensures place { Placed result (cells_wrong columns.now line (map (λ field. field.now) fields.now)) }
{
    if columns.len() != fields.len() {
        let place = uneven(line, columns.len(), fields.len());
        return Err(ArchiveError::new(place, ErrorKind::InvalidData, reasons::ROW_OTHER));
    }
    let mut row = Vec::with_capacity(alloc, columns.len())?;
    for i in 0..columns.len() {
        let place = Place { line, field: i + 1 };
        let value = cell_at(alloc, place, &columns[i], fields[i])?;
        row.push(value)?;
    }
    Ok(row)
}

#[tactic(auto, unfolding(crate::specs::Reading::row_in))]
fn row_of(
    alloc: Global,
    number: usize,
    columns: &[ArchiveColumn],
    line: &str,
) -> Result<Items<Value>, ArchiveError>
    ensures value { Gives (λ row. row) result (row_in columns.now line.now) }
    ensures place { Placed result (row_wrong columns.now number line.now) }
{
    let fields = fields_of(alloc, line)?;
    let row = row_with(alloc, number, columns, fields.as_slice())?;
    Ok(Items::from_vec(row))
}

fn rows_of(
    alloc: Global,
    columns: &[ArchiveColumn],
    lines: &[&str],
) -> Result<Vec<Items<Value>>, ArchiveError>
    ensures value { Gives (λ rows. rows.items) result (each (row_in columns.now) (map (λ line. line.now) lines.now)) }
    ensures place { Placed result (first_wrong (row_wrong columns.now) 4 (map (λ line. line.now) lines.now)) }
{
    let mut rows = Vec::with_capacity(alloc, lines.len())?;
    for i in 0..lines.len() {
        let row = row_of(alloc, i + 4, columns, lines[i])?;
        rows.push(row)?;
    }
    Ok(rows)
}

#[tactic(auto, unfolding(crate::specs::Reading::archive_of))]
fn archive_with(
    alloc: Global,
    names: &str,
    types: &str,
    keys: &str,
    others: &[&str],
) -> Result<Archive, ArchiveError>
    ensures value { Gives (λ archive. archive) result
        (archive_of names.now types.now keys.now (map (λ line. line.now) others.now)) }
    ensures place { Placed result
        (archive_wrong names.now types.now keys.now (map (λ line. line.now) others.now)) }
{
    let columns = columns_of(alloc, names, types)?;
    let fields = fields_of(alloc, keys)?;
    let head = keys_of(alloc, fields.as_slice())?;
    let rows = rows_of(alloc, columns.as_slice(), others)?;
    Ok(Archive::new(
        head.page,
        head.table,
        head.keys,
        Items::from_vec(columns),
        Items::from_vec(rows),
    ))
}

fn archive_of_parts(alloc: Global, lines: &[&str]) -> Result<Archive, ArchiveError>
    ensures value { Gives (λ archive. archive) result (archive_of_lines (map (λ line. line.now) lines.now)) }
    ensures place { Placed result (lines_wrong (map (λ line. line.now) lines.now)) }
{
    match lines {
        [names, types, keys, others @ ..] => archive_with(alloc, names, types, keys, others),
        _ => {
            let place = Place {
                line: lines.len() + 1,
                field: 1,
            };
            Err(ArchiveError::new(place, ErrorKind::InvalidData, reasons::LINES_FEW))
        }
    }
}

fn archive_in_text(alloc: Global, text: &str) -> Result<Archive, ArchiveError>
    ensures value { Gives (λ archive. archive) result (archive_in text.now) }
    ensures place { Placed result (text_wrong text.now) }
{
    let lines = lines_of(alloc, text)?;
    archive_of_parts(alloc, lines.as_slice())
}

/// Returns the archive that a text means: the names of the columns, their types and the table with its keys, each in a
/// line, and then a line for each row (MSI SDK, "Text Archive Files"). A line ends in a line feed, with or without a
/// carriage return in front, or with the text. `_ForceCodepage` is an archive without columns. The bytes of a file are
/// decoded before, in the page that its third line names.
///
/// # Errors
/// Fails with `InvalidData` if the text means no archive. The error has the first place that breaks a rule: of the
/// columns in turn, the field of the name or the one of the type below it; then of the third line; then of the rows. If
/// a line hasn't a field for each column, which for the types is looked at before the columns, the place is the first
/// field that is missing or too many. Otherwise it fails with `OutOfMemory`, at no place.
pub fn read(alloc: Global, text: &str) -> Result<Archive, ArchiveError>
    ensures found { IfOk result (λ archive. Means text.now archive) }
    ensures only { (archive : ArchiveDef) → Means text.now archive → Gives (λ a. a) result (Some archive) }
    ensures exact { Gives (λ archive. archive) result (archive_in text.now) }
    ensures place { Placed result (text_wrong text.now) }
{
    archive_in_text(alloc, text)
}
