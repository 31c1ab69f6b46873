//! What text archives give.

use crate::archive_streams::{STREAMS, row_with_streams};
use crate::given::{Given, GivenColumn, GivenTable, page_of};
use crate::places::at_part;
use msi_base::CodePage;
use msi_exchange::{Archive, ArchiveColumn, ArchiveError, read};
use msi_table::Value;
use msipkg_format::{Failure, StoredProperty, System};
use std::alloc::{AllocError, Global};
use std::str;

pub(crate) fn read_archive(
    rt: &System,
    path: &str,
    bytes: &[u8],
    given: &mut Given,
) -> Result<(), Failure> {
    let archive = archive_in(rt.alloc(), path, bytes)?;
    take_archive(rt, path, &archive, given)
}

/// Adds the contents of an archive, which is borrowed, since its drop is a long one.
fn take_archive(
    rt: &System,
    path: &str,
    archive: &Archive,
    given: &mut Given,
) -> Result<(), Failure> {
    match archive.table() {
        "_ForceCodepage" => take_page(archive, given),
        "_SummaryInformation" => take_summary(rt.alloc(), archive, given),
        _ => take_table(rt, path, archive, given),
    }
}

/// Reads the archive of a file's bytes. `msiinfo` of msitools writes a null behind `_ForceCodepage`.
fn archive_in(alloc: Global, path: &str, bytes: &[u8]) -> Result<Archive, Failure> {
    let text = text_in(alloc, bytes.strip_suffix(b"\0").unwrap_or(bytes))?;
    match read(alloc, text.as_str()) {
        Ok(archive) => Ok(archive),
        Err(error) => Err(failure_of(alloc, path, &error)),
    }
}

fn failure_of(alloc: Global, path: &str, error: &ArchiveError) -> Failure {
    let failure = Failure::rule(error.reason().0);
    let Some(place) = error.place() else {
        return failure;
    };
    let (line, field) = (place.line, place.field);
    match format!(in alloc; "{line}, field {field}") {
        Ok(name) => at_part(alloc, failure, path, "line", name.as_str()),
        Err(_) => failure,
    }
}

/// Reads a file's bytes in the code page that its third line names, or else in UTF-8, of which ASCII is a part.
fn text_in(alloc: Global, bytes: &[u8]) -> Result<String, Failure> {
    let page = match page_number(bytes) {
        Some(number) => page_of(i32::from(number))?,
        None => CodePage::Utf8,
    };
    Ok(page.decode(alloc, bytes)?)
}

/// Returns the number at the beginning of the third line.
fn page_number(bytes: &[u8]) -> Option<u16> {
    let line = bytes.split(|byte| *byte == b'\n').nth(2)?;
    let field = line.split(|byte| *byte == b'\t').next()?;
    str::from_utf8(field).ok()?.parse::<u16>().ok()
}

fn take_page(archive: &Archive, given: &mut Given) -> Result<(), Failure> {
    if let Some(number) = archive.page() {
        given.page = Some(page_of(i32::from(number))?);
    }
    Ok(())
}

/// Adds the summary. A property that no call of the library sets, such as a thumbnail, is passed over.
fn take_summary(alloc: Global, archive: &Archive, given: &mut Given) -> Result<(), Failure> {
    given.has_summary = true;
    for row in archive.rows() {
        let Some((id, text)) = property_in(row.as_slice()) else {
            return Err(Failure::rule("its rows have to be numbers and texts"));
        };
        if let Some(property) = StoredProperty::from_id(id) {
            given.add_property(alloc, property, text)?;
        }
    }
    Ok(())
}

/// Returns the number and the text of a property. Null is the empty text.
fn property_in(row: &[Value]) -> Option<(i32, &str)> {
    match row {
        [Value::Int(id), Value::Str(text)] => Some((*id, text.as_str())),
        [Value::Int(id), Value::Null] => Some((*id, "")),
        _ => None,
    }
}

/// Adds a table and the streams of its rows. The table of the streams that no row has isn't added itself.
fn take_table(
    rt: &System,
    path: &str,
    archive: &Archive,
    given: &mut Given,
) -> Result<(), Failure> {
    let mut table = GivenTable::new(rt.alloc(), path, archive.table())?;
    take_columns(rt.alloc(), archive, &mut table)?;
    take_rows(rt, path, archive, &mut table, given)?;
    if table.name.as_str() != STREAMS {
        given.tables.push(table)?;
    }
    Ok(())
}

fn take_rows(
    rt: &System,
    path: &str,
    archive: &Archive,
    table: &mut GivenTable,
    given: &mut Given,
) -> Result<(), Failure> {
    for row in archive.rows() {
        let row = row_with_streams(rt, path, table, row.as_slice(), given)?;
        table.add_row(rt.alloc(), row)?;
    }
    Ok(())
}

fn take_columns(alloc: Global, archive: &Archive, table: &mut GivenTable) -> Result<(), Failure> {
    if !are_keys(archive) {
        return Err(Failure::rule("its third line names a key that is no column"));
    }
    for column in archive.columns() {
        table.columns.push(column_of(alloc, archive, column)?)?;
    }
    Ok(())
}

fn are_keys(archive: &Archive) -> bool {
    let columns = archive.columns();
    archive.keys().iter().all(|key| columns.iter().any(|column| column.name() == key.as_str()))
}

fn column_of(
    alloc: Global,
    archive: &Archive,
    column: &ArchiveColumn,
) -> Result<GivenColumn, AllocError> {
    let mut given = GivenColumn::new(alloc, column.name(), column.coltype())?;
    given.is_localizable = column.is_localizable();
    given.is_nullable = column.is_nullable();
    given.is_key = archive
        .keys()
        .iter()
        .any(|key| key.as_str() == column.name());
    Ok(given)
}
